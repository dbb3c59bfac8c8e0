//! What the rule of an answer channel says.

ghost use Rattle.load_orders.specs.AnswerChannels.{ReceivedWasSent};

/// What was received at an answer channel was sent there, in order, by its one sending end, whatever the ends of that
/// channel did.
pub fn received_was_sent<N: Drop>()
    ensures { ReceivedWasSent N }
{}
