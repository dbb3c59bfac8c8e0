//! What the rule of a queue says.

ghost use Rattle.handoff.specs.Queue.{EachIsTakenOnce};

/// Each item that was put at an end of a queue was taken once, or waits, and no other was taken or waits, whatever the
/// ends of the queue did.
pub fn each_is_taken_once<I: Drop>()
    ensures { EachIsTakenOnce I }
{}
