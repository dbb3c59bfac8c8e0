//! Events taken one after another.

ghost use Rattle.std.specs.Prelude.{IfOk, OnErr};
ghost use Rattle.version_core.specs.Runs.{Run, LeastRun, IsStopped};

use crate::event::{Event, Reply};
use crate::machine::Core;
use std::alloc::{AllocError, Global};

/// Takes the events one after another, and returns their replies. Each opening takes the least free shelf. If memory is
/// refused, the core has taken only the events before the one that needed it, or none.
pub fn run(alloc: Global, core: &mut Core, events: &[Event]) -> Result<Vec<Reply>, AllocError>
    ensures run { IfOk result (λ replies. Run core.old events.now replies.items core.new) }
    ensures least { IfOk result (λ replies. LeastRun core.old events.now replies.items core.new) }
    ensures stopped { OnErr result (IsStopped core.old events.now core.new) }
{
    let mut replies = Vec::with_capacity(alloc, events.len())?;
    for event in events {
        let reply = core.step(*event)?;
        replies.push_reserved(reply);
    }
    Ok(replies)
}
