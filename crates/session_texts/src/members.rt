//! Optional members of an object.

ghost use Rattle.std.specs.Prelude.{◌≡◌, OnOk};
ghost use Rattle.serde_json.specs.View.{members_view};
ghost use Rattle.session_texts.specs.Replies.{with_number};

use serde_json::{Map, Value, put};
use std::alloc::{AllocError, Global};

/// Adds a member with this name and number, if there is a number.
pub(crate) fn add_number(
    alloc: Global,
    members: &mut Map<String, Value>,
    name: &str,
    number: Option<u32>,
) -> Result<(), AllocError>
    ensures { OnOk result (members_view members.new.entries
        ≡ with_number name.now number (members_view members.old.entries)) }
{
    match number {
        None => Ok(()),
        Some(number) => put(members, alloc, name, Value::from(number)),
    }
}
