//! What a set of stops is called.

ghost use Rattle.std.specs.Prelude.{◌≡◌, ◌++◌, IfOk, OnOk, string_bytes};
ghost use Rattle.image_files.specs.Naming.{names_in};
ghost use Rattle.matrix_rows.specs.Joining.{tab_before};
ghost use Rattle.matrix_rows.specs.Tables.{AreNamed, set_bytes};

use departure_lines::printed_stop_name;
use image_files::NameForm;
use image_verifier::Verified;
use std::alloc::{AllocError, Global};

/// The stop_ids of some stops in a form, with a tab between two of them.
pub(crate) fn set_name(
    alloc: Global,
    image: &Verified,
    form: NameForm,
    stops: &[u32],
) -> Result<String, AllocError>
    ensures { IfOk result (λ name. string_bytes name ≡ set_bytes (names_in form image.now.names) stops.now) }
{
    let mut names = String::new(alloc);
    for index in 0..stops.len() {
        let name = printed_stop_name(alloc, image, stops[index], form)?;
        put_name(&mut names, index, name.as_str())?;
    }
    Ok(names)
}

/// What each of some sets is called, in a form.
pub(crate) fn set_names(
    alloc: Global,
    image: &Verified,
    form: NameForm,
    sets: &[Vec<u32>],
) -> Result<Vec<String>, AllocError>
    ensures { IfOk result (λ names. AreNamed (names_in form image.now.names) sets.now names.items) }
{
    let mut names = Vec::with_capacity(alloc, sets.len())?;
    for set in sets {
        names.push(set_name(alloc, image, form, set)?)?;
    }
    Ok(names)
}

// Adds a name to others, after a tab if it isn't the first.
fn put_name(names: &mut String, index: usize, name: &str) -> Result<(), AllocError>
    ensures { OnOk result (string_bytes names.new ≡ string_bytes names.old ++ (tab_before index ++ name.now)) }
{
    if index > 0 {
        names.push_str("\t")?;
    }
    names.push_str(name)
}
