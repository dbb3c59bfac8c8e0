//! Vectors of copies, and how they grow.

ghost use Rattle.std.specs.Prelude.{◌≡◌, ◌<◌, ◌++◌, ◌∷◌, [], IfOk, OnErr, OnOk};
ghost use Rattle.std.specs.Prelude.{replicate, vec_capacity, vec_len};
ghost use Rattle.fronts.specs.Vectors.{IsFull};

use std::alloc::{AllocError, Global};

/// Returns `count` copies of an item. The kit's `vec!` clones, and contracts know less of a clone than of a copy.
pub fn copies<T: Copy>(alloc: Global, item: T, count: usize) -> Result<Vec<T>, AllocError>
    ensures { IfOk result (λ items. items.items ≡ replicate count item) }
{
    let mut items = Vec::with_capacity(alloc, count)?;
    for k in 0..count {
        items.push(item)?;
    }
    Ok(items)
}

/// Appends an item. Mostly there is room for it, and then nothing is called, nor is the item written anywhere else. If
/// memory runs out, the vector is full and the items stay.
#[inline(always)]
pub fn append<T: Copy>(items: &mut Vec<T>, item: T) -> Result<(), AllocError>
    ensures added { OnOk result (items.new.items ≡ items.old.items ++ item ∷ []) }
    ensures same { OnErr result (items.new.items ≡ items.old.items) }
    ensures full { OnErr result (IsFull items.new) }
{
    make_room(items)?;
    items.push_reserved(item);
    Ok(())
}

// Makes room for one more item, unless there is some.
#[inline(always)]
fn make_room<T>(items: &mut Vec<T>) -> Result<(), AllocError>
    ensures items { items.new.items ≡ items.old.items }
    ensures room { OnOk result (vec_len items.new < vec_capacity items.new) }
    ensures full { OnErr result (IsFull items.new) }
{
    if items.len() < items.capacity() {
        return Ok(());
    }
    grow(items)
}

// Makes room for more items in a vector that is full. It is rare, so it is a call and never inlined.
#[inline(never)]
fn grow<T>(items: &mut Vec<T>) -> Result<(), AllocError>
    requires { IsFull items.old }
    ensures items { items.new.items ≡ items.old.items }
    ensures room { OnOk result (vec_len items.new < vec_capacity items.new) }
    ensures full { OnErr result (IsFull items.new) }
{
    items.reserve(1)
}
