//! Values that contracts alone see.

use std::marker::{Model, PhantomData};

/// A `T` as contracts see it. It takes no bytes and owns nothing.
///
/// It can be made of any value, so it means something only if an invariant ties it to fields that exist at run time.
#[derive(Drop)]
pub struct GhostValue<T> {
    marker: PhantomData<T>,
    pub ghost value: { T },
}

impl<T> Model for GhostValue<T> {
    ghost use Rattle.std.specs.Borrow.{ftrue};

    ghost also_owns = { λ _. ftrue };
}

impl<T> GhostValue<T> {
    ghost use Rattle.std.specs.Prelude.{◌≡◌};

    /// Returns a value that the caller's proof chooses. The proof can use what is lent here.
    pub fn at<A, B>(first: &A, second: &B) -> GhostValue<T>
        ghost chosen: { T }
        ensures { result.value ≡ chosen }
    {
        GhostValue {
            marker: PhantomData,
        }
    }

    /// Returns the item's value. The item is only borrowed.
    pub fn of(item: &T) -> GhostValue<T>
        ensures { result.value ≡ item.now }
    {
        GhostValue::at(item, &())
    }
}

unsafe impl<T> Send for GhostValue<T> {}

unsafe impl<T> Sync for GhostValue<T> {}
