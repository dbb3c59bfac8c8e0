//! What lists of fronts are made of: items, entries with their fronts, and steps, which say how one goes on.

/// A departure, in seconds, and a value, with a tag that names how one goes on.
#[derive(Clone, Copy, Debug, Drop)]
pub struct Item<V> {
    pub departure: u32,
    pub value: V,
    pub tag: u32,
}

/// A departure, a value and a tag, with the front of all points of its list that depart then or later.
///
/// The front is the entry's own point, and then `count` items from index `rest` on.
#[derive(Clone, Copy, Drop)]
pub struct FrontEntry<V> {
    pub departure: u32,
    // the index of the next entry on the list
    pub next: u32,
    pub rest: u32,
    pub count: u32,
    pub tag: u32,
    pub value: V,
}

/// All entries, and the items of their fronts, to be read.
#[derive(Clone, Copy)]
pub struct Arena<'e, 'i, V> {
    pub entries: &'e [FrontEntry<V>],
    pub items: &'i [Item<V>],
}

/// How one goes on from a point: the index of the connection that is boarded, the label by which one rides on, and
/// the index of the footpath to the connection.
#[derive(Clone, Copy, Debug, Drop)]
pub struct Step {
    pub first: u32,
    pub label: u32,
    pub walk: u32,
}

/// A label's value with the ride before it, and the number of the label.
#[derive(Clone, Copy, Drop)]
pub struct RiddenLabel<V> {
    pub value: V,
    pub label: u32,
}

/// How a footpath leads to a connection: when one has to set out on it, the index of the connection, and the index of
/// the footpath with its seconds.
#[derive(Clone, Copy, Drop)]
pub struct Boarding {
    pub departure: u32,
    pub first: u32,
    pub walk: u32,
    pub secs: u32,
}
