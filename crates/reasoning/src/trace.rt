//! Lists that contracts alone see.

use std::marker::Model;
use std::mem;
use std::snapshot::Snapshot;

// How a list was put together. A node exists only during a call of `Snapshot::of`.
#[derive(Drop)]
enum TraceNode<T> {
    Nothing,
    One(Snapshot<TraceNode<T>>, Snapshot<T>),
    Both(Snapshot<TraceNode<T>>, Snapshot<TraceNode<T>>),
}

/// A list that contracts alone see. It takes no bytes, and its functions no memory.
///
/// It has the items that were noted, in this order, and no others. A type that keeps a trace states in its invariant
/// how the list agrees with the fields that exist at run time, and lets no other code add to it.
#[derive(Drop)]
pub struct Trace<T> {
    node: Snapshot<TraceNode<T>>,
}

impl<T> Model for Trace<T> {
    ghost use Rattle.std.specs.Prelude.{List};

    ghost Value = { List T };

    ghost use Rattle.reasoning.specs.NodeItems.{items_of};

    ghost view = { λ t. items_of t.node.value };
}

impl<T> Trace<T> {
    ghost use Rattle.std.specs.Prelude.{◌≡◌, ◌++◌, ◌∷◌, []};

    /// The empty list.
    pub fn new() -> Trace<T>
        ensures { result ≡ [] }
    {
        Trace {
            node: Snapshot::of(&TraceNode::Nothing),
        }
    }

    /// Adds the item at the end. The item is only borrowed.
    pub fn note(&mut self, item: &T)
        ensures { self.new ≡ self.old ++ item.now ∷ [] }
    {
        let before = mem::replace(&mut self.node, Snapshot::of(&TraceNode::Nothing));
        self.node = Snapshot::of(&TraceNode::One(before, Snapshot::of(item)));
    }

    /// Adds another list at the end.
    pub fn append(&mut self, other: Trace<T>)
        ensures { self.new ≡ self.old ++ other }
    {
        let Trace { node } = other;
        let before = mem::replace(&mut self.node, Snapshot::of(&TraceNode::Nothing));
        self.node = Snapshot::of(&TraceNode::Both(before, node));
    }
}
