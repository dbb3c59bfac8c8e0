//! Labels of many trips in one vector: the values that passengers aboard can reach at the target. Those of a trip are
//! side by side, in its run.
//!
//! A run is written over while labels fit its `room`. Else they go to the vector's end, into a `room` of nearly twice
//! their number. So what a trip has left behind is no more than its run's `room`, and both together are fewer than four
//! times the most labels that the trip had at once.

ghost use Rattle.std.specs.Prelude.{◌≡◌, ◌+◌, ◌++◌, ◌<◌, ◌≤◌, take, drop, length};
ghost use Rattle.std.specs.Prelude.{Contains, OnOk, MatchResult};
ghost use Rattle.criteria.specs.Laws.{Rules, Admits};
ghost use Rattle.fronts.specs.declared.labels.Label.{Label};
ghost use Rattle.fronts.specs.declared.labels.LabelRun.{LabelRun};
ghost use Rattle.fronts.specs.Offered.{TakesOffer, LosesOffer, others};
ghost use Rattle.fronts.specs.Labels.{AreStillLabels, ArePut, ArePartlyPut, HasTrip, labels_at};

use crate::putting::index_of;
use crate::search::part;
use crate::valued::some_no_worse;
use criteria::Criterion;
use std::alloc::{AllocError, Global};

/// A value that a passenger aboard a trip can reach at the target, and a tag that names how.
#[derive(Clone, Copy, Debug, Drop)]
pub struct Label<V> {
    pub value: V,
    pub tag: u32,
}

/// Where a trip's labels are: `count` of them from index `first` on, where there is room for `room`.
#[derive(Clone, Copy, Drop)]
pub struct LabelRun {
    pub first: u32,
    pub count: u32,
    pub room: u32,
}

/// The labels of a number of trips. Of two labels of a trip each is worse than the other in something, as `offer_label`
/// keeps it; no clause needs it.
#[derive(Drop)]
pub struct Labels<V> {
    runs: Vec<LabelRun>,
    labels: Vec<Label<V>>,
    // scratch memory: the labels of one trip
    kept: Vec<Label<V>>,
}

impl<V: Copy> Labels<V> {
    ghost use Rattle.std.specs.Prelude.{◌≡◌, IfOk, length};
    ghost use Rattle.criteria.specs.Laws.{Rules};
    ghost use Rattle.fronts.specs.Labels.{HasTrip, HaveNone, labels_at};

    /// Makes the labels of `trips` trips: each trip has none yet.
    pub fn new(alloc: Global, trips: u32) -> Result<Self, AllocError>
        ensures { IfOk result (HaveNone trips) }
    {
        let none = LabelRun {
            first: 0,
            count: 0,
            room: 0,
        };
        let runs = vec![in alloc; none; trips as usize]?;
        Ok(Labels {
            runs,
            labels: Vec::new(alloc),
            kept: Vec::new(alloc),
        })
    }

    /// The number of labels that a trip has.
    #[inline(always)]
    pub fn count(&self, trip: u32) -> u32
        requires { (rules : Rules _) × HasTrip rules self.now trip }
        ensures { result ≡ length (labels_at self.now trip) }
    {
        self.runs[trip as usize].count
    }

    /// The labels of a trip.
    #[inline(always)]
    pub fn of(&self, trip: u32) -> &[Label<V>]
        requires { (rules : Rules _) × HasTrip rules self.now trip }
        ensures { result.now ≡ labels_at self.now trip }
    {
        let run = self.runs[trip as usize];
        part(&self.labels, run.first, run.count)
    }
}

// Keeps each label unless `value` is no worse, instead of those kept before.
fn keep_others<C: Criterion>(
    criterion: &C,
    labels: &[Label<C::V>],
    value: &C::V,
    kept: &mut Vec<Label<C::V>>,
) -> Result<(), AllocError>
    requires labels { (l : Label _) → Contains labels.now l → Admits (C.rules criterion.now) l.value }
    requires value { Admits (C.rules criterion.now) value.now }
    ensures { OnOk result (kept.new.items ≡ others (C.rules criterion.now) value.now labels.now) }
{
    kept.clear();
    for k in 0..labels.len() {
        let label = labels[k];
        if !criterion.no_worse(value, &label.value) {
            kept.push(label)?;
        }
    }
    Ok(())
}

// Writes labels over those from index `first` on.
fn write_over<V: Copy>(labels: &mut Vec<Label<V>>, first: u32, new: &[Label<V>])
    requires { first + length new.now ≤ length labels.old.items }
    ensures { labels.new.items ≡ take first labels.old.items
        ++ (new.now ++ drop (first + length new.now) labels.old.items) }
{
    let begin = first as usize;
    labels[begin..begin + new.len()].copy_from_slice(new);
}

// Puts labels where a run is, if it has room for them, or else at the end, with room for nearly as many again. Returns
// where they are.
fn put<V: Copy>(
    labels: &mut Vec<Label<V>>,
    run: LabelRun,
    new: &[Label<V>],
) -> Result<LabelRun, AllocError>
    requires some { 0 < length new.now }
    requires within { run.first + run.room ≤ length labels.old.items }
    ensures { MatchResult result (λ placed. ArePut labels.old.items run new.now placed labels.new.items)
        (λ _. ArePartlyPut labels.old.items new.now labels.new.items) }
{
    let count = index_of(new.len())?;
    if count <= run.room {
        write_over(labels, run.first, new);
        return Ok(LabelRun { count, ..run });
    }
    let first = index_of(labels.len())?;
    labels.extend_from_slice(new)?;
    labels.extend_from_slice(&new[1..])?;
    let room = index_of(labels.len() - first as usize)?;
    Ok(LabelRun { first, count, room })
}

/// Adds a value with its tag to the labels of a trip, unless one of them is no worse, and drops those that it is no
/// worse than. Returns whether it was added. If memory runs out, or numbers of 32 bits, the labels of each trip stay as
/// they were; a value that isn't added needs none.
pub fn offer_label<C: Criterion>(
    criterion: &C,
    labels: &mut Labels<C::V>,
    trip: u32,
    value: C::V,
    tag: usize,
) -> Result<bool, AllocError>
    requires trip { HasTrip (C.rules criterion.now) labels.old trip }
    requires value { Admits (C.rules criterion.now) value }
    ensures labels { AreStillLabels (C.rules criterion.now) labels.old labels.new }
    ensures taken { MatchResult result
        (TakesOffer (C.rules criterion.now) trip (record {
          value = value;
          tag = tag;
        }) (labels_at labels.old) (labels_at labels.new))
        (λ _. LosesOffer (C.rules criterion.now) trip value (labels_at labels.old) (labels_at labels.new)) }
{
    let run = labels.runs[trip as usize];
    if some_no_worse(
        criterion,
        part(&labels.labels, run.first, run.count),
        &value,
    ) {
        return Ok(false);
    }
    let tag = index_of(tag)?;
    keep_others(
        criterion,
        part(&labels.labels, run.first, run.count),
        &value,
        &mut labels.kept,
    )?;
    labels.kept.push(Label { value, tag })?;
    labels.runs[trip as usize] = put(&mut labels.labels, run, &labels.kept)?;
    Ok(true)
}
