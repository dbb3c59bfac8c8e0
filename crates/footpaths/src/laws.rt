//! Laws of closures. The functions do nothing: their contracts are the laws.

ghost use Rattle.std.specs.Prelude.{◌≡◌, ◌<◌, ◌↔◌, ℕ, List, length, Contains};
ghost use Rattle.timetable.specs.declared.network.Footpath.{Footpath};
ghost use Rattle.timetable.specs.TimetableValue.{TimetableValue};
ghost use Rattle.timetable.specs.Legal.{IsLegal};
ghost use Rattle.footpaths.specs.Closure.{IsClosure, HasMorePairs, HasLongerWalk, AreInRange, HasLoops};
ghost use Rattle.footpaths.specs.Closure.{HasLegalFootpaths};

/// If each stop has a listed loop, the closure meets what a legal timetable asks of its footpaths.
pub fn closure_is_legal()
    ensures { (stops : ℕ) (listed closure : List Footpath) → AreInRange listed stops → HasLoops listed stops
        → IsClosure listed closure
        → HasLegalFootpaths stops closure }
{}

/// Listed footpaths have a closure, however many footpaths it has and however long they take: also if
/// `close` refuses them.
pub fn has_closure()
    ensures { (listed : List Footpath) (stops : ℕ) → AreInRange listed stops
        → (closure : List Footpath) × IsClosure listed closure }
{}

/// Listed footpaths have at most one closure.
pub fn one_closure()
    ensures { (listed closure other : List Footpath) → IsClosure listed closure → IsClosure listed other
        → closure ≡ other }
{}

/// Footpaths that meet what a legal timetable asks of its footpaths are their own closure.
pub fn closed_stays()
    ensures { (stops : ℕ) (paths : List Footpath) → HasLegalFootpaths stops paths → IsClosure paths paths }
{}

/// What faults say of walks is true of the closure: it has more than `most` footpaths exactly if
/// walks join more than `most` pairs of stops, and one that takes longer than `longest` exactly if
/// some pair is joined by walks, but only by longer ones.
pub fn faults_of_closure()
    ensures many { (listed closure : List Footpath) (most : ℕ) → IsClosure listed closure → HasMorePairs listed most
        ↔ (most < length closure) }
    ensures long { (listed closure : List Footpath) (longest : ℕ) → IsClosure listed closure
        → HasLongerWalk listed longest ↔ ((f : Footpath) × Contains closure f × (longest < f.secs)) }
{}

/// `HasLegalFootpaths` is what a legal timetable asks of its footpaths: those of a legal timetable
/// meet it, and with others that meet it the timetable is legal too.
pub fn legal_footpaths()
    ensures has { (t : TimetableValue) → IsLegal t → HasLegalFootpaths t.stops t.footpaths }
    ensures takes { (t : TimetableValue) (paths : List Footpath) → IsLegal t → HasLegalFootpaths t.stops paths
        → IsLegal (record t { footpaths = paths }) }
{}
