//! Laws over every list of events. The functions do nothing: their contracts are the laws.

ghost use Rattle.version_core.specs.Laws.{EveryRunKeeps, EveryStepKeeps, CountsAreWorkers, NoHeldShelfIsCollected};
ghost use Rattle.version_core.specs.Laws.{NothingFalls, NothingFallsInAStep};
ghost use Rattle.version_core.specs.Laws.{EditionsStay, AsksAreAnswered, LooksAndTakesHold, DropsLetGo};
ghost use Rattle.version_core.specs.Laws.{OpensWithEdition, NoticesAreOfTheirTime};
ghost use Rattle.version_core.specs.Laws.{JoinedVersionsStay, OneReply, OneRun, RunsBegin, RunsGrow};
ghost use Rattle.version_core.specs.Laws.{RunsGrowByRuns, RunsGrowWithReplies, RunsJoin, RunsPart};
ghost use Rattle.version_core.specs.State.{start};
ghost use Rattle.version_core.specs.Invariants.{KeepsInvariants};
ghost use Rattle.version_core.specs.Rest.{IsAtRest, RestStays, LoadsRest, RestIsSpent, RestIsFull};

/// The laws of every run from the start, whatever its events: each state that it reaches satisfies `KeepsInvariants`,
/// and the
/// other laws hold of every state that does.
pub fn every_run()
    ensures kept { EveryRunKeeps }
    ensures counts { CountsAreWorkers }
    ensures held { NoHeldShelfIsCollected }
    ensures later { NothingFalls }
    ensures editions { EditionsStay }
    ensures asks { AsksAreAnswered }
    ensures replies { OneRun }
{}

/// The laws of one step, for a state that satisfies `KeepsInvariants`, whatever events led there. The start satisfies
/// it, and each
/// step preserves it. If an opening takes the least free shelf, state and event determine the reply and the next state.
pub fn every_step()
    ensures start { KeepsInvariants start }
    ensures kept { EveryStepKeeps }
    ensures later { NothingFallsInAStep }
    ensures opened { OpensWithEdition }
    ensures reply { OneReply }
{}

/// The laws of notices: a notice is of a version that was published, and once a worker has taken it in, no look of the
/// worker finds an older version.
pub fn notices()
    ensures versions { NoticesAreOfTheirTime }
    ensures looks { JoinedVersionsStay }
{}

/// The laws of holding: an idle worker that looks and takes, with no event between, holds the current version; a worker
/// that drops the version that it holds is idle.
pub fn holding()
    ensures takes { LooksAndTakesHold }
    ensures drops { DropsLetGo }
{}

/// The laws by which runs are joined and parted. A list of events that leads to a core's state still does when the
/// event of a step, or the events of a run, are added to it. A step that is refused memory adds none.
pub fn runs_in_parts()
    ensures begin { RunsBegin }
    ensures grow { RunsGrow }
    ensures grow_by_run { RunsGrowByRuns }
    ensures grow_with_replies { RunsGrowWithReplies }
    ensures join { RunsJoin }
    ensures part { RunsPart }
{}

/// The laws of the table at rest, as it is between two loads: nothing is unpublished, and no version but the current
/// one is open. A load opens the next version, publishes it and closes the shelf that was current, which leaves the
/// table at rest again. If a load can't begin, either no version number is left, or all shelves but the current one are
/// closing.
pub fn at_rest()
    ensures start { IsAtRest start }
    ensures stays { RestStays }
    ensures loads { LoadsRest }
    ensures spent { RestIsSpent }
    ensures full { RestIsFull }
{}
