//! What a scan keeps for each stop: a list of points. Boarding a connection adds to it.

use crate::hop::{Hop, ScanQuery};
use crate::riding::ride_labels;
use criteria::Criterion;
use fronts::{Boarding, FrontLists, Label, RiddenLabel, index_of};
use sources::ConnSource;
use std::alloc::AllocError;
use std::ops::Range;
use timetable::Footpath;

/// For each stop the head of its list of points. A point's tag is the index in `lists` of its step: a footpath, the
/// connection boarded after it, and the label by which one rides on.
#[derive(Drop)]
pub struct Stops<C: Criterion> {
    pub lists: FrontLists<C>,
    pub heads: Vec<u32>,
    // scratch memory of boarding: the values of a trip's labels with the ride, overwritten each time
    pub ridden: Vec<RiddenLabel<C::V>>,
}

impl<C: Criterion> Stops<C> {
    ghost use Rattle.std.specs.Prelude.{◌≡◌, ◌<◌, true, OnOk, vec_len, slice_index};
    ghost use Rattle.scan_state.specs.Adding.{label_points};
    ghost use Rattle.scan_state.specs.KeptParts.{boards_after, boards_after_each, boards_all};
    ghost use Rattle.scan_state.specs.InLists.{BoardsRidden, CanBoard, CanBoardAfter, CanBoardAfterEach, StopsTake};

    /// The head of a stop's list, which is 0 if the list is empty.
    pub fn head(&self, stop: u32) -> u32
        requires { stop < vec_len self.now.heads }
        ensures { result ≡ slice_index self.now.heads.items stop }
    {
        self.heads[stop as usize]
    }

    // Offers, for each ridden value, the point of taking a footpath and then boarding, to the list of the stop where
    // the footpath begins.
    #[inline(always)]
    fn board_walk(
        &mut self,
        asked: &ScanQuery<C>,
        hop: &Hop<C::V>,
        walk_index: usize,
        walk: Footpath,
    ) -> Result<(), AllocError>
        requires { CanBoardAfter C.rules asked.now.criterion walk self.old }
        ensures { OnOk result (BoardsRidden C.rules asked.now.criterion
            (λ labels. boards_after (C.rules asked.now.criterion) hop.now labels walk_index walk) self.old self.new) }
    {
        let dep = hop.connection.dep;
        if walk.secs > dep {
            return Ok(());
        }
        let number = index_of(walk_index)?;
        let head = self.head(walk.from);
        let boarding = Boarding {
            departure: dep - walk.secs,
            first: hop.place,
            walk: number,
            secs: walk.secs,
        };
        let new = self.lists.insert(head, boarding, &self.ridden)?;
        self.heads[walk.from as usize] = new;
        Ok(())
    }

    // Goes over the footpaths at the indices `walks`, which lead to the stop where a connection begins, and boards
    // after each.
    #[inline(always)]
    fn board_walks<S: ConnSource>(
        &mut self,
        asked: &ScanQuery<C>,
        source: &S,
        hop: &Hop<C::V>,
        walks: Range<usize>,
    ) -> Result<(), AllocError>
        requires { CanBoardAfterEach C.rules asked.now.criterion (S.timetable source.now)
            walks.start walks.end hop.now self.old }
        ensures { OnOk result (BoardsRidden C.rules asked.now.criterion
            (boards_after_each (C.rules asked.now.criterion) (S.timetable source.now) walks.start walks.end hop.now)
            self.old self.new) }
    {
        for walk_index in walks.start..walks.end {
            let walk = source.footpath_into(hop.connection.from as usize, walk_index);
            self.board_walk(asked, hop, walk_index, walk)?;
        }
        Ok(())
    }

    /// Boards a connection, if passengers may get on there: offers to the list of each stop with a footpath there, for
    /// each label of the trip, the point of boarding with it, unless a value of `hop.bound` is no worse than the
    /// label's value with the ride.
    #[inline(always)]
    pub fn board<S: ConnSource>(
        &mut self,
        asked: &ScanQuery<C>,
        source: &S,
        hop: &Hop<C::V>,
        labels: &[Label<C::V>],
    ) -> Result<(), AllocError>
        requires { CanBoard C.rules (S.timetable source.now) asked.now hop.now labels.now self.old }
        ensures { OnOk result (StopsTake C.rules asked.now.criterion
            (boards_all (C.rules asked.now.criterion)
            (S.timetable source.now) hop.now (label_points labels.now)) self.old self.new) }
    {
        if !hop.connection.board {
            return Ok(());
        }
        self.board_labels(asked, source, *hop, labels)
    }

    // Does what `board` does for a connection where passengers may get on. It goes over all labels and is large, so it
    // is a call and never inlined. It takes the hop itself: one that is lent to a call is written to memory at each
    // connection.
    #[inline(never)]
    fn board_labels<S: ConnSource>(
        &mut self,
        asked: &ScanQuery<C>,
        source: &S,
        hop: Hop<C::V>,
        labels: &[Label<C::V>],
    ) -> Result<(), AllocError>
        requires can { CanBoard C.rules (S.timetable source.now) asked.now hop labels.now self.old }
        requires boards { hop.connection.board ≡ true }
        ensures { OnOk result (StopsTake C.rules asked.now.criterion
            (boards_all (C.rules asked.now.criterion)
            (S.timetable source.now) hop.entry (label_points labels.now)) self.old self.new) }
    {
        ride_labels(&asked.criterion, hop.bound, labels, &mut self.ridden)?;
        if self.ridden.len() == 0 {
            return Ok(());
        }
        let (begin, end) = source.walks_into(hop.connection.from as usize);
        self.board_walks(asked, source, &hop, begin..end)?;
        Ok(())
    }
}
