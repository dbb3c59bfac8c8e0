//! In which form a session replies to profiles.

ghost use Rattle.std.specs.Prelude.{◌≡◌, ◌↔◌, ◌-◌, IsTrue, None, false};
ghost use Rattle.session.specs.Forms.{ExceedsLongest};

use answer_replies::PointForm;

/// In which form profiles are replied, for which windows, and whether they may be asked between several stops.
#[derive(Clone, Copy, Drop)]
pub struct ReplyForm {
    /// In which form each point is replied.
    pub points: PointForm,
    /// How many seconds a window may last, from the earliest departure to the latest arrival. `None`: any number.
    pub longest: Option<u32>,
    /// Whether a profile may name several stops on a side.
    pub sets: bool,
}

impl ReplyForm {
    /// With points in this form, for windows of any length, from one stop to one other.
    pub fn of(points: PointForm) -> ReplyForm
        ensures points { result.points ≡ points }
        ensures longest { result.longest ≡ None }
        ensures sets { result.sets ≡ false }
    {
        ReplyForm {
            points,
            longest: None,
            sets: false,
        }
    }

    /// Whether a window from this earliest departure to this latest arrival is longer than windows may be.
    pub(crate) fn excludes(&self, after: u32, by: u32) -> bool
        ensures { IsTrue result ↔ ExceedsLongest self.now.longest (by - after) }
    {
        match self.longest {
            Some(longest) => longest < by.saturating_sub(after),
            None => false,
        }
    }
}
