//! What a table of travel times is made of.

use criteria::CriterionName;
use image_files::NameForm;
use image_verifier::Verified;
use profile_scan::Destinations;
use std::alloc::{AllocError, Global};

/// The image, the sets of stops where journeys end, and those where they begin; when, in seconds after the image's
/// base; the criterion; what has a row; and how it is written.
#[derive(Clone, Copy)]
pub struct TravelTable<'a> {
    pub image: &'a Verified,
    pub targets: &'a [Vec<u32>],
    pub sources: &'a [Vec<u32>],
    /// The earliest departure.
    pub after: u32,
    /// The latest departure.
    pub until: u32,
    /// The latest arrival.
    pub by: u32,
    pub criterion: CriterionName,
    /// Whether each departure has a row; otherwise each pair of sets has one.
    pub each: bool,
    /// How stop_ids are written.
    pub names: NameForm,
}

impl TravelTable<'_> {
    ghost use Rattle.std.specs.Prelude.{◌≡◌, IfOk};
    ghost use Rattle.profile_scan.specs.Destinations.{question_to_any};
    ghost use Rattle.matrix_rows.specs.Tables.{destination, waiting};

    /// What is asked of every stop for a set of targets. The only error is that memory runs out.
    pub fn destination(&self, alloc: Global, targets: &[u32]) -> Result<Destinations, AllocError>
        ensures { IfOk result (λ made. question_to_any made ≡ destination self.now targets.now) }
    {
        Ok(Destinations {
            targets: targets.to_vec(alloc)?,
            from: self.after,
            until: self.until,
            by: self.by,
        })
    }

    /// The same for those who may leave as late as they arrive.
    pub fn waiting(&self, alloc: Global, targets: &[u32]) -> Result<Destinations, AllocError>
        ensures { IfOk result (λ made. question_to_any made ≡ waiting (destination self.now targets.now)) }
    {
        Ok(Destinations {
            targets: targets.to_vec(alloc)?,
            from: self.after,
            until: self.by,
            by: self.by,
        })
    }
}
