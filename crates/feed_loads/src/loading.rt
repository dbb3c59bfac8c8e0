//! A feed is loaded and published.

ghost use Rattle.std.specs.Prelude.{◌≡◌, IfOk, MatchOption, MatchResult};
ghost use Rattle.std.specs.Arc.{arc_value};
ghost use Rattle.feed_files.specs.Reads.{SomeWereRead};
ghost use Rattle.shelves.specs.Seats.{ShowsRefusal};
ghost use Rattle.feed_loads.specs.Learned.{LoaderFitsAndLearns};
ghost use Rattle.feed_loads.specs.Loading.{FilesGoOn, HasDays, IsEarly, IsLoadOutcome, IsMadeOf};
ghost use Rattle.feed_loads.specs.Loading.{PublishesAndCollects};
ghost use Rattle.feed_loads.specs.Loading.{IsRefusalOf, load_state};
ghost use Rattle.feed_loads.specs.Words.{outcomes_of};

use crate::refusal::LoadRefusal;
use feed_loader::{FeedFiles, Plan, Report, load};
use image_verifier::Verified;
use shelves::{Loads, PublishFault, Versions};
use std::alloc::Global;
use std::sync::Arc;

/// The version that a load published, and the counts of its image.
#[derive(Clone, Copy, Debug, PartialEq, Eq)]
pub struct LoadedVersion {
    pub version: u64,
    pub report: Report,
}

/// Loads a feed and publishes its image as the next version; then frees the shelves that no worker needs. Returns the
/// version with the counts of its image, and a notice of the version.
#[tactic(auto, using(crate::proofs::Learning::loader_goes_same))]
pub fn load_one<F: FeedFiles, N, T: Versions<Notice = N> + Loads>(
    alloc: Global,
    files: &mut F,
    plan: &Plan,
    shelves: &T,
    loader: &mut T::Loader,
) -> Result<(LoadedVersion, Option<N>), LoadRefusal>
    requires loads { T.Loads.words.fits shelves.now loader.old }
    requires days { HasDays plan.now }
    ensures seat { LoaderFitsAndLearns T.Loads.words shelves.now loader.old loader.new }
    ensures outcome { IsLoadOutcome (outcomes_of F.words
        T.Loads.words T.Versions.words.version)
        plan.now (load_state files.old loader.old) result (load_state files.new loader.new) }
{
    match shared_image(alloc, files, plan) {
        Ok((image, report)) => match publish_image(shelves, loader, image) {
            Ok((version, notice)) => Ok((LoadedVersion { version, report }, notice)),
            Err(fault) => Err(LoadRefusal::Publish(fault)),
        },
        Err(refusal) => Err(refusal),
    }
}

// The image of the files, to be shared, and its counts.
fn shared_image<F: FeedFiles>(
    alloc: Global,
    files: &mut F,
    plan: &Plan,
) -> Result<(Arc<Verified, Global>, Report), LoadRefusal>
    requires days { HasDays plan.now }
    ensures files { FilesGoOn F.words files.old result files.new }
    ensures read { SomeWereRead (F.words.reads files.old) (F.words.reads files.new) }
    ensures made { MatchResult result
        (λ made. IsMadeOf F.words files.old files.new plan.now (arc_value made.0, made.1))
        (λ refusal. IsEarly refusal × IsRefusalOf F.words files.old files.new plan.now refusal) }
{
    let (image, report) = match load(alloc, files, plan) {
        Ok(made) => made,
        Err(fault) => return Err(LoadRefusal::Load(fault)),
    };
    match Arc::new(alloc, image) {
        Ok(shared) => Ok((shared, report)),
        Err(_) => Err(LoadRefusal::Publish(PublishFault::OutOfMemory)),
    }
}

// Publishes the image, and then frees the shelves that no worker needs.
fn publish_image<N, T: Versions<Notice = N> + Loads>(
    shelves: &T,
    loader: &mut T::Loader,
    image: Arc<Verified, Global>,
) -> Result<(u64, Option<N>), PublishFault>
    requires { T.Loads.words.fits shelves.now loader.old }
    ensures seat { LoaderFitsAndLearns T.Loads.words shelves.now loader.old loader.new }
    ensures published { MatchResult result
        (λ loaded. PublishesAndCollects (T.Loads.words.answers loader.old) (arc_value image) loaded.0
        (T.Loads.words.answers loader.new))
        (λ fault. ShowsRefusal (T.Loads.words.answers loader.old) fault (T.Loads.words.answers loader.new)) }
    ensures notice { IfOk result (λ loaded. MatchOption loaded.1 ⊥
        (λ notice. T.Versions.words.version notice ≡ loaded.0)) }
{
    match shelves.publish(loader, image) {
        Ok(loaded) => {
            shelves.collect(loader);
            Ok(loaded)
        }
        Err((_, fault)) => Err(fault),
    }
}
