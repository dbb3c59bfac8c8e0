//! What a command line asks for.

use crate::plans::{PictureRows, PlanText, Seconds, TableWorkers, Workers};
use criteria::CriterionName;

/// A command with its arguments.
#[derive(Drop)]
pub enum CommandRequest<'a> {
    /// A command over an image.
    OverImage(ImageRequest<'a>),
    /// To write a table of travel times over an image.
    Matrix(MatrixRequest<'a>),
    /// To read the tables of a feed's folder.
    Tables(TablesRequest<'a>),
    /// To print which service days the feed of a folder has.
    Days(DaysRequest<'a>),
    /// To list the stations of a feed's folder, with their stops.
    Stations(StationsRequest<'a>),
    /// To make the image of a feed's folder.
    Build(BuildRequest<'a>),
    /// To serve sessions.
    Serve(ServeRequest<'a>),
}

/// A command over the image at a path, where `-` is the standard input.
#[derive(Drop)]
pub enum ImageRequest<'a> {
    /// To verify it.
    Verify(&'a str),
    /// To print what it has.
    Info(InfoRequest<'a>),
    /// To check a journey against it.
    Journey(JourneyRequest<'a>),
    /// To answer a question over it.
    Profile(ProfileRequest<'a>),
    /// To answer the queries from every stop to one, or to any of several, over it.
    Departures(DeparturesRequest<'a>),
    /// To list those of its stops whose names contain a text.
    Stops(StopsRequest<'a>),
    /// To write it anew, in the current layout.
    Upgrade(UpgradeRequest<'a>),
}

impl<'a> ImageRequest<'a> {
    ghost use Rattle.std.specs.Prelude.{◌≡◌};
    ghost use Rattle.command_requests.specs.Paths.{path_of};

    /// The path of the image.
    pub fn path(&self) -> &'a str
        ensures { result.now ≡ path_of self.now }
    {
        match self {
            ImageRequest::Verify(image) => *image,
            ImageRequest::Info(request) => request.image,
            ImageRequest::Journey(request) => request.image,
            ImageRequest::Profile(request) => request.image,
            ImageRequest::Departures(request) => request.image,
            ImageRequest::Stops(request) => request.image,
            ImageRequest::Upgrade(request) => request.image,
        }
    }
}

/// The file of an image, or `-` for the standard input, and whether what it has is printed as JSON.
#[derive(Clone, Copy, Drop)]
pub struct InfoRequest<'a> {
    pub image: &'a str,
    pub json: bool,
}

/// Where from and where to, by the names of stops, and when: seconds after the image's base.
#[derive(Clone, Copy, Drop)]
pub struct Question<'a> {
    pub from: &'a str,
    pub to: &'a str,
    /// The earliest departure.
    pub after: u32,
    /// The latest departure.
    pub until: u32,
    /// The latest arrival.
    pub by: u32,
}

/// A journey's text, the image that it is of, and the query that it is to answer.
#[derive(Clone, Copy, Drop)]
pub struct JourneyRequest<'a> {
    pub image: &'a str,
    pub text: &'a str,
    pub question: Question<'a>,
}

/// What is printed of the best departures from a stop.
#[derive(Clone, Copy, Drop)]
pub enum DeparturesForm {
    /// A line for each, with its journey.
    Journeys,
    /// A line for each, without one.
    Points,
    /// A line for all of them, with their number, the first, the last, the least seconds of travel, and the
    /// seconds of the direct footpath.
    Summary,
    /// A line of JSON for all of them, with their journeys and the seconds of the direct footpath.
    Json,
    /// The same line of JSON without journeys.
    JsonPoints,
    /// The summary as a line of JSON.
    JsonSummary,
}

/// The image; the stops to go to, to any of which journeys may lead, by their names; when, in seconds after the image's
/// base; the criterion; and what is printed, for every stop or for those that a file names.
#[derive(Drop)]
pub struct DeparturesRequest<'a> {
    pub image: &'a str,
    pub to: Vec<&'a str>,
    /// The earliest departure.
    pub after: u32,
    /// The latest departure.
    pub until: u32,
    /// The latest arrival.
    pub by: u32,
    pub criterion: CriterionName,
    pub form: DeparturesForm,
    /// A file with one stop_id on each line.
    pub from: Option<&'a str>,
}

/// The image; the file with the stops to go to, and that with the stops to leave from, if not all are meant; when, in
/// seconds after the image's base; the criterion; where the table goes, what has a row, and how many threads work.
#[derive(Clone, Copy, Drop)]
pub struct MatrixRequest<'a> {
    pub image: &'a str,
    /// The file for the table; `-` is standard output.
    pub out: &'a str,
    /// A file with a stop_id on each line, or several with tabs between them.
    pub to: &'a str,
    /// Another one.
    pub from: Option<&'a str>,
    /// The earliest departure.
    pub after: u32,
    /// The latest departure.
    pub until: u32,
    /// The latest arrival.
    pub by: u32,
    pub criterion: CriterionName,
    /// Whether each departure has a row; otherwise each pair of stops has one.
    pub each: bool,
    /// How many threads work. `None`: one for each processor.
    pub workers: Option<TableWorkers>,
    /// Whether progress is shown.
    pub progress: bool,
}

/// How an answer is printed.
#[derive(Clone, Copy, Drop)]
pub enum AnswerForm {
    /// Lines, with journeys in numbers, as `csa journey` reads them.
    Numbers,
    /// Lines, with journeys in names.
    Names,
    /// The reply of a session.
    Json,
    /// The reply of a session, each point with its legs.
    JsonLegs,
}

/// The image; the names of the stops to leave from, and of those to go to, at least one of each; when, in seconds after
/// the image's base; the criterion; how the answer is printed; and where it is drawn.
#[derive(Drop)]
pub struct ProfileRequest<'a> {
    pub image: &'a str,
    pub from: Vec<&'a str>,
    pub to: Vec<&'a str>,
    /// The earliest departure.
    pub after: u32,
    /// The latest departure.
    pub until: u32,
    /// The latest arrival.
    pub by: u32,
    pub criterion: CriterionName,
    pub form: AnswerForm,
    /// The file into which the answer is drawn.
    pub picture: Option<&'a str>,
    /// How many of its journeys are drawn at most.
    pub rows: PictureRows,
}

/// The image, the text that the names of the listed stops contain, and whether they are listed as JSON.
#[derive(Clone, Copy, Drop)]
pub struct StopsRequest<'a> {
    pub image: &'a str,
    pub text: &'a str,
    pub json: bool,
}

/// A feed's folder, the text that the ids or the names of the listed stations contain, and whether they are listed as
/// JSON.
#[derive(Clone, Copy, Drop)]
pub struct StationsRequest<'a> {
    pub folder: &'a str,
    pub text: &'a str,
    pub json: bool,
}

/// Which image is rewritten, and where to.
#[derive(Clone, Copy, Drop)]
pub struct UpgradeRequest<'a> {
    pub image: &'a str,
    pub out: &'a str,
}

/// A feed's folder, whether all its faults are reported, or the first alone, and whether its counts are printed as
/// JSON.
#[derive(Clone, Copy, Drop)]
pub struct TablesRequest<'a> {
    pub folder: &'a str,
    pub all_faults: bool,
    pub json: bool,
}

/// A feed's folder, and whether its service days are printed as JSON.
#[derive(Clone, Copy, Drop)]
pub struct DaysRequest<'a> {
    pub folder: &'a str,
    pub json: bool,
}

/// Where a feed is, where its image goes, and what is made of it.
#[derive(Drop)]
pub struct BuildRequest<'a> {
    pub folder: &'a str,
    pub out: &'a str,
    pub plan: PlanText<'a>,
    /// Whether progress is shown.
    pub progress: bool,
    /// Whether all faults of a feed that is refused are reported, or the first alone.
    pub all_faults: bool,
    /// Whether the counts are printed as JSON.
    pub json: bool,
}

/// A feed that may be loaded by its name.
#[derive(Clone, Copy, Drop)]
pub struct NamedFolder<'a> {
    pub name: &'a str,
    pub folder: &'a str,
}

/// What is served, at which port, and for how many sessions.
#[derive(Drop)]
pub struct ServeRequest<'a> {
    pub image: &'a str,
    pub port: u16,
    pub workers: Workers,
    /// How many sessions are served in all; 0 for no limit.
    pub sessions: u64,
    /// Whether replies to profiles have the legs of journeys.
    pub legs: bool,
    /// Whether each session and each load is logged.
    pub log: bool,
    /// For how long a client may send nothing, or take nothing, until its session ends. `None`: for any time.
    pub idle: Option<Seconds>,
    /// How long a window may be, from the earliest departure to the latest arrival. `None`: of any length.
    pub longest: Option<Seconds>,
    /// Whether a profile may name several stops on a side.
    pub sets: bool,
    pub plan: PlanText<'a>,
    pub feeds: Vec<NamedFolder<'a>>,
}
