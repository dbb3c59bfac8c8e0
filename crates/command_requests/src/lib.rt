//! What a command line asks for: each command with its arguments, whose numbers lie within their limits; the exit
//! statuses; and what a server reports of its sessions at its end.
#![tactic(auto)]

mod ends;
pub mod laws;
mod plans;
mod requests;
pub mod statuses;

pub use ends::SessionCounts;
pub use plans::{
    FirstDay, MOST_AHEAD, MOST_DAYS, MOST_ROWS, MOST_TABLE_WORKERS, MOST_WORKERS, PLAIN_ROWS,
    PictureRows, PlanText, Seconds, TableWorkers, UtcOffset, Workers, ZoneText, days_of,
};
pub use requests::{
    AnswerForm, BuildRequest, CommandRequest, DaysRequest, DeparturesForm, DeparturesRequest,
    ImageRequest, InfoRequest, JourneyRequest, MatrixRequest, NamedFolder, ProfileRequest,
    Question, ServeRequest, StationsRequest, StopsRequest, TablesRequest, UpgradeRequest,
};
