//! Sessions: requests are read line by line, answered at a worker's seat, and the replies are written.
#![tactic(auto)]

mod exchanges;
mod fault;
pub mod laws;
mod ordering;
mod pinning;
mod profiles;
mod reply;
mod reply_form;
mod reply_log;
mod serving;
mod session_server;

pub use answer_replies::PointForm;
pub use fault::{Ended, SessionFault};
pub use lines::Counted;
pub use orders::{Gate, OpenGate, OrderFault, Orders};
pub use reply_form::ReplyForm;
pub use serving::{MOST_REQUESTS, serve};
pub use session_server::{SessionServer, Streams};
