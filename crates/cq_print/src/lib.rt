//! The text of sessions, line by line.
#![tactic(auto)]

mod bodies;
mod body;
mod clients;
mod counts;
mod lines;
mod outcome;
mod session;

pub use body::body_text;
pub use lines::reply_line;
pub use outcome::Outcome;
pub use session::{PutError, put_session};
