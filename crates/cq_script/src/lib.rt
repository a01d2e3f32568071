//! The reader of scripts: what clients ask, and the steps in which it is served.
#![tactic(auto)]

mod lines;
mod numbers;
mod reader;
mod reading;
mod script;
mod stream;
mod texts;

pub use reader::read_script;
pub use script::{Halt, Script, ScriptError, StepWord, Steps, Streams, Why};
