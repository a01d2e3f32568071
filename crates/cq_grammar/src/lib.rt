//! The reader of scripts: what clients ask, the numbers of the node, and the steps in which all is served.
#![tactic(auto)]

mod error;
mod lines;
mod numbers;
mod reader;
mod reading;
mod requests;
mod schedule;
mod script;
mod settings;
mod steps;
mod streams;

pub use reader::read_script;
pub use script::{Halt, Script, ScriptError, StepWord, Steps, Streams, Why};
