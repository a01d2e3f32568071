//! The slow queues: a history as a value, in which each event is judged by its row, and what waits, by the definitions.
#![tactic(auto)]

ghost use Rattle.cq_plain.specs.Table.{IsExact};

mod copy;
mod counts;
mod deliveries;
mod opened;
mod plain;
mod queue;
mod table;

pub use plain::Plain;

/// The computed table allows an event exactly where the definition of legal histories does. There is nothing to run.
pub fn laws()
    ensures { IsExact }
{}
