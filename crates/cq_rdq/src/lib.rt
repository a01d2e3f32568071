//! Shared files: the records of large messages, one after another in a gated file on a disk.
#![tactic(auto)]

ghost use Rattle.std.specs.Prelude.{◌≡◌, ℕ, List};
ghost use Rattle.cq_rdq.specs.Records.{HasRecords};

mod error;
mod list;
mod rdq;

pub use error::RdqError;
pub use rdq::Rdq;

/// A file has one list of records; there is nothing to run.
pub fn laws()
    ensures one { (file : List ℕ) (a b : List (List ℕ)) → HasRecords file a → HasRecords file b → a ≡ b }
{}

#[cfg(test)]
mod tests;
