//! The disk in memory; gated files, indexes, small stores and shared files on it, and what each stop of their calls leaves.
#![tactic(auto)]

#[cfg(test)]
mod appends;
#[cfg(test)]
mod bulk;
#[cfg(test)]
mod memory;
#[cfg(test)]
mod segments;
#[cfg(test)]
mod shared;
#[cfg(test)]
mod stores;
