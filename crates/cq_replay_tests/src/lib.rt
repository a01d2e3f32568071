//! The program from its parts to the whole: ids and batches, folders that are opened, scripts with their texts and files.
#![tactic(auto)]

#[cfg(test)]
mod cores;
#[cfg(test)]
mod folders;
#[cfg(test)]
mod replays;
