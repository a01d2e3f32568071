//! Queues in memory and on disks, and histories, call by call.
#![tactic(auto)]

#[cfg(test)]
mod cores;
#[cfg(test)]
mod histories;
#[cfg(test)]
mod queues;
#[cfg(test)]
mod stops;
