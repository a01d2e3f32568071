//! Scripts and texts: rows of what is read and refused, and of what is written.
#![tactic(auto)]

#[cfg(test)]
mod grammar;
#[cfg(test)]
mod scripts;
#[cfg(test)]
mod texts;
