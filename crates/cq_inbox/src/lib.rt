//! What clients ask, the limits of a node, and what hands requests to it.
#![tactic(auto)]

mod config;
mod flags;
mod inbox;
mod plain;
mod plain_flags;
mod request;
mod slots;
mod table_name;
mod words;

pub use config::Config;
pub use flags::Flags;
pub use inbox::Inbox;
pub use plain::PlainInbox;
pub use plain_flags::PlainFlags;
pub use request::Request;
pub use table_name::TableName;

#[cfg(test)]
mod tests;
