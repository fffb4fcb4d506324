// A book that keeps one run of records for all keys, in the order in which they came.
#![tactic(auto)]

mod journal;
mod record;
mod search;

pub use journal::Journal;
pub use record::Record;
