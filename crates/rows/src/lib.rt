// A book in which every key has places of its own.
#![tactic(auto)]

mod rows;

pub use rows::Rows;
