// Books: for each key a list of versions, oldest first, never longer than the book's depth.
#![tactic(auto)]

mod blank;
mod newest;
mod shape;
mod traits;
mod views;

pub use blank::is_blank;
pub use newest::{newest_examples, newest_of};
pub use shape::{MAX_DEPTH, MAX_KEYS, Shape};
pub use traits::{Book, BookView};
