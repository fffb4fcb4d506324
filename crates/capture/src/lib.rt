// What a capture of radio traffic says: a frame a line in hexadecimal, as a line of text.
#![tactic(auto)]

mod hex;
mod text;

pub use hex::interpret;
pub use text::describe;
