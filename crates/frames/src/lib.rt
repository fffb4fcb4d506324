// The one frame of bytes that a message has on the radio: written, and read back.
#![tactic(auto)]

use clocks::TOWERS;
use messages::LINES;

mod bytes;
mod hold;
mod reader;
mod writer;

pub use hold::Frame;
pub use reader::read;
pub use writer::write;

// The sizes of a frame's parts, in bytes: what stands before the clock, an entry of the clock, a line.
const HEAD: usize = 12;

const ENTRY: usize = 4;

const LINE: usize = 12;

// A frame without lines, and the longest one.
const FIXED: usize = HEAD + ENTRY * TOWERS;

const MOST: usize = FIXED + LINE * LINES;
