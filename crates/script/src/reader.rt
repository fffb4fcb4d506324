// A script that is read from the left, line by line.
ghost use Rattle.std.specs.Iterator.{item_count};
ghost use Rattle.script.specs.Readers.{Opens, TakesLine, ahead};

use faults::{Cause, Fault};

// The most bytes of a script.
pub const TEXT_LIMIT: usize = 16_384;

// A text, and the place from which it is still to be read: past its end no line is left.
// A lent text with a place, as of a line in `Fields`: a rule of the project. The two end differently: an empty last line does not count.
#[derive(Drop)]
pub struct Reader<'a> {
    text: &'a [u8],
    at: usize,
}

impl<'a> Reader<'a> {
    // A reader at the start of a text that is not too long.
    pub fn new(text: &'a [u8]) -> Result<Reader<'a>, Fault>
        ensures { Opens text.now result }
    {
        if text.len() > TEXT_LIMIT {
            return Err(Cause::Size.into());
        }
        Ok(Reader { text, at: 0 })
    }
}

// The lines, each without the byte that ends it.
impl<'a> Iterator for Reader<'a> {
    type Item = &'a [u8];

    ghost next_gives = { TakesLine };

    ghost remaining = { item_count ahead };

    fn next(&mut self) -> Option<&'a [u8]> {
        let rest = self.text.get(self.at..)?;
        if rest.is_empty() {
            return None;
        }
        let line = rest.split(|b| matches!(b, b'\n')).next()?;
        self.at += line.len() + 1;
        Some(line)
    }
}
