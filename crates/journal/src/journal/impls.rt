ghost use Rattle.std.specs.Prelude.{◌≡◌, ◌<◌, length, ◌==◌};
ghost use Rattle.book.specs.Books.{added, blank_over};
ghost use Rattle.book.specs.Shapes.{places};
ghost use Rattle.journal.specs.Journals.{journal_kept};

use super::Journal;
use crate::record::Record;
use crate::search::{count_of, look_up};
use book::{Book, BookView, Shape};
use clocks::{Clock, Version};
use faults::Fault;
use tray::Tray;

impl<'a> Journal<'a> {
    // A blank journal of the shape. Over memory of another size than the shape's it has no keys. (Rows ask more of the memory:
    // a function for both, given whether it fits, would be no plainer.)
    pub fn blank(shape: Shape, memory: &'a mut [Record]) -> Journal<'a>
        ensures { journal_kept result ≡ blank_over shape (length memory.old == places shape) }
    {
        let keys = if memory.len() == shape.places() {
            shape.keys
        } else {
            0
        };
        let depth = shape.depth;
        let records = Tray::new(memory);
        Journal {
            records,
            keys,
            depth,
        }
    }

    // Puts the version at the end of the key's list, which has room for it.
    fn push(&mut self, key: usize, version: Version)
        requires there { key < (journal_kept self.old).keys }
        requires short { length ((journal_kept self.old).lists key) < (journal_kept self.old).depth }
        ensures { journal_kept self.new ≡ added (journal_kept self.old) key version }
    {
        let _ = self.records.add(Record { key, version });
    }
}

impl<'a> BookView for Journal<'a> {
    ghost kept = { journal_kept };

    ghost outside = { λ j. j.known };

    ghost short = { λ j. j.filled };

    fn keys(&self) -> usize {
        self.keys
    }

    fn depth(&self) -> usize {
        self.depth
    }

    fn list_len(&self, key: usize) -> usize {
        count_of(self.records.as_slice(), key)
    }

    fn list_get(&self, key: usize, index: usize) -> Option<Version> {
        look_up(self.records.as_slice(), key, index)
    }

    fn list_newest(&self, key: usize, bound: &Clock) -> Option<Version> {
        let mut latest_first = self.records.as_slice().iter().rev();
        let found = latest_first.find(|r| r.key == key && r.version.within(bound));
        found.map(|r| r.version)
    }
}

// `add` is each make's own: `push` asks for room, which a method of the trait, being public, may not, and one that tested for
// room again would test twice.
impl<'a> Book for Journal<'a> {
    fn add(&mut self, key: usize, version: Version) -> Result<(), Fault> {
        self.room_for(key)?;
        self.push(key, version);
        Ok(())
    }
}
