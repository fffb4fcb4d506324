ghost use Rattle.std.specs.Prelude.{◌≡◌, ◌+◌, ◌*◌, ◌<◌, ◌≤◌, ◌&&◌, length, ◌==◌};
ghost use Rattle.book.specs.Books.{added, blank, blank_over};
ghost use Rattle.book.specs.Limits.{key_limit, depth_limit};
ghost use Rattle.book.specs.Shapes.{places};
ghost use Rattle.rows.specs.Lengths.{row_short};
ghost use Rattle.rows.specs.Rowed.{rows_kept, RowsShaped};
ghost use Rattle.std.proofs.Common.{rules};

use super::Rows;
use book::{Book, BookView, Shape, newest_of};
use clocks::{Clock, Version};
use faults::{Cause, Fault};

impl<'a> Rows<'a> {
    // The shape of rows over these counts and versions: refused as any shape is, and unless there is a count for each key.
    pub fn shape(
        keys: usize,
        depth: usize,
        counts: &[u8],
        versions: &[Version],
    ) -> Result<Shape, Fault>
        ensures { RowsShaped keys depth (length counts.now) (length versions.now) result }
    {
        if counts.len() != keys {
            return Err(Cause::Shape.into());
        }
        Shape::new(keys, depth, versions.len())
    }

    // Blank rows of the shape. Over memory of another size than the shape's they have no keys.
    pub fn blank(shape: Shape, counts: &'a mut [u8], versions: &'a mut [Version]) -> Rows<'a>
        ensures { rows_kept result ≡ blank_over shape (length counts.old == shape.keys && length versions.old == places shape) }
    {
        let keys = if counts.len() == shape.keys && versions.len() == shape.places() {
            shape.keys
        } else {
            0
        };
        Rows::cleared(keys, shape.depth, counts, versions)
    }

    // Rows of which no place is taken.
    fn cleared(
        keys: usize,
        depth: usize,
        counts: &'a mut [u8],
        versions: &'a mut [Version],
    ) -> Rows<'a>
        requires counted { keys ≤ length counts.old }
        requires space { keys * depth ≤ length versions.old }
        requires few { keys ≤ key_limit }
        requires small { depth ≤ depth_limit }
        ensures { rows_kept result ≡ blank keys depth }
    {
        counts.fill(0);
        Rows {
            counts,
            versions,
            keys,
            depth,
        }
    }

    // Where the key's places begin.
    fn start(&self, key: usize) -> usize
        requires { key < self.now.keys }
        ensures value { result ≡ key * self.now.depth }
        ensures end { result + self.now.depth ≤ length self.now.versions.now }
    {
        key * self.depth
    }

    // The versions of the key, oldest first, and none where the key is not there.
    fn row(&self, key: usize) -> &[Version]
        ensures { result.now ≡ (rows_kept self.now).lists key }
    {
        if key >= self.keys {
            return &[];
        }
        let start = self.start(key);
        let taken = (self.counts[key] as usize).min(self.depth);
        let versions = &*self.versions;
        &versions[start..start + taken]
    }

    // Puts the version at the end of the key's list, which has room for it.
    fn push(&mut self, key: usize, version: Version)
        requires there { key < self.old.keys }
        requires short { length ((rows_kept self.old).lists key) < self.old.depth }
        ensures { rows_kept self.new ≡ added (rows_kept self.old) key version }
    {
        let taken = self.row(key).len();
        let place = self.start(key) + taken;
        self.versions[place] = version;
        self.counts[key] = taken as u8 + 1;
    }
}

impl<'a> BookView for Rows<'a> {
    ghost kept = { rows_kept };

    ghost outside = { Prim.search rules };

    ghost short = { λ r. row_short r.counts.now r.versions.now r.keys r.depth };

    fn keys(&self) -> usize {
        self.keys
    }

    fn depth(&self) -> usize {
        self.depth
    }

    fn list_len(&self, key: usize) -> usize {
        self.row(key).len()
    }

    fn list_get(&self, key: usize, index: usize) -> Option<Version> {
        self.row(key).get(index).copied()
    }

    fn list_newest(&self, key: usize, bound: &Clock) -> Option<Version> {
        newest_of(self.row(key), bound)
    }
}

// `add` is each make's own: `push` asks for room, which a method of the trait, being public, may not, and one that tested for
// room again would test twice.
impl<'a> Book for Rows<'a> {
    fn add(&mut self, key: usize, version: Version) -> Result<(), Fault> {
        self.room_for(key)?;
        self.push(key, version);
        Ok(())
    }
}
