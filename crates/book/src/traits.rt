ghost use Rattle.std.specs.Prelude.{◌≡◌, if◌then◌else◌, length, Ok, Err, nat_lt};
ghost use Rattle.std.specs.List.{slice_get};
ghost use Rattle.faults.specs.Table.{plain};
ghost use Rattle.faults.specs.declared.Cause.TheVariants.{BookKey};
ghost use Rattle.book.specs.Books.{Kept, Outside, Short, at_key, found, Shows, Added, refusal, unless};
ghost use Rattle.book.specs.Newest.{newest};

use clocks::{Clock, Version};
use faults::{Cause, Fault};

// The questions to a book. None of them changes it.
pub trait BookView {
    // What the book holds: its two numbers, and the list of each key.
    ghost kept: { Self → Kept };

    // How many keys the book has. They are numbered from 0, and a number past them has no versions. (The law `outside` says so
    // too; a caller of a `dyn` book has no laws, and has it from here.)
    fn keys(&self) -> usize
        ensures value { result ≡ (kept self.now).keys }
        ensures outside { Outside (kept self.now) };

    // How many versions a key can have. None has more. (The law `short` says so too.)
    fn depth(&self) -> usize
        ensures value { result ≡ (kept self.now).depth }
        ensures short { Short (kept self.now) };

    // How many versions the list of the key has. The list of a key that is not there is empty.
    fn list_len(&self, key: usize) -> usize
        ensures { result ≡ length ((kept self.now).lists key) };

    // The version at the index of the key's list, if there is one.
    fn list_get(&self, key: usize, index: usize) -> Option<Version>
        ensures { result ≡ slice_get ((kept self.now).lists key) index };

    // The last version of the key's list that is within the bound, if there is one.
    fn list_newest(&self, key: usize, bound: &Clock) -> Option<Version>
        ensures { result ≡ newest bound.now ((kept self.now).lists key) };

    // How many versions the key has.
    fn count(&self, key: usize) -> Result<usize, Fault>
        ensures { result ≡ at_key (kept self.now) key (Ok (length ((kept self.now).lists key))) }
    {
        known(key, self.keys())?;
        Ok(self.list_len(key))
    }

    // The key's version at the index, the oldest at 0.
    fn look(&self, key: usize, index: usize) -> Result<Version, Fault>
        ensures { result ≡ at_key (kept self.now) key (found (slice_get ((kept self.now).lists key) index)) }
    {
        known(key, self.keys())?;
        self.list_get(key, index).ok_or(Cause::Index.into())
    }

    // What the key shows at the bound: the last version of its list that is within it, or none, which is called blank.
    fn newest_within(&self, key: usize, bound: &Clock) -> Result<Option<Version>, Fault>
        ensures value { result ≡ at_key (kept self.now) key (Ok (newest bound.now ((kept self.now).lists key))) }
        ensures last { Shows bound.now ((kept self.now).lists key) result }
    {
        known(key, self.keys())?;
        Ok(self.list_newest(key, bound))
    }

    // A number past the keys has no versions.
    ghost outside: { (book : Self) → Outside (kept book) };

    // No key has more versions than the depth.
    ghost short: { (book : Self) → Short (kept book) };
}

// A book that versions can be added to.
pub trait Book: BookView {
    // Puts the version at the end of the key's list. Any version is taken.
    fn add(&mut self, key: usize, version: Version) -> Result<(), Fault>
        ensures { Added (Self.BookView.kept self.old) key version result (Self.BookView.kept self.new) };

    // Refuses a key that is not there, and one whose list is as long as it can be.
    fn room_for(&self, key: usize) -> Result<(), Fault>
        ensures { result ≡ unless (refusal (Self.BookView.kept self.now) key) }
    {
        if self.count(key)? < self.depth() {
            Ok(())
        } else {
            Err(Cause::Depth.into())
        }
    }
}

// Refuses a key from the number of keys on.
fn known(key: usize, keys: usize) -> Result<(), Fault>
    ensures { result ≡ (if nat_lt key keys then Ok tt else Err (plain BookKey)) }
{
    if key < keys {
        Ok(())
    } else {
        Err(Cause::BookKey.into())
    }
}
