ghost use Rattle.std.specs.Prelude.{◌≡◌, length};
ghost use Rattle.std.specs.List.{slice_get};
ghost use Rattle.journal.specs.Records.{list_of};

use crate::record::Record;
use clocks::Version;

// How many versions of the key the records have. A loop, since the library's `filter(..).count()` takes twice the time of it, and a
// fold over the records up to twice.
pub fn count_of(records: &[Record], key: usize) -> usize
    ensures { result ≡ length (list_of records.now key) }
{
    let mut n = 0;
    for r in records {
        if r.key == key {
            n += 1;
        }
    }
    n
}

// The key's version at the index, the oldest at 0, if there is one. A loop, since the library's `filter(..).nth(index)` takes
// half as much time again.
pub fn look_up(records: &[Record], key: usize, index: usize) -> Option<Version>
    ensures { result ≡ slice_get (list_of records.now key) index }
{
    let mut n = 0;
    for r in records {
        if r.key == key {
            if n == index {
                return Some(r.version);
            }
            n += 1;
        }
    }
    None
}
