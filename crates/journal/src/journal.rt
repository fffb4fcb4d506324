ghost use Rattle.std.specs.Prelude.{◌≡◌, ℕ, ◌*◌, ◌≤◌, length};
ghost use Rattle.tray.specs.Contents.{contents, room};
ghost use Rattle.journal.specs.Records.{list_of};

use crate::record::Record;
use tray::Tray;

pub mod impls;

// The records of all keys by arrival. They have a place each, since no key has more of them than the depth.
#[derive(Drop)]
pub struct Journal<'a> {
    records: Tray<'a, Record>,
    keys: usize,
    depth: usize,
    ghost space: { keys * depth ≤ room records },
    ghost known: { (k : ℕ) → keys ≤ k → length (list_of (contents records) k) ≡ 0 },
    ghost filled: { (k : ℕ) → length (list_of (contents records) k) ≤ depth },
}
