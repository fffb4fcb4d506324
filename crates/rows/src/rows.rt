ghost use Rattle.std.specs.Prelude.{◌*◌, ◌≤◌, length};
ghost use Rattle.book.specs.Limits.{key_limit, depth_limit};

use clocks::Version;

pub mod impls;

// A row of `depth` places for each key, the row of a key at key × depth, and beside the rows a count for each key of how
// many of its places are taken. A count past the depth counts as the depth, so that any memory has a meaning.
// Two slices that are the caller's memory, and no `Vec` of rows: a rule of the project needs it, that memory is lent.
#[derive(Drop)]
pub struct Rows<'a> {
    counts: &'a mut [u8],
    versions: &'a mut [Version],
    keys: usize,
    depth: usize,
    ghost counted: { keys ≤ length counts.now },
    ghost space: { keys * depth ≤ length versions.now },
    ghost few: { keys ≤ key_limit },
    ghost small: { depth ≤ depth_limit },
}
