ghost use Rattle.std.specs.Prelude.{◌<◌, ◌≤◌};
ghost use Rattle.book.specs.Limits.{key_limit, depth_limit};

mod checked;

// The most keys of a book.
pub const MAX_KEYS: usize = 256;

// The most versions that a book keeps of one key.
pub const MAX_DEPTH: usize = 64;

// The number of keys of a book, and its depth: how many versions it keeps of one key.
#[derive(Clone, Copy)]
pub struct Shape {
    pub keys: usize,
    pub depth: usize,
    ghost some_keys: { 0 < keys },
    ghost few_keys: { keys ≤ key_limit },
    ghost some_depth: { 0 < depth },
    ghost small_depth: { depth ≤ depth_limit },
}
