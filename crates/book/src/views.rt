// What a caller of a book behind `dyn` knows. It has no laws of the trait, so that `keys` and `depth` promise what it needs.
// Nothing calls these: that they are proved is what they are for.
ghost use Rattle.std.specs.Prelude.{◌≡◌, true};

use crate::traits::BookView;

// A number past the keys has no versions.
fn none_past(book: &dyn BookView, key: usize) -> bool
    ensures { result ≡ true }
{
    key < book.keys() || book.list_len(key) == 0
}

// No key has more versions than the depth.
fn never_over(book: &dyn BookView, key: usize) -> bool
    ensures { result ≡ true }
{
    book.list_len(key) <= book.depth()
}
