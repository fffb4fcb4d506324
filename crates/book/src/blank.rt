ghost use Rattle.std.specs.Prelude.{◌≡◌, MatchBool};
ghost use Rattle.book.specs.Books.{Blank, blank_kept};

use crate::traits::BookView;

// Whether the book has no version under any key.
pub fn is_blank<B: BookView>(book: &B) -> bool
    ensures rule { MatchBool result (Blank (B.BookView.kept book.now)) (Blank (B.BookView.kept book.now) → ⊥) }
    ensures value { result ≡ blank_kept (B.BookView.kept book.now) }
{
    (0..book.keys()).all(|key| book.list_len(key) == 0)
}
