// The words of a script: numbers, names of fields, calls and books.
#![tactic(auto)]

ghost use Rattle.std.specs.Prelude.{◌≡◌, ℕ, ◌^◌, ◌<◌, ◌≤◌, List, ◌++◌, decimal, Decides, MatchOption, Some, ◌≢◌};
ghost use Rattle.std.specs.Str.Parse.{AllDigits, digits_value};
ghost use Rattle.std.specs.Char.{digit_value};
ghost use Rattle.words.specs.Words.{NamesBook, NamesVerb, NoNumber, book_word, named};

use std::fmt;

// The name of a field.
#[derive(Clone, Copy)]
pub enum Name {
    Towers,
    Homes,
    Depth,
    Book,
    Tower,
    Tx,
    Key,
    Value,
    Msg,
}

// How a book keeps its versions.
#[derive(Clone, Copy)]
pub enum BookKind {
    Journal,
    Rows,
}

// What a line asks for.
#[derive(Clone, Copy)]
pub enum Verb {
    Open,
    Begin,
    Read,
    Draft,
    Close,
    Drop,
    Deliver,
}

// The digit that a byte writes. Here and below, characters are read as literals in cases: a rule of the project.
fn digit(b: u8) -> Option<u8>
    ensures { MatchOption result (10 ≤ digit_value b) (λ d. (d < 10) × (digit_value b ≡ d)) }
{
    match b {
        b'0'..=b'9' => Some(b - b'0'),
        _ => None,
    }
}

// The number that a row of decimal digits writes, leading zeros or not. (The library's `parse` reads text, and takes a sign.)
fn value_of(ds: &[u8]) -> Option<u32>
    ensures { MatchOption result (AllDigits 10 ds.now → digits_value 10 ds.now < 2 ^ 32 → ⊥) (λ n. AllDigits 10 ds.now × (n ≡ digits_value 10 ds.now)) }
{
    let mut n: u32 = 0;
    for c in ds {
        n = n.checked_mul(10)?.checked_add(u32::from(digit(*c)?))?;
    }
    Some(n)
}

// The number that the bytes write: digits, at least one, and no zero in front of others.
pub fn number(bs: &[u8]) -> Option<u32>
    ensures { MatchOption result (NoNumber bs.now) (λ n. bs.now ≡ decimal n) }
{
    match bs {
        [] => None,
        [b'0', _, ..] => None,
        _ => value_of(bs),
    }
}

// A word that names nothing of the kind that was asked for.
#[derive(Clone, Copy)]
pub struct UnknownWord;

// The call that a word names.
impl TryFrom<&[u8]> for Verb {
    type Error = UnknownWord;

    ghost try_from_gives = { λ word. NamesVerb word.now };

    fn try_from(word: &[u8]) -> Result<Verb, UnknownWord> {
        match word {
            [b'o', b'p', b'e', b'n'] => Ok(Verb::Open),
            [b'b', b'e', b'g', b'i', b'n'] => Ok(Verb::Begin),
            [b'r', b'e', b'a', b'd'] => Ok(Verb::Read),
            [b'd', b'r', b'a', b'f', b't'] => Ok(Verb::Draft),
            [b'c', b'l', b'o', b's', b'e'] => Ok(Verb::Close),
            [b'd', b'r', b'o', b'p'] => Ok(Verb::Drop),
            [b'd', b'e', b'l', b'i', b'v', b'e', b'r'] => Ok(Verb::Deliver),
            _ => Err(UnknownWord),
        }
    }
}

// The kind of book that a word names.
impl TryFrom<&[u8]> for BookKind {
    type Error = UnknownWord;

    ghost try_from_gives = { λ word. NamesBook word.now };

    fn try_from(word: &[u8]) -> Result<BookKind, UnknownWord> {
        match word {
            [b'j', b'o', b'u', b'r', b'n', b'a', b'l'] => Ok(BookKind::Journal),
            [b'r', b'o', b'w', b's'] => Ok(BookKind::Rows),
            _ => Err(UnknownWord),
        }
    }
}

// The word of a kind of book.
impl fmt::Display for BookKind {
    ghost output = { λ b. Some (book_word b) };

    fn fmt<W: fmt::Write>(&self, f: &mut fmt::Formatter<W>) -> fmt::Result {
        f.write_str(match self {
            BookKind::Journal => "journal",
            BookKind::Rows => "rows",
        })
    }
}

// Whether each byte is a decimal digit; so it is where there is none.
pub fn all_digits(row: &[u8]) -> bool
    ensures { Decides result (AllDigits 10 row.now) }
{
    row.iter().all(|b| digit(*b).is_some())
}

// What stands in a field after the name and its equals sign.
pub fn value_after<'a>(field: &'a [u8], name: Name) -> Option<&'a [u8]>
    ensures { MatchOption result ((v : List ℕ) → field.now ≢ named name ++ v) (λ v. field.now ≡ named name ++ v.now) }
{
    match (name, field) {
        (Name::Towers, [b't', b'o', b'w', b'e', b'r', b's', b'=', value @ ..])
        | (Name::Homes, [b'h', b'o', b'm', b'e', b's', b'=', value @ ..])
        | (Name::Depth, [b'd', b'e', b'p', b't', b'h', b'=', value @ ..])
        | (Name::Book, [b'b', b'o', b'o', b'k', b'=', value @ ..])
        | (Name::Tower, [b't', b'o', b'w', b'e', b'r', b'=', value @ ..])
        | (Name::Tx, [b't', b'x', b'=', value @ ..])
        | (Name::Key, [b'k', b'e', b'y', b'=', value @ ..])
        | (Name::Value, [b'v', b'a', b'l', b'u', b'e', b'=', value @ ..])
        | (Name::Msg, [b'm', b's', b'g', b'=', value @ ..]) => Some(value),
        _ => None,
    }
}
