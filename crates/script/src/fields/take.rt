// Taking fields: each has to have its name, and what is wrong with it is a fault at its start.
ghost use Rattle.std.specs.Prelude.{◌≡◌, ◌+◌, ◌≤◌, [], ◌∷◌, ◌++◌, length, decimal, MatchOption, MatchResult};
ghost use Rattle.std.specs.Str.Parse.{AllDigits};
ghost use Rattle.words.specs.Words.{book_word, named};
ghost use Rattle.script.specs.Grammar.{fault};
ghost use Rattle.script.specs.Grammar.Slot.{a_number, some_homes, a_book};
ghost use Rattle.script.specs.Readers.{Bad, BadAt, BadName, Ended, Filled, Starts, Took, rest};
ghost use Rattle.script.specs.Limits.{text_limit};

use super::Fields;
use faults::{Cause, Fault};
use words::{BookKind, Name, all_digits, number, value_after};

// A part of a line: the place where its field starts, and its bytes.
#[derive(Clone, Copy)]
pub(crate) struct Part<'a> {
    start: u32,
    pub(crate) bytes: &'a [u8],
}

impl<'a> Part<'a> {
    fn fault(self, cause: Cause) -> Fault
        ensures { result ≡ fault cause self.entry.start }
    {
        Fault {
            cause,
            at: self.start,
        }
    }
}

// A rule of the project: a field is taken by `let else`, whose other branch makes the fault with its place. So there is a method
// for each thing that a field can hold, and none that takes the reading of it as a closure.
impl<'a> Fields<'a> {
    // The fields of a line that is not too long.
    pub(crate) fn new(line: &'a [u8]) -> Fields<'a>
        requires { length line.now ≤ text_limit }
        ensures { Starts line.now result }
    {
        Fields { line, at: 0 }
    }

    // The next field. The blank that ends it is read as a literal in a case, as every character: a rule of the project.
    pub(crate) fn field(&mut self) -> Option<Part<'a>>
        ensures { MatchOption result (Ended self.old self.new) (λ x. (x.start ≡ self.old.at) × Took self.old self.new x.bytes.now) }
    {
        let start = self.at;
        let bytes = self.line.get(start..)?.split(|b| matches!(b, b' ')).next()?;
        self.at += bytes.len() + 1;
        Some(Part {
            start: start as u32,
            bytes,
        })
    }

    // The fault of a line that ends before a field of it.
    fn missing(&self) -> Fault
        ensures { result ≡ fault Cause.ScriptField (length self.now.line.now) }
    {
        Fault {
            cause: Cause::ScriptField,
            at: self.line.len() as u32,
        }
    }

    // The value of the next field, which has to have the name.
    fn value(&mut self, name: Name) -> Result<Part<'a>, Fault>
        ensures { MatchResult result (λ x. (x.start ≡ self.old.at) × Took self.old self.new (named name ++ x.bytes.now)) (λ f. BadName self.old name f) }
    {
        let Some(field) = self.field() else {
            return Err(self.missing());
        };
        let Some(bytes) = value_after(field.bytes, name) else {
            return Err(field.fault(Cause::ScriptField));
        };
        Ok(Part {
            start: field.start,
            bytes,
        })
    }

    pub(crate) fn number(&mut self, name: Name) -> Result<u32, Fault>
        ensures { MatchResult result (λ n. Took self.old self.new (named name ++ decimal n)) (λ f. BadAt self.old (a_number name) f) }
    {
        let value = self.value(name)?;
        let Some(n) = number(value.bytes) else {
            return Err(value.fault(Cause::Number));
        };
        Ok(n)
    }

    // The homes: digits, or none.
    pub(crate) fn homes(&mut self) -> Result<&'a [u8], Fault>
        ensures { MatchResult result (λ v. AllDigits 10 v.now × Took self.old self.new (named Name.Homes ++ v.now)) (λ f. BadAt self.old some_homes f) }
    {
        let value = self.value(Name::Homes)?;
        if !all_digits(value.bytes) {
            return Err(value.fault(Cause::Number));
        }
        Ok(value.bytes)
    }

    pub(crate) fn book(&mut self) -> Result<BookKind, Fault>
        ensures { MatchResult result (λ b. Took self.old self.new (named Name.Book ++ book_word b)) (λ f. BadAt self.old a_book f) }
    {
        let value = self.value(Name::Book)?;
        let Ok(book) = BookKind::try_from(value.bytes) else {
            return Err(value.fault(Cause::Call));
        };
        Ok(book)
    }

    // No field is left.
    pub(crate) fn end(&mut self) -> Result<(), Fault>
        ensures { MatchResult result (λ _. rest self.old ≡ []) (λ f. Bad self.old [] f) }
    {
        match self.field() {
            None => Ok(()),
            Some(extra) => Err(extra.fault(Cause::ScriptField)),
        }
    }

    // A number in the last field.
    pub(crate) fn last_number(&mut self, name: Name) -> Result<u32, Fault>
        ensures { MatchResult result (λ n. Filled self.old (a_number name ∷ []) (decimal n ∷ [])) (λ f. Bad self.old (a_number name ∷ []) f) }
    {
        let n = self.number(name)?;
        self.end()?;
        Ok(n)
    }
}
