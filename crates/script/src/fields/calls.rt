// The call in front of a line, and the fields that it takes.
ghost use Rattle.std.specs.Option.{MatchOption};
ghost use Rattle.script.specs.Grammar.{Uncalled, called};
ghost use Rattle.script.specs.Readers.{Reads, Took, rest};

use super::Fields;
use crate::Command;
use faults::Fault;
use words::{Name, Verb};

impl<'a> Fields<'a> {
    // The call that the next field names.
    pub(crate) fn verb(&mut self) -> Option<Verb>
        ensures { MatchOption result (Uncalled (rest self.old)) (λ k. Took self.old self.new (called k)) }
    {
        let field = self.field()?;
        let [b'd', b'o', b'=', word @ ..] = field.bytes else {
            return None;
        };
        Verb::try_from(word).ok()
    }

    fn opening(&mut self) -> Result<Command<'a>, Fault>
        ensures { Reads self.old Verb.Open result }
    {
        let towers = self.number(Name::Towers)?;
        let homes = self.homes()?;
        let depth = self.number(Name::Depth)?;
        let book = self.book()?;
        self.end()?;
        Ok(Command::Open {
            towers,
            homes,
            depth,
            book,
        })
    }

    fn reading(&mut self) -> Result<Command<'a>, Fault>
        ensures { Reads self.old Verb.Read result }
    {
        let tx = self.number(Name::Tx)?;
        let key = self.last_number(Name::Key)?;
        Ok(Command::Read { tx, key })
    }

    fn drafting(&mut self) -> Result<Command<'a>, Fault>
        ensures { Reads self.old Verb.Draft result }
    {
        let tx = self.number(Name::Tx)?;
        let key = self.number(Name::Key)?;
        let value = self.last_number(Name::Value)?;
        Ok(Command::Draft { tx, key, value })
    }

    // The command of a call, from the fields that are left.
    pub(crate) fn command(&mut self, verb: Verb) -> Result<Command<'a>, Fault>
        ensures { Reads self.old verb result }
    {
        match verb {
            Verb::Open => self.opening(),
            Verb::Begin => Ok(Command::Begin {
                tower: self.last_number(Name::Tower)?,
            }),
            Verb::Read => self.reading(),
            Verb::Draft => self.drafting(),
            Verb::Close => Ok(Command::Close {
                tx: self.last_number(Name::Tx)?,
            }),
            Verb::Drop => Ok(Command::Drop {
                tx: self.last_number(Name::Tx)?,
            }),
            Verb::Deliver => Ok(Command::Deliver {
                position: self.last_number(Name::Msg)?,
            }),
        }
    }
}
