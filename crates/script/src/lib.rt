// Scripts: a text is lines, and a line is a command or has a fault.
#![tactic(auto)]

ghost use Rattle.script.specs.Lines.{Means, Only, ReadBack, Spelled, meant};

use faults::{Cause, Fault};
use fields::Fields;
use words::BookKind;

mod fields;
mod reader;

pub use reader::{Reader, TEXT_LIMIT};

// What a line asks for, with its numbers; the homes are a part of the line, a digit for each key.
#[derive(Clone, Copy)]
pub enum Command<'a> {
    Open {
        towers: u32,
        homes: &'a [u8],
        depth: u32,
        book: BookKind,
    },
    Begin {
        tower: u32,
    },
    Read {
        tx: u32,
        key: u32,
    },
    Draft {
        tx: u32,
        key: u32,
        value: u32,
    },
    Close {
        tx: u32,
    },
    Drop {
        tx: u32,
    },
    Deliver {
        position: u32,
    },
}

// The command that a line writes, or the fault of its first bad field from the left.
pub fn parse_line(line: &[u8]) -> Result<Command<'_>, Fault>
    ensures means { Means line.now (meant result) }
    ensures only { Only line.now (meant result) }
    ensures spelled { Spelled line.now (meant result) }
    ensures back { ReadBack line.now (meant result) }
{
    if line.len() > TEXT_LIMIT {
        return Err(Cause::Size.into());
    }
    let mut fields = Fields::new(line);
    let Some(verb) = fields.verb() else {
        return Err(Cause::Call.into());
    };
    fields.command(verb)
}
