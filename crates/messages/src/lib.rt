// The messages between towers: what each kind says, the rules that it keeps, and its lines.
#![tactic(auto)]

use clocks::{Clock, Content, Version};

mod entries;
mod rules;
mod table;

pub use entries::front;

// The most lines of a message, and the most drafts of a transaction.
pub const LINES: usize = 8;

// Transactions are numbered below this.
pub const TRANSACTIONS: u16 = 1024;

// What a transaction wants to write under a key.
#[derive(Clone, Copy, PartialEq, Default)]
pub struct Draft {
    pub key: u8,
    pub content: Content,
}

// Up to eight drafts, in their order. The first `len` places hold them, and the others are blank.
// An array with a length: memory is fixed, and messages are copied, which the library's `ArrayVec` is not. One generic type for this,
// frames and batches is no plainer: each would wrap it, since a ninth draft is refused with a fault and a part of a frame always fits.
// No invariant in the type: the definitions make drafts of lists of any length, of which such a type could hold only short ones.
#[derive(Clone, Copy)]
pub struct Drafts {
    items: [Draft; LINES],
    len: u8,
}

// What stands in the way of a draft at its key's home: another transaction holds the key;
// the key's newest version is not within the bound; the key has as many versions as it can have.
// Origin, writer and number stand here, in a line and in a version as fields of the format: a struct of them would be no plainer,
// since each says them beside other fields and is read and written field by field.
#[derive(Clone, Copy)]
pub enum Conflict {
    Held {
        origin: u8,
        writer: u16,
    },
    Newer {
        origin: u8,
        writer: u16,
        number: u32,
    },
    Full,
}

// What a vote against names: a key, and what stands in the way there.
#[derive(Clone, Copy)]
pub struct Objection {
    pub key: u8,
    pub conflict: Conflict,
}

// What a granted transaction has: a number, its count at its origin from 1, and what it writes.
#[derive(Clone, Copy)]
pub struct Grant {
    pub number: u32,
    pub drafts: Drafts,
}

// What a message says, by its kind. A query is the first of its transaction or not; an answer shows a version or blank;
// a vote names what it has against the transaction, or nothing; an outcome grants or refuses.
#[derive(Clone, Copy)]
pub enum Body {
    Query { key: u8, first: bool },
    Answer { key: u8, shown: Option<Version> },
    Prepare(Drafts),
    Vote { against: Option<Objection> },
    Outcome { granted: Option<Grant> },
}

// The kinds of messages.
#[derive(Clone, Copy)]
pub enum Kind {
    Query = 1,
    Answer = 2,
    Prepare = 3,
    Vote = 4,
    Outcome = 5,
}

// A message from tower to tower about a transaction. The clock is the transaction's bound, and in an answer the clock that was used.
#[derive(Clone, Copy)]
pub struct Message {
    pub sender: u8,
    pub receiver: u8,
    pub tx: u16,
    pub clock: Clock,
    pub body: Body,
}

// A line of a message. Which of its fields a message uses depends on its kind; the others are 0.
#[derive(Clone, Copy, Default)]
pub struct Line {
    pub key: u8,
    pub origin: u8,
    pub writer: u16,
    pub number: u32,
    pub content: Content,
}

// The lines of a message that are still to come: one line, or a line for each draft. A type of its own, since a function
// that hands out an `impl Iterator` has no proof today.
#[derive(Drop)]
pub struct Lines<'a> {
    only: Option<Line>,
    drafts: &'a [Draft],
}
