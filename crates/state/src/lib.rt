// What a net keeps, and what is lent to its calls.
#![tactic(auto)]

use book::MAX_KEYS;
use clocks::{Clock, TOWERS};
use frames::Frame;
use messages::{Drafts, Objection};
use tables::{Held, Phase, Reading};
use tray::Tray;

// The most frames in the air, and the most entries of a reading list.
pub const MAX_FRAMES: usize = 512;

pub const MAX_READINGS: usize = 4096;

// A transaction: the tower where it began, where it stands, what it may see, whether it has had an answer, what it wants to write,
// how many votes it awaits, the first vote against it that was delivered, and, once it is granted with drafts, its count at its
// origin and its place among all that were. Two options and not one of a pair: what the history says is said of each alone.
#[derive(Clone, Copy)]
pub struct Record {
    pub origin: u8,
    pub phase: Phase,
    pub bound: Clock,
    pub answered: bool,
    pub drafts: Drafts,
    pub awaited: u8,
    pub named: Option<Objection>,
    pub number: Option<u32>,
    pub place: Option<u32>,
}

// A tower. Its clock counts the transactions that it has taken in, by their origin.
#[derive(Clone, Copy)]
pub struct Tower {
    pub clock: Clock,
}

// The towers, of which the first `count` belong to the net; the home of each key, of which the first `keys` are there; the last place.
// The arrays are fixed, and have counts beside them, as a net takes no memory from a heap.
#[derive(Clone, Copy)]
pub struct Inner {
    pub towers: [Tower; TOWERS],
    pub count: u8,
    pub homes: [u8; MAX_KEYS],
    pub keys: u16,
    pub last: u32,
}

// What is lent to each call: transactions in the order in which they began, frames in the air, held keys, the reading list.
#[derive(Drop)]
pub struct Tables<'a> {
    pub records: Tray<'a, Record>,
    pub air: Tray<'a, Frame>,
    pub held: Tray<'a, Held>,
    pub readings: Tray<'a, Reading>,
}

// Frames that are sent together, of which the first `len` count. The array is fixed, as a call takes no memory from a heap, and
// has no type in common with drafts and frames for the reason that stands at a message's drafts.
#[derive(Clone, Copy)]
pub struct Batch {
    pub frames: [Frame; TOWERS],
    pub len: usize,
}

// Why a transaction sends to several towers: to ask for votes, or to tell how it ended. An enum and no closure: the
// definitions say by case which messages are sent, which a closure would hide.
#[derive(Clone, Copy)]
pub enum Purpose {
    Prepare,
    Grant { number: u32 },
    Refuse,
}

// What the versions of one transaction have in common.
#[derive(Clone, Copy)]
pub struct Stamp {
    pub writer: u16,
    pub origin: u8,
    pub number: u32,
}
