// The tables of a net: what stands in them, what is asked of the net, and what it tells.
#![tactic(auto)]

use clocks::Content;
use faults::Cause;

// Where a transaction stands. Open: it may be called; waiting: a read of its is on its way; closing: votes are awaited;
// granted, refused, dropped: it has ended.
#[derive(Clone, Copy)]
pub enum Phase {
    Open,
    Waiting,
    Closing,
    Granted,
    Refused,
    Dropped,
}

// A key that a transaction holds at the key's home, with the tower where the transaction began.
#[derive(Clone, Copy)]
pub struct Held {
    pub key: u8,
    pub tx: u16,
    pub origin: u8,
}

// An entry of the reading list: the transaction that read, the key, and the writer of the version shown; none for blank.
#[derive(Clone, Copy)]
pub struct Reading {
    pub tx: u16,
    pub key: u8,
    pub writer: Option<u16>,
}

// A call of the net. Towers, transactions, keys and positions in the air are numbers that may name nothing.
#[derive(Clone, Copy)]
pub enum Call {
    Begin { tower: u32 },
    Read { tx: u32, key: u32 },
    Draft { tx: u32, key: u32, content: Content },
    Close { tx: u32 },
    Drop { tx: u32 },
    Deliver { position: u32 },
}

// What a call tells that is not turned down.
#[derive(Clone, Copy)]
pub enum Told {
    // begin: the transaction
    Begun {
        tx: u16,
    },
    // read of a key that the transaction has drafted: the draft
    Own {
        content: Content,
    },
    // read or close: how many messages were sent
    Sent {
        count: u32,
    },
    // draft: how many drafts the transaction has
    Drafts {
        count: u32,
    },
    // close without drafts: granted, with no place
    ReadOnly,
    // drop: the transaction
    Dropped {
        tx: u16,
    },
    // a query was delivered
    Queried {
        tx: u16,
    },
    // an answer was delivered, and shows a version's content or blank
    Shown {
        tx: u16,
        key: u8,
        content: Option<Content>,
    },
    // a prepare was delivered, and a vote was sent
    Prepared {
        tx: u16,
        // 0 for yes, else the conflict's mark: the number that stands in the vote's frame. A conflict would tell more than is told,
        // and an enum of marks no more than the number.
        mark: u8,
    },
    // a vote was delivered, and others are awaited
    Awaiting {
        tx: u16,
    },
    // the last vote was delivered, and the transaction is granted at this place
    Placed {
        tx: u16,
        place: u32,
    },
    // the last vote was delivered, and the transaction is refused for this key
    Refused {
        tx: u16,
        key: u8,
    },
    // an outcome was delivered to this tower
    Ended {
        tx: u16,
        tower: u8,
    },
}

// What any call tells. One that is turned down tells the cause, and changes nothing.
pub type Answer = Result<Told, Cause>;
