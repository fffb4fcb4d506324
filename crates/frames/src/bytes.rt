// The parts of a frame as bytes: its first twelve, a line, a number.
// Functions and no `From`: neither a line nor an array of bytes is a type of this crate, which may write none for them.
ghost use Rattle.std.specs.Prelude.{◌≡◌, ◌^◌, ◌<◌, ◌≤◌, length};
ghost use Rattle.frames.specs.Bytes.{word_at};
ghost use Rattle.frames.specs.Sizes.{entry_size, line_size};
ghost use Rattle.messages.specs.Table.{number_of};
ghost use Rattle.frames.specs.Layout.{line_bytes, head_of};
ghost use Rattle.messages.specs.Rules.{TypedLine};
ghost use Rattle.frames.specs.Candidate.{line_at, draft_at};

use super::{HEAD, LINE};
use clocks::Content;
use messages::{Draft, Line, Message};

// What stands before the clock.
pub(crate) fn head_bytes(m: &Message) -> [u8; HEAD]
    ensures value { result ≡ head_of m.now }
    ensures typed { number_of m.now.body < 2 ^ 32 }
{
    let t = m.tx.to_le_bytes();
    let n = m.body.number().to_le_bytes();
    [
        m.body.kind().into(),
        m.sender,
        m.receiver,
        m.body.lines() as u8,
        t[0],
        t[1],
        m.body.mark(),
        0,
        n[0],
        n[1],
        n[2],
        n[3],
    ]
}

pub(crate) fn line_bytes(l: &Line) -> [u8; LINE]
    ensures value { result ≡ line_bytes l.now }
    ensures typed { TypedLine l.now }
{
    let w = l.writer.to_le_bytes();
    let n = l.number.to_le_bytes();
    let v = l.content.value.to_le_bytes();
    [
        l.key, l.origin, w[0], w[1], n[0], n[1], n[2], n[3], v[0], v[1], v[2], v[3],
    ]
}

// The number that stands at the front of the bytes.
pub(crate) fn word_at(b: &[u8]) -> u32
    requires { entry_size ≤ length b.now }
    ensures { result ≡ word_at b.now 0 }
{
    u32::from_le_bytes([b[0], b[1], b[2], b[3]])
}

// The line that stands at the front of the bytes.
pub(crate) fn line_at(b: &[u8]) -> Line
    requires { line_size ≤ length b.now }
    ensures { result ≡ line_at b.now }
{
    Line {
        key: b[0],
        origin: b[1],
        writer: u16::from_le_bytes([b[2], b[3]]),
        number: u32::from_le_bytes([b[4], b[5], b[6], b[7]]),
        content: Content {
            value: u32::from_le_bytes([b[8], b[9], b[10], b[11]]),
        },
    }
}

// The draft whose line stands at the front of the bytes.
pub(crate) fn draft_at(b: &[u8]) -> Draft
    requires { line_size ≤ length b.now }
    ensures { result ≡ draft_at b.now }
{
    line_at(b).into()
}
