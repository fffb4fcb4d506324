// Reading a frame: the only message that it can be of is built, written again and compared.
ghost use Rattle.std.specs.Prelude.{◌≡◌, ◌+◌, ◌*◌, ◌≤◌, true, length};
ghost use Rattle.clocks.specs.Clocks.{tower_limit};
ghost use Rattle.messages.specs.Limits.{line_limit};
ghost use Rattle.frames.specs.Sizes.{entry_size, line_size};
ghost use Rattle.messages.specs.Table.{allows};
ghost use Rattle.messages.specs.Rules.{Typed};
ghost use Rattle.frames.specs.Candidate.{clock_at, message_at};
ghost use Rattle.frames.specs.Answers.{SizedAs, sized_of, is_frame, read_of, Reads};

use super::bytes::{draft_at, line_at, word_at};
use super::writer::write;
use super::{ENTRY, FIXED, HEAD, LINE};
use clocks::{Clock, TOWERS, Version};
use faults::{Cause, Fault};
use messages::{Body, Conflict, Drafts, Grant, Kind, Line, Message, Objection};
use std::array;

fn clock_at(bytes: &[u8]) -> Clock
    requires { entry_size * tower_limit ≤ length bytes.now }
    ensures { result.entries ≡ clock_at tower_limit bytes.now }
{
    Clock {
        entries: array::from_fn(|i| word_at(&bytes[ENTRY * i..])),
    }
}

// The parts of a frame that its body is read from: kind, mark and number, how many lines it has, and their bytes.
// The mark is a number, as in the frame: what it means depends on the kind.
#[derive(Drop)]
struct Parts<'a> {
    kind: Kind,
    mark: u8,
    number: u32,
    count: usize,
    lines: &'a [u8],
    ghost allowed: { allows kind count ≡ true },
    ghost few: { count ≤ line_limit },
    ghost long: { length lines.now ≡ line_size * count },
}

impl Parts<'_> {
    ghost use Rattle.frames.specs.Candidate.{drafts_at, shown_at, conflict_at, vote_at, outcome_at, body_at};

    fn drafts(&self) -> Drafts
        ensures { result ≡ drafts_at self.now.count self.now.lines.now }
    {
        let mut drafts = Drafts::new();
        for line in self.lines.as_chunks::<LINE>().0 {
            let _ = drafts.push(draft_at(line));
        }
        drafts
    }

    fn shown(&self, line: &Line) -> Option<Version>
        ensures { result ≡ shown_at self.now.mark line.now }
    {
        (self.mark == 1).then(|| line.into())
    }

    fn conflict(&self, line: &Line) -> Conflict
        ensures { result ≡ conflict_at self.now.mark line.now }
    {
        match self.mark {
            1 => Conflict::Held {
                origin: line.origin,
                writer: line.writer,
            },
            2 => Conflict::Newer {
                origin: line.origin,
                writer: line.writer,
                number: line.number,
            },
            _ => Conflict::Full,
        }
    }

    fn vote(&self) -> Option<Objection>
        ensures { result ≡ vote_at self.now.mark self.now.count self.now.lines.now }
    {
        if self.count == 0 {
            return None;
        }
        let line = line_at(self.lines);
        Some(Objection {
            key: line.key,
            conflict: self.conflict(&line),
        })
    }

    fn outcome(&self) -> Option<Grant>
        ensures { result ≡ outcome_at self.now.mark self.now.number self.now.count self.now.lines.now }
    {
        if self.mark != 1 {
            return None;
        }
        Some(Grant {
            number: self.number,
            drafts: self.drafts(),
        })
    }

    fn body(&self) -> Body
        ensures { result ≡ body_at self.now.kind self.now.mark self.now.number self.now.count self.now.lines.now }
    {
        match self.kind {
            Kind::Query => Body::Query {
                key: line_at(self.lines).key,
                first: self.mark == 1,
            },
            Kind::Answer => {
                let line = line_at(self.lines);
                Body::Answer {
                    key: line.key,
                    shown: self.shown(&line),
                }
            }
            Kind::Prepare => Body::Prepare(self.drafts()),
            Kind::Vote => Body::Vote {
                against: self.vote(),
            },
            Kind::Outcome => Body::Outcome {
                granted: self.outcome(),
            },
        }
    }
}

// The only message of the kind that the bytes can be the frame of.
fn message_at(kind: Kind, bytes: &[u8]) -> Message
    requires { SizedAs kind bytes.now }
    ensures { result ≡ message_at tower_limit kind bytes.now }
{
    // The first fields are named in the order of the layout.
    let [_, sender, receiver, count, t0, t1, mark, _, rest @ ..] = bytes else {
        return unreachable();
    };
    let parts = Parts {
        kind,
        mark: *mark,
        number: word_at(rest),
        count: *count as usize,
        lines: &bytes[FIXED..],
    };
    Message {
        sender: *sender,
        receiver: *receiver,
        tx: u16::from_le_bytes([*t0, *t1]),
        clock: clock_at(&bytes[HEAD..]),
        body: parts.body(),
    }
}

// The kind of the bytes; refused if their length or their kind is that of no frame.
fn sized(bytes: &[u8]) -> Result<Kind, Fault>
    ensures { result ≡ sized_of bytes.now }
{
    if bytes.len() < FIXED {
        return Err(Cause::Length.into());
    }
    let kind = Kind::try_from(bytes[0])?;
    let n = bytes[3] as usize;
    if kind.allows(n) && bytes.len() == FIXED + LINE * n {
        Ok(kind)
    } else {
        Err(Cause::Length.into())
    }
}

// Whether the bytes are the message's frame.
fn is_frame(message: &Message, bytes: &[u8]) -> bool
    ensures value { result ≡ is_frame message.now bytes.now }
    ensures typed { result ≡ true → Typed message.now }
{
    match write(message) {
        Ok(frame) => frame.as_slice() == bytes,
        Err(_) => false,
    }
}

// The message whose frame the bytes are, or what is wrong with them.
pub fn read(bytes: &[u8]) -> Result<Message, Fault>
    ensures reads { Reads bytes.now result }
    ensures value { result ≡ read_of bytes.now }
{
    let kind = sized(bytes)?;
    let message = message_at(kind, bytes);
    if is_frame(&message, bytes) {
        Ok(message)
    } else {
        Err(Cause::FrameField.into())
    }
}
