// Writing a frame, part after part.
ghost use Rattle.std.specs.Prelude.{◌≡◌, ℕ, ◌+◌, ◌*◌, ◌^◌, ◌<◌, ◌≤◌, List, [], ◌++◌, length, replicate, IfOk, Ok, OnOk};
ghost use Rattle.std.specs.List.{flat_map, AllByRecursion};
ghost use Rattle.clocks.specs.Clocks.{tower_limit};
ghost use Rattle.frames.specs.Sizes.{entry_size, fixed_size, most_bytes};
ghost use Rattle.frames.specs.Bytes.{le4};
ghost use Rattle.messages.specs.Table.{lines_of};
ghost use Rattle.frames.specs.Layout.{line_bytes};
ghost use Rattle.messages.specs.Rules.{TypedLine, Places, Typed};
ghost use Rattle.frames.specs.Answers.{Extended, framed, bytes_of, written, read_of, OneMessage};

use super::MOST;
use super::bytes::{head_bytes, line_bytes};
use super::hold::Frame;
use faults::{Cause, Fault};
use messages::{Body, Message, front};

impl Frame {
    // A frame without bytes.
    pub fn blank() -> Frame
        ensures value { result ≡ framed [] }
        ensures len { result.len ≡ 0 }
    {
        Frame {
            bytes: [0; MOST],
            len: 0,
        }
    }

    // The bytes of the frame.
    pub fn as_slice(&self) -> &[u8]
        ensures { result.now ≡ bytes_of self.now }
    {
        front(&self.bytes, self.len)
    }

    // Adds a part at the end.
    fn add(&mut self, part: &[u8])
        requires { self.old.len + length part.now ≤ most_bytes }
        ensures len { self.new.len ≡ self.old.len + length part.now }
        ensures adds { Extended self.old part.now self.new }
    {
        let end = self.len + part.len();
        self.bytes[self.len..end].copy_from_slice(part);
        self.len = end;
    }

    // Adds the entries of a clock.
    fn add_clock(&mut self, clock: &[u32])
        requires { self.old.len + entry_size * length clock.now ≤ most_bytes }
        ensures len { self.new.len ≡ self.old.len + entry_size * length clock.now }
        ensures adds { Extended self.old (flat_map le4 clock.now) self.new }
        ensures typed { AllByRecursion (λ v. v < 2 ^ 32) clock.now }
    {
        for entry in clock {
            self.add(&entry.to_le_bytes());
        }
    }

    // Adds the lines of a body.
    fn add_lines(&mut self, body: &Body)
        requires { self.old.len ≡ fixed_size tower_limit }
        ensures adds { Extended self.old (flat_map line_bytes (lines_of body.now)) self.new }
        ensures typed { AllByRecursion TypedLine (lines_of body.now) }
        ensures places { Places body.now }
    {
        for line in body.iter() {
            self.add(&line_bytes(&line));
        }
    }
}

// The frame of a message; refused if a field breaks a rule.
// `write` and `read` say what is done with a frame, and documents name them so; `TryFrom` would say less of it.
pub fn write(message: &Message) -> Result<Frame, Fault>
    ensures value { result ≡ written message.now }
    ensures typed { OnOk result (Typed message.now) }
    ensures back { IfOk result (λ f. read_of (bytes_of f) ≡ Ok message.now) }
    ensures one { OneMessage }
{
    if !message.is_valid() {
        return Err(Cause::FrameField.into());
    }
    let mut frame = Frame::blank();
    frame.add(&head_bytes(message));
    frame.add_clock(&message.clock.entries);
    frame.add_lines(&message.body);
    Ok(frame)
}
