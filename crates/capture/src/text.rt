// The listing of a capture.
ghost use Rattle.std.specs.Prelude.{◌≡◌, Some, IfOk, string_bytes};
ghost use Rattle.std.specs.List.{flat_map};
ghost use Rattle.messages.specs.Table.{lines_of};
ghost use Rattle.capture.specs.Text.{line_text, clock_text, message_text, unbroken, dump_text};

use super::hex::interpret;
use messages::{Body, Message};
use std::alloc::{AllocError, Global};
use std::fmt;

// The entries of a clock as they are listed, with commas between them.
#[derive(Drop)]
struct ListedClock<'a>(&'a [u32]);

impl<'a> fmt::Display for ListedClock<'a> {
    ghost output = { λ c. Some (clock_text c.0.now) };

    fn fmt<W: fmt::Write>(&self, f: &mut fmt::Formatter<W>) -> fmt::Result {
        let [first, rest @ ..] = self.0 else {
            return Ok(());
        };
        write!(f, "{first}")?;
        for entry in rest {
            write!(f, ",{entry}")?;
        }
        Ok(())
    }
}

// The lines of a message as they are listed.
#[derive(Drop)]
struct ListedLines<'a>(&'a Body);

impl<'a> fmt::Display for ListedLines<'a> {
    ghost output = { λ l. Some (flat_map line_text (lines_of l.0.now)) };

    #[tactic(auto, unfolding(crate::specs::Text::line_text))]
    fn fmt<W: fmt::Write>(&self, f: &mut fmt::Formatter<W>) -> fmt::Result {
        for line in self.0.iter() {
            write!(
                f,
                " key={} origin={} writer={} number={} value={}",
                line.key, line.origin, line.writer, line.number, line.content.value
            )?;
        }
        Ok(())
    }
}

// A message as it is listed.
#[derive(Drop)]
struct Listed<'a>(&'a Message);

impl<'a> fmt::Display for Listed<'a> {
    ghost output = { λ l. Some (message_text l.0.now) };

    #[tactic(auto, unfolding(crate::specs::Text::head_text))]
    fn fmt<W: fmt::Write>(&self, f: &mut fmt::Formatter<W>) -> fmt::Result {
        let m = self.0;
        write!(
            f,
            "kind={} sender={} receiver={} tx={} mark={} number={} clock={}{}",
            m.body.kind(),
            m.sender,
            m.receiver,
            m.tx,
            m.body.mark(),
            m.body.number(),
            ListedClock(&m.clock.entries),
            ListedLines(&m.body)
        )
    }
}

// A line without the line feed that ends it; the last line of a capture may have none.
fn without_break(line: &[u8]) -> &[u8]
    ensures { result.now ≡ unbroken line.now }
{
    match line {
        [text @ .., b'\n'] => text,
        _ => line,
    }
}

// The line of the listing for the n-th line of a capture, which may end in a line feed.
#[tactic(auto, unfolding(crate::specs::Text::numbered))]
pub fn describe(heap: Global, n: u64, line: &[u8]) -> Result<String, AllocError>
    ensures { IfOk result (λ s. string_bytes s ≡ dump_text n line.now) }
{
    match interpret(heap, without_break(line))? {
        Ok(message) => format!(in heap; "line={n} {}\n", Listed(&message)),
        Err(fault) => format!(in heap; "line={n} {fault}\n"),
    }
}
