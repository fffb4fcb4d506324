// Lists of drafts.
ghost use Rattle.std.specs.Prelude.{◌≡◌, ◌<◌, ◌≤◌, [], ◌∷◌, ◌++◌, length, take};
ghost use Rattle.messages.specs.Limits.{line_limit};
ghost use Rattle.messages.specs.Drafting.{counted, drafts_of, Neat, Pushed};

use super::{Draft, Drafts, LINES};
use faults::{Cause, Fault};

// The first n of the items, or all where there are fewer.
pub fn front<T>(items: &[T], n: usize) -> &[T]
    ensures value { result.now ≡ take n items.now }
    ensures short { length result.now ≤ length items.now }
{
    if n < items.len() { &items[0..n] } else { items }
}

impl Drafts {
    // No drafts.
    pub fn new() -> Drafts
        ensures { result ≡ drafts_of [] }
    {
        Drafts {
            items: [Draft::default(); LINES],
            len: 0,
        }
    }

    // The drafts. A length past the end counts as the end.
    pub fn as_slice(&self) -> &[Draft]
        ensures value { result.now ≡ counted self.now }
        ensures few { length result.now ≤ line_limit }
        ensures places { length self.now.items ≡ line_limit }
    {
        front(&self.items, self.len as usize)
    }

    // How many there are.
    pub fn len(&self) -> usize
        ensures count { result ≡ length (counted self.now) }
        ensures few { result ≤ line_limit }
        ensures places { length self.now.items ≡ line_limit }
    {
        self.as_slice().len()
    }

    // Adds a draft at the end; refused where no place is left.
    pub fn push(&mut self, draft: Draft) -> Result<(), Fault>
        ensures { Pushed self.old draft result self.new }
    {
        let n = self.len();
        if n >= LINES {
            return Err(Cause::Drafts.into());
        }
        self.put(n, draft);
        Ok(())
    }

    // Puts a draft into the first place that holds none, the n-th.
    fn put(&mut self, n: usize, draft: Draft)
        requires first { n ≡ length (counted self.old) }
        requires less { n < line_limit }
        requires places { length self.old.items ≡ line_limit }
        ensures after { counted self.new ≡ counted self.old ++ draft ∷ [] }
        ensures neat { Neat self.old → Neat self.new }
    {
        self.items[n] = draft;
        self.len = n as u8 + 1;
    }
}
