// Vector clocks, and the versions that they judge.
#![tactic(auto)]

ghost use Rattle.std.specs.Prelude.{◌≡◌, true, false, [], ◌∷◌, MatchBool, slice_index};
ghost use Rattle.clocks.specs.Clocks.{Covers, covers, Within, within, ClockExamples};

// The most towers that a net can have, and so the number of entries of a clock.
pub const TOWERS: usize = 8;

// A tower's clock: entry j counts the transactions begun at tower j that the tower has taken in.
// A transaction's bound, the clock up to which it sees the book, has the same form.
#[derive(Clone, Copy, Default)]
pub struct Clock {
    pub entries: [u32; TOWERS],
}

// What a draft or a version says of its key. Only what reads and writes it for people or the radio looks inside.
#[derive(Clone, Copy, PartialEq, Eq, Default)]
pub struct Content {
    pub value: u32,
}

// A version of a key: the transaction that wrote it, the tower where that began, its count there (from 1) and what it says.
#[derive(Clone, Copy)]
pub struct Version {
    pub writer: u16,
    pub origin: u8,
    pub number: u32,
    pub content: Content,
}

// Whether no entry of the clock is smaller than that of the bound. The lists may be of any length: an entry that one lacks is 0.
// A loop over the entries with their index, left at the first smaller one: a rule of the project.
pub fn covers(clock: &[u32], bound: &[u32]) -> bool
    ensures rule { MatchBool result (Covers clock.now bound.now) (Covers clock.now bound.now → ⊥) }
    ensures value { result ≡ covers clock.now bound.now }
{
    for (i, least) in bound.iter().enumerate() {
        if clock.get(i).copied().unwrap_or(0) < *least {
            return false;
        }
    }
    true
}

// Whether the transaction that has this number at its origin is within the bound. An origin that has no entry is outside.
pub fn within(origin: u8, number: u32, bound: &[u32]) -> bool
    ensures rule { MatchBool result (Within origin number bound.now) (Within origin number bound.now → ⊥) }
    ensures value { result ≡ within origin number bound.now }
{
    bound
        .get(origin as usize)
        .is_some_and(|most| number <= *most)
}

impl Clock {
    pub fn covers(&self, bound: &Clock) -> bool
        ensures { result ≡ covers self.now.entries bound.now.entries }
    {
        covers(&self.entries, &bound.entries)
    }
}

impl Version {
    // A version's number is judged as it stands, 0 too.
    pub fn within(&self, bound: &Clock) -> bool
        ensures { result ≡ within self.now.origin self.now.number bound.now.entries }
    {
        within(self.origin, self.number, &bound.entries)
    }
}

// The examples: 2,1 covers 2,0 and not 0,2; number 3 of origin 1 is within 0,3 and not within 0,2.
pub fn clock_examples() -> [bool; 4]
    ensures rule { ClockExamples }
    ensures value { result ≡ true ∷ false ∷ true ∷ false ∷ [] }
{
    [
        covers(&[2, 1], &[2, 0]),
        covers(&[2, 1], &[0, 2]),
        within(1, 3, &[0, 3]),
        within(1, 3, &[0, 2]),
    ]
}
