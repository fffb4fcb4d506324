ghost use Rattle.std.specs.Prelude.{◌≡◌};
ghost use Rattle.book.specs.Examples.{NewestExamples, example_answers};
ghost use Rattle.book.specs.Newest.{newest, LastWithin};

use clocks::{Clock, Content, Version};

// What the list shows at the bound: its last version within the bound, or none, which is called blank.
pub fn newest_of(versions: &[Version], bound: &Clock) -> Option<Version>
    ensures value { result ≡ newest bound.now versions.now }
    ensures last { LastWithin bound.now versions.now result }
{
    versions.iter().rev().find(|v| v.within(bound)).copied()
}

// The example: of 5 (number 1 of origin 0) and 6 (number 1 of origin 1) the bound 1,0 shows 5, 1,1 shows 6, and 0,0 is blank.
pub fn newest_examples() -> [Option<Version>; 3]
    ensures rule { NewestExamples }
    ensures value { result ≡ example_answers }
{
    let older = Version {
        writer: 0,
        origin: 0,
        number: 1,
        content: Content { value: 5 },
    };
    let newer = Version {
        writer: 1,
        origin: 1,
        number: 1,
        content: Content { value: 6 },
    };
    let list = [older, newer];
    let mut first = Clock::default();
    first.entries[0] = 1;
    let mut both = Clock::default();
    both.entries[0] = 1;
    both.entries[1] = 1;
    let none = Clock::default();
    [
        newest_of(&list, &first),
        newest_of(&list, &both),
        newest_of(&list, &none),
    ]
}
