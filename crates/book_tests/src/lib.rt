// The rules of books, tried on both.
#![tactic(auto)]

#[cfg(test)]
mod tests {
    use book::{Book, BookView, Shape, is_blank};
    use clocks::{Clock, Content, Version};
    use faults::Fault;
    use journal::{Journal, Record};
    use rows::Rows;
    use std::process::Abort;
    use std::test::Fail;

    const KEYS: usize = 4;

    const DEPTH: usize = 2;

    const PLACES: usize = KEYS * DEPTH;

    fn version(origin: u8, value: u32) -> Version {
        Version {
            writer: 0,
            origin,
            number: 1,
            content: Content { value },
        }
    }

    // The clock whose first two entries are given.
    fn bound(first: u32, second: u32) -> Clock {
        let mut clock = Clock::default();
        clock.entries[0] = first;
        clock.entries[1] = second;
        clock
    }

    // The number of the fault, if there is one.
    fn fault<T: Drop>(answer: Result<T, Fault>) -> Option<u8> {
        answer.err().map(|fault| fault.cause.number())
    }

    // The value that key 1 shows at the bound.
    fn shown<B: Book>(book: &B, first: u32, second: u32) -> Option<u32> {
        let newest = book.newest_within(1, &bound(first, second));
        newest.ok().flatten().map(|version| version.content.value)
    }

    fn rules<B: Book>(rt: &impl Abort, book: &mut B) {
        assert!(rt; is_blank(book));
        assert_eq!(rt; fault(book.look(1, 0)), Some(42));
        assert_eq!(rt; fault(book.look(KEYS, 0)), Some(41));
        assert_eq!(rt; fault(book.add(KEYS, version(0, 5))), Some(41));
        assert_eq!(rt; fault(book.add(1, version(0, 5))), None);
        assert_eq!(rt; fault(book.add(1, version(1, 6))), None);
        assert_eq!(rt; fault(book.add(1, version(2, 7))), Some(43));
        assert!(rt; book.count(1).unwrap_or(0) == DEPTH);
        assert!(rt; book.count(0).unwrap_or(1) == 0);
        assert!(rt; !is_blank(book));
        assert_eq!(rt; shown(book, 1, 0), Some(5));
        assert_eq!(rt; shown(book, 1, 1), Some(6));
        assert_eq!(rt; shown(book, 0, 0), None);
    }

    #[test]
    fn journal_keeps_the_rules(rt: HostRuntime) -> Result<(), Fail> {
        let mut memory = [Record {
            key: 0,
            version: version(0, 0),
        }; PLACES];
        let shape = Shape::new(KEYS, DEPTH, PLACES)?;
        let mut book = Journal::blank(shape, &mut memory);
        rules(&rt, &mut book);
        Ok(())
    }

    #[test]
    fn rows_keep_the_rules(rt: HostRuntime) -> Result<(), Fail> {
        let mut counts = [1u8; KEYS];
        let mut versions = [version(0, 0); PLACES];
        let shape = Rows::shape(KEYS, DEPTH, &counts, &versions)?;
        let mut book = Rows::blank(shape, &mut counts, &mut versions);
        rules(&rt, &mut book);
        Ok(())
    }

    #[test]
    fn shapes_are_refused(rt: HostRuntime) {
        assert_eq!(rt; fault(Shape::new(1, 65, 65)), Some(40));
        assert_eq!(rt; fault(Shape::new(257, 1, 257)), Some(40));
        assert_eq!(rt; fault(Shape::new(KEYS, DEPTH, PLACES + 1)), Some(40));
        assert_eq!(rt;
            fault(Rows::shape(KEYS, DEPTH, &[0; 3], &[version(0, 0); PLACES])),
            Some(40)
        );
    }
}
