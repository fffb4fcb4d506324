// Examples of frames, run.
#![tactic(auto)]

#[cfg(test)]
mod tests {
    use clocks::{Clock, Content};
    use frames::{read, write};
    use messages::{Body, Draft, Drafts, Grant, LINES, Message};
    use std::test::Fail;

    fn draft(key: u8, value: u32) -> Draft {
        let content = Content { value };
        Draft { key, content }
    }

    // A granted outcome with one draft.
    fn outcome(tx: u16) -> Message {
        let mut drafts = Drafts::new();
        let _ = drafts.push(draft(3, 9));
        let mut clock = Clock::default();
        clock.entries[0] = 1;
        clock.entries[1] = 2;
        Message {
            sender: 1,
            receiver: 0,
            tx,
            clock,
            body: Body::Outcome {
                granted: Some(Grant { number: 2, drafts }),
            },
        }
    }

    // The number of the fault that the bytes have; a frame has none.
    fn fault_of(bytes: &[u8]) -> Option<u8> {
        read(bytes).err().map(|fault| fault.cause.number())
    }

    #[test]
    fn outcome_as_documented(rt: HostRuntime) -> Result<(), Fail> {
        let frame = write(&outcome(5))?;
        let head = [5, 1, 0, 1, 5, 0, 1, 0, 2, 0, 0, 0, 1, 0, 0, 0, 2, 0, 0, 0];
        let line = [3, 0, 0, 0, 0, 0, 0, 0, 9, 0, 0, 0];
        let bytes = frame.as_slice();
        assert!(rt; bytes.len() == 56);
        assert!(rt; bytes[0..20] == head[0..20]);
        let zeros = [0; 24];
        assert!(rt; bytes[20..44] == zeros[0..24]);
        assert!(rt; bytes[44..56] == line[0..12]);
        assert_eq!(rt; fault_of(bytes), None);
        Ok(())
    }

    #[test]
    fn transaction_past_the_limit_has_no_frame(rt: HostRuntime) -> Result<(), Fail> {
        let fault = write(&outcome(1024)).err().ok_or("a frame")?;
        assert_eq!(rt; fault.cause.number(), 22);
        Ok(())
    }

    #[test]
    fn faults_of_bytes_in_order(rt: HostRuntime) {
        let mut bytes = [0; 56];
        bytes[0] = 9;
        assert_eq!(rt; fault_of(&bytes[0..43]), Some(20));
        assert_eq!(rt; fault_of(&bytes[0..44]), Some(21));
        bytes[0] = 4;
        assert_eq!(rt; fault_of(&bytes[0..44]), None);
        bytes[7] = 1;
        assert_eq!(rt; fault_of(&bytes[0..44]), Some(22));
        bytes[3] = 1;
        assert_eq!(rt; fault_of(&bytes[0..44]), Some(20));
        bytes[7] = 0;
        assert_eq!(rt; fault_of(&bytes), Some(22));
    }

    #[test]
    fn ninth_draft_is_refused(rt: HostRuntime) -> Result<(), Fail> {
        let mut drafts = Drafts::new();
        for i in 0..LINES {
            assert!(rt; drafts.push(draft(i as u8, 7)).is_ok());
        }
        let fault = drafts.push(draft(9, 7)).err().ok_or("a ninth draft")?;
        assert_eq!(rt; fault.cause.number(), 6);
        Ok(())
    }
}
