// The worked examples of the rules, all in one list and proved. The tests run some of them through the code.
#![tactic(auto)]

ghost use Rattle.examples.specs.Examples.{Examples};

mod loans;

pub use loans::{push_one, put_one, store_one};

/// Every example of the list holds. The function does nothing: its promise is the theorem.
#[tactic(auto, using(crate::proofs::Headers::header_examples, crate::proofs::HeaderListings::header_listing_examples, crate::proofs::Lines::line_examples, crate::proofs::SpoolListings::spool_listing_examples))]
pub fn examples_hold()
    ensures { Examples }
{}

#[cfg(test)]
mod tests {
    use carriage::Carriage;
    use cell::{Cell, Fault, Part, Refusal};
    use header::{Mode, Reader, Reading, seal};
    use ring::Ring;
    use spool::Spool;
    use std::test::Fail;

    // What an octet is read as in a mode.
    fn found(mode: Mode, octet: u8) -> Reading {
        Reader::in_mode(mode).read(octet)
    }

    fn told(csi: u8, count: u8, valid: bool) -> Reading {
        Reading { csi, count, valid }
    }

    #[test]
    fn headers_read(rt: HostRuntime) {
        assert_eq!(rt; found(Mode::Correction, 0x07), told(0, 1, true));
        assert_eq!(rt; found(Mode::Detection, 0x07), told(0, 0, false));
        assert_eq!(rt; found(Mode::Correction, 0x0f), told(0, 0, false));
        assert_eq!(rt; found(Mode::Detection, 0x0f), told(0, 0, false));
        assert_eq!(rt; found(Mode::Correction, 0x01), told(0, 0, true));
    }

    #[test]
    fn cells(rt: HostRuntime) {
        let mut octets = [0x41; 48];
        octets[0] = 0x17;
        octets[1] = 0x42;
        let cell = Cell { octets };
        assert_eq!(rt; cell.header(), 0x17);
        assert_eq!(rt; cell.payload().first().copied(), Some(0x42));
        assert_eq!(rt; cell.payload().len(), 47);
        assert_eq!(rt; cell.turn(0x10).header(), 0x07);
        assert_eq!(rt; cell.with_header(0x2d).header(), 0x2d);
        assert_eq!(rt;
            cell.with_header(0x2d).payload().first().copied(),
            Some(0x42)
        );
    }

    #[test]
    fn headers_sealed(rt: HostRuntime) {
        assert_eq!(rt; seal(0, 1).ok(), Some(0x17));
        assert_eq!(rt; seal(1, 7).ok(), Some(0xff));
        assert_eq!(rt; seal(2, 0).ok(), None);
        assert_eq!(rt; seal(0, 8).ok(), None);
    }

    // An entry of another kind than a cell.
    #[derive(Clone, Copy, PartialEq, Eq, Debug)]
    struct Item {
        octet: u8,
        good: bool,
    }

    fn good(octet: u8) -> Item {
        Item { octet, good: true }
    }

    #[test]
    fn ring_goes_round(rt: HostRuntime) -> Result<(), Fail> {
        let mut slots = [good(0); 3];
        {
            let mut ring = Ring::new(&mut slots);
            ring.push(good(1))?;
            ring.push(good(2))?;
            assert_eq!(rt; ring.pop(), Ok(good(1)));
            ring.push(good(3))?;
            ring.push(good(4))?;
            assert_eq!(rt;
                ring.push(good(5)),
                Err(Fault::new(Refusal::Full, Part::Ring))
            );
            assert_eq!(rt; ring.first(), Ok(good(2)));
        }
        assert_eq!(rt; slots, [good(4), good(2), good(3)]);
        Ok(())
    }

    #[test]
    fn spool_goes_on(rt: HostRuntime) -> Result<(), Fail> {
        let mut bytes = [0u8; 100];
        let mut spool = Spool::new(&mut bytes);
        assert_eq!(rt; spool.room(), 0);
        spool.open()?;
        assert_eq!(rt; spool.room(), 2);
        spool.put(Cell { octets: [0x17; 48] })?;
        spool.drop_first()?;
        assert_eq!(rt; spool.room(), 1);
        assert_eq!(rt; spool.waiting(), 0);
        spool.open()?;
        assert_eq!(rt; spool.room(), 1);
        Ok(())
    }
}
