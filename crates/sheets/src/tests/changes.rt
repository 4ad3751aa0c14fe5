// The good sheet with small changes, and how often each question is the first with a no.
use crate::tests::answers::Told;
use crate::tests::{GOOD, answer, joined};
use std::test::Fail;

// How many bytes were accepted, and how many were refused with each of the numbers 13 to 21.
#[derive(Drop)]
struct Tally {
    accepted: usize,
    refused: [usize; 9],
}

impl Tally {
    fn new() -> Tally {
        Tally {
            accepted: 0,
            refused: [0; 9],
        }
    }

    fn add(&mut self, answer: Result<(), Told>) {
        match answer {
            Ok(()) => self.accepted = self.accepted.saturating_add(1),
            Err(fault) => {
                let k = (fault.number as usize).saturating_sub(13);
                if let Some(count) = self.refused.get_mut(k) {
                    *count = count.saturating_add(1);
                }
            }
        }
    }
}

#[test]
fn one_byte_changed(rt: HostRuntime) -> Result<(), Fail> {
    let mut tally = Tally::new();
    for place in 0..138 {
        for value in 0..=255 {
            let mut bytes = GOOD;
            if bytes[place] != value {
                bytes[place] = value;
                tally.add(answer(&rt, rt.alloc(), &bytes)?);
            }
        }
    }
    assert_eq!(rt; tally.accepted, 0);
    assert_eq!(rt;
        tally.refused,
        [11044, 1, 140, 23113, 143, 134, 17, 88, 510]
    );
    Ok(())
}

#[test]
fn two_bytes_exchanged(rt: HostRuntime) -> Result<(), Fail> {
    let mut tally = Tally::new();
    for other in 1..138 {
        for one in 0..other {
            let mut bytes = GOOD;
            if bytes[one] != bytes[other] {
                bytes.swap(one, other);
                tally.add(answer(&rt, rt.alloc(), &bytes)?);
            }
        }
    }
    assert_eq!(rt; tally.accepted, 0);
    assert_eq!(rt; tally.refused, [831, 0, 1180, 3150, 1379, 971, 205, 286, 1]);
    Ok(())
}

#[test]
fn one_byte_left_out(rt: HostRuntime) -> Result<(), Fail> {
    let mut tally = Tally::new();
    for place in 0..138 {
        tally.add(joined(&rt, rt.alloc(), &GOOD[0..place], &GOOD[place + 1..138])?);
    }
    assert_eq!(rt; tally.accepted, 0);
    assert_eq!(rt; tally.refused, [13, 2, 28, 74, 11, 3, 3, 4, 0]);
    Ok(())
}

#[test]
fn one_byte_doubled(rt: HostRuntime) -> Result<(), Fail> {
    let mut tally = Tally::new();
    for place in 0..138 {
        tally.add(joined(&rt, rt.alloc(), &GOOD[0..place + 1], &GOOD[place..138])?);
    }
    assert_eq!(rt; tally.accepted, 0);
    assert_eq!(rt; tally.refused, [19, 0, 21, 80, 7, 6, 0, 3, 2]);
    Ok(())
}

#[test]
fn cut_short(rt: HostRuntime) -> Result<(), Fail> {
    let mut tally = Tally::new();
    for length in 0..138 {
        tally.add(answer(&rt, rt.alloc(), &GOOD[0..length])?);
    }
    assert_eq!(rt; tally.accepted, 0);
    assert_eq!(rt; tally.refused, [0, 138, 0, 0, 0, 0, 0, 0, 0]);
    Ok(())
}
