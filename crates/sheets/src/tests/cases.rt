// Cases that the document describes and does not list.
ghost use Rattle.std.specs.Prelude.{◌<◌};

use crate::fault::Layer;
use crate::tests::answers::{idle, league, plain};
use crate::tests::{GOOD, answer, joined};
use std::test::Fail;

#[test]
fn sides(rt: HostRuntime) -> Result<(), Fail> {
    let heap = rt.alloc();
    for side in [3, 5, 127] {
        assert_eq!(rt; answer(&rt, heap, &[1, side])?, plain(14, 2, Layer::Bytes));
    }
    for side in [0, 1, 2, 4, 126, 128, 129, 255] {
        assert_eq!(rt; answer(&rt, heap, &[1, side])?, plain(16, 0, Layer::Form));
    }
    Ok(())
}

// The highest venue and the highest teams of side 127, and each one past its end.
#[test]
fn ends_of_ranges(rt: HostRuntime) -> Result<(), Fail> {
    let heap = rt.alloc();
    let open = b"\x01\x7f\x02\x00";
    assert_eq!(rt;
        joined(&rt, heap, open, &[3, 126, 126, 127])?,
        plain(14, 8, Layer::Bytes)
    );
    assert_eq!(rt;
        joined(&rt, heap, open, &[3, 127, 126, 127])?,
        plain(16, 4, Layer::Form)
    );
    assert_eq!(rt;
        joined(&rt, heap, open, &[3, 126, 127, 127])?,
        plain(16, 4, Layer::Form)
    );
    assert_eq!(rt;
        joined(&rt, heap, open, &[3, 126, 126, 128])?,
        plain(16, 4, Layer::Form)
    );
    Ok(())
}

#[test]
fn operands_cut_off(rt: HostRuntime) -> Result<(), Fail> {
    let heap = rt.alloc();
    for end in 5..8 {
        assert_eq!(rt;
            answer(&rt, heap, &GOOD[0..end])?,
            plain(14, 4, Layer::Bytes)
        );
    }
    for end in 136..138 {
        assert_eq!(rt;
            answer(&rt, heap, &GOOD[0..end])?,
            plain(14, 135, Layer::Bytes)
        );
    }
    Ok(())
}

#[test]
fn after_the_end(rt: HostRuntime) -> Result<(), Fail> {
    let heap = rt.alloc();
    assert_eq!(rt;
        joined(&rt, heap, &GOOD, b"\xff")?,
        plain(13, 138, Layer::Bytes)
    );
    assert_eq!(rt;
        joined(&rt, heap, &GOOD, b"\x05\x1c")?,
        plain(14, 138, Layer::Bytes)
    );
    assert_eq!(rt;
        joined(&rt, heap, &GOOD, b"\x02\x07")?,
        plain(15, 138, Layer::Form)
    );
    assert_eq!(rt;
        joined(&rt, heap, &GOOD, b"\x03\x00\x00\x07")?,
        plain(15, 138, Layer::Form)
    );
    assert_eq!(rt;
        joined(&rt, heap, &GOOD, &GOOD)?,
        plain(15, 138, Layer::Form)
    );
    Ok(())
}

#[test]
fn close_missing(rt: HostRuntime) -> Result<(), Fail> {
    let heap = rt.alloc();
    assert_eq!(rt;
        joined(&rt, heap, &GOOD[0..20], &GOOD[21..138])?,
        plain(15, 20, Layer::Form)
    );
    assert_eq!(rt;
        joined(&rt, heap, &GOOD[0..134], &GOOD[135..138])?,
        plain(15, 134, Layer::Form)
    );
    Ok(())
}

// Without any one of its meetings a round leaves two teams idle.
#[test]
fn meeting_missing(rt: HostRuntime) -> Result<(), Fail> {
    for round in 0..7u8 {
        let begin = 2 + 19 * round as usize;
        for k in 0..4 {
            let meet = begin + 2 + 4 * k;
            assert_eq!(rt;
                joined(&rt, rt.alloc(), &GOOD[0..meet], &GOOD[meet + 4..138])?,
                idle(begin + 14, round)
            );
        }
    }
    Ok(())
}

#[test]
fn rounds_missing_and_twice(rt: HostRuntime) -> Result<(), Fail> {
    let heap = rt.alloc();
    assert_eq!(rt;
        joined(&rt, heap, &GOOD[0..2], &GOOD[21..138])?,
        plain(16, 2, Layer::Form)
    );
    assert_eq!(rt;
        joined(&rt, heap, &GOOD[0..116], &GOOD[135..138])?,
        plain(15, 116, Layer::Form)
    );
    assert_eq!(rt;
        joined(&rt, heap, &GOOD[0..21], &GOOD[2..138])?,
        plain(16, 21, Layer::Form)
    );
    // the meetings of round 0 once more, as those of round 1
    let mut bytes = GOOD;
    bytes[23..40].copy_from_slice(&GOOD[4..21]);
    assert_eq!(rt; answer(&rt, heap, &bytes)?, league(18, 23, 1, 0));
    Ok(())
}

// Writes a round of the good sheet over another.
fn put_round(bytes: &mut [u8; 138], place: usize, round: usize)
    requires { (place < 7) × (round < 7) }
{
    let to = 2 + 19 * place;
    let from = 2 + 19 * round;
    bytes[to..to + 19].copy_from_slice(&GOOD[from..from + 19]);
}

// Two rounds exchanged are out of turn. With their numbers put right they are another sheet of a Room square.
#[test]
fn rounds_exchanged(rt: HostRuntime) -> Result<(), Fail> {
    for other in 1..7 {
        for one in 0..other {
            let mut bytes = GOOD;
            put_round(&mut bytes, one, other);
            put_round(&mut bytes, other, one);
            assert_eq!(rt;
                answer(&rt, rt.alloc(), &bytes)?,
                plain(16, 2 + 19 * one, Layer::Form)
            );
            bytes.swap(3 + 19 * one, 3 + 19 * other);
            assert_eq!(rt; answer(&rt, rt.alloc(), &bytes)?, Ok(()));
        }
    }
    Ok(())
}

#[test]
fn wrong_counts(rt: HostRuntime) -> Result<(), Fail> {
    let heap = rt.alloc();
    let rounds = &GOOD[0..135];
    assert_eq!(rt;
        joined(&rt, heap, rounds, b"\x05\x1b\x00")?,
        plain(21, 135, Layer::League)
    );
    assert_eq!(rt;
        joined(&rt, heap, rounds, b"\x05\x1c\x01")?,
        plain(21, 135, Layer::League)
    );
    assert_eq!(rt;
        joined(&rt, heap, rounds, b"\x05\x00\x1c")?,
        plain(21, 135, Layer::League)
    );
    Ok(())
}
