// The examples of the document on sheets.
use crate::entry::league_check;
use crate::fault::Layer;
use crate::tests::answers::{idle, league, plain};
use crate::tests::{GOOD, answer, joined};
use std::test::Fail;

#[test]
fn accepted(rt: HostRuntime) -> Result<(), Fail> {
    assert_eq!(rt; answer(&rt, rt.alloc(), &GOOD)?, Ok(()));
    Ok(())
}

// The lines of the document's table up to the first round.
#[test]
fn documented_at_the_beginning(rt: HostRuntime) -> Result<(), Fail> {
    let heap = rt.alloc();
    assert_eq!(rt; answer(&rt, heap, b"")?, plain(14, 0, Layer::Bytes));
    assert_eq!(rt; answer(&rt, heap, b"\x00")?, plain(13, 0, Layer::Bytes));
    assert_eq!(rt; answer(&rt, heap, b"\x06")?, plain(13, 0, Layer::Bytes));
    assert_eq!(rt; answer(&rt, heap, b"\x01")?, plain(14, 0, Layer::Bytes));
    assert_eq!(rt; answer(&rt, heap, b"\x05\x01")?, plain(14, 0, Layer::Bytes));
    assert_eq!(rt; answer(&rt, heap, b"\x02\x00")?, plain(15, 0, Layer::Form));
    assert_eq!(rt; answer(&rt, heap, b"\x01\x08")?, plain(16, 0, Layer::Form));
    assert_eq!(rt; answer(&rt, heap, b"\x01\x81")?, plain(16, 0, Layer::Form));
    assert_eq!(rt; answer(&rt, heap, b"\x01\x07")?, plain(14, 2, Layer::Bytes));
    assert_eq!(rt;
        answer(&rt, heap, b"\x01\x07\x04")?,
        plain(15, 2, Layer::Form)
    );
    assert_eq!(rt;
        answer(&rt, heap, b"\x01\x07\x02\x01")?,
        plain(16, 2, Layer::Form)
    );
    assert_eq!(rt;
        answer(&rt, heap, b"\x01\x07\x05\x1c\x00")?,
        plain(15, 2, Layer::Form)
    );
    Ok(())
}

// The lines of the table about the first two rounds.
#[test]
fn documented_in_rounds(rt: HostRuntime) -> Result<(), Fail> {
    let heap = rt.alloc();
    let open = b"\x01\x07\x02\x00";
    assert_eq!(rt;
        joined(&rt, heap, open, b"\x02")?,
        plain(14, 4, Layer::Bytes)
    );
    assert_eq!(rt;
        joined(&rt, heap, open, b"\x02\x02")?,
        plain(15, 4, Layer::Form)
    );
    assert_eq!(rt;
        joined(&rt, heap, open, b"\x03\x04")?,
        plain(14, 4, Layer::Bytes)
    );
    assert_eq!(rt;
        joined(&rt, heap, open, b"\x03\x00\x07\x00")?,
        plain(16, 4, Layer::Form)
    );
    let one = b"\x01\x07\x02\x00\x03\x00\x00\x07";
    assert_eq!(rt;
        joined(&rt, heap, one, b"\x03\x00\x02\x06")?,
        plain(16, 8, Layer::Form)
    );
    assert_eq!(rt;
        joined(&rt, heap, one, b"\x03\x01\x00\x06")?,
        league(17, 8, 0, 1)
    );
    assert_eq!(rt; joined(&rt, heap, one, b"\x04")?, idle(8, 0));
    assert_eq!(rt;
        answer(&rt, heap, &GOOD[0..20])?,
        plain(14, 20, Layer::Bytes)
    );
    let closed = &GOOD[0..21];
    assert_eq!(rt;
        joined(&rt, heap, closed, b"\x01\x07")?,
        plain(15, 21, Layer::Form)
    );
    assert_eq!(rt;
        joined(&rt, heap, closed, b"\x02\x01\x03\x00\x00\x03")?,
        league(18, 23, 1, 0)
    );
    assert_eq!(rt;
        joined(&rt, heap, closed, b"\x02\x01\x03\x03\x00\x07")?,
        league(19, 23, 1, 3)
    );
    Ok(())
}

// The lines of the table about END and what follows it.
#[test]
fn documented_at_the_end(rt: HostRuntime) -> Result<(), Fail> {
    let heap = rt.alloc();
    let rounds = &GOOD[0..135];
    assert_eq!(rt; answer(&rt, heap, rounds)?, plain(14, 135, Layer::Bytes));
    assert_eq!(rt;
        answer(&rt, heap, &GOOD[0..137])?,
        plain(14, 135, Layer::Bytes)
    );
    assert_eq!(rt;
        joined(&rt, heap, rounds, b"\x02\x07")?,
        plain(15, 135, Layer::Form)
    );
    assert_eq!(rt;
        joined(&rt, heap, rounds, b"\x05\x1d\x00")?,
        plain(21, 135, Layer::League)
    );
    assert_eq!(rt;
        joined(&rt, heap, &GOOD, b"\x00")?,
        plain(13, 138, Layer::Bytes)
    );
    assert_eq!(rt;
        joined(&rt, heap, &GOOD, b"\x03")?,
        plain(14, 138, Layer::Bytes)
    );
    assert_eq!(rt;
        joined(&rt, heap, &GOOD, b"\x04")?,
        plain(15, 138, Layer::Form)
    );
    assert_eq!(rt;
        joined(&rt, heap, &GOOD, b"\x05\x1c\x00")?,
        plain(15, 138, Layer::Form)
    );
    Ok(())
}

// The numbers that the document gives for a program written in C.
#[test]
fn packed_for_c(rt: HostRuntime) {
    assert_eq!(rt; league_check(&GOOD), 0);
    assert_eq!(rt; league_check(b""), 917504);
    let mut bytes = [0; 27];
    bytes[0..21].copy_from_slice(&GOOD[0..21]);
    bytes[21..27].copy_from_slice(b"\x02\x01\x03\x00\x00\x03");
    assert_eq!(rt; league_check(&bytes), 1179671);
}
