// What is read back from the good sheet.
use crate::fault::Layer;
use crate::sheet::read;
use crate::teams::Teams;
use crate::tests::GOOD;
use crate::tests::answers::{Told, plain};
use std::test::Fail;

// The teams of a cell of the good sheet, looked up among all of its meetings.
fn expected(round: u8, venue: u8) -> Option<Teams> {
    let round_bytes = GOOD[2..135].chunks_exact(19).nth(round as usize)?;
    let meet = round_bytes
        .get(2..18)?
        .chunks_exact(4)
        .find(|meet| meet.get(1) == Some(&venue))?;
    match meet {
        [_, _, lower, higher] => Some(Teams {
            lower: *lower,
            higher: *higher,
        }),
        _ => None,
    }
}

#[test]
fn every_cell(rt: HostRuntime) -> Result<(), Fail> {
    let sheet = read(&GOOD)?;
    assert_eq!(rt; sheet.side(), 7);
    let mut meetings = 0usize;
    for round in 0..=255 {
        for venue in 0..=255 {
            assert_eq!(rt; sheet.meeting(round, venue), expected(round, venue));
        }
        let played = (0..=255u8)
            .filter(|venue| sheet.meeting(round, *venue).is_some())
            .count();
        meetings = meetings.saturating_add(played);
    }
    assert_eq!(rt; meetings, 28);
    Ok(())
}

#[test]
fn not_read(rt: HostRuntime) {
    let answer = read(&GOOD[0..135]).map(|_| ()).map_err(Told::from);
    assert_eq!(rt; answer, plain(14, 135, Layer::Bytes));
}
