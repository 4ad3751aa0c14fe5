// Cards on examples.
use crate::card::card;
use groups::cyclic::Cyclic;
use groups::product::Product;
use groups::refusal::Refusal;
use std::test::Fail;

#[test]
fn cards_of_team_0_and_of_the_guest(rt: HostRuntime) -> Result<(), Fail> {
    let group = Cyclic::new(7)?;
    let mut place = [99; 24];
    assert_eq!(rt; card(&group, &[1, 3, 2, 6, 4, 5], 0, &mut place), Ok(21));
    let lines = [
        [0, 0, 7],
        [2, 2, 3],
        [3, 4, 6],
        [3, 5, 1],
        [1, 1, 5],
        [2, 6, 4],
        [1, 3, 2],
        [99, 99, 99],
    ];
    assert_eq!(rt; place.as_slice(), lines.as_flattened());
    assert_eq!(rt; card(&group, &[5, 4, 3, 1, 6, 2], 7, &mut place), Ok(21));
    for (round, line) in (0..7).zip(place.as_chunks::<3>().0) {
        assert_eq!(rt; *line, [0, round, round]);
    }
    assert_eq!(rt; place[21], 99);
    Ok(())
}

#[test]
fn refusals_in_order(rt: HostRuntime) -> Result<(), Fail> {
    let group = Cyclic::new(7)?;
    let right = [1, 3, 2, 6, 4, 5];
    let mut place = [99; 21];
    assert_eq!(rt;
        card(&group, &right, 8, &mut place),
        Err(Refusal::Team.into())
    );
    // Which pair is named is left open.
    let answer = card(&group, &[1, 6, 2, 5, 3, 4], 8, &mut place).map_err(|fault| fault.refusal);
    assert_eq!(rt; answer, Err(Refusal::Sums));
    assert_eq!(rt; place, [99; 21]);
    let mut short = [99; 20];
    assert_eq!(rt;
        card(&group, &right, 7, &mut short),
        Err(Refusal::Place.into())
    );
    assert_eq!(rt;
        card(&group, &right, 8, &mut short),
        Err(Refusal::Team.into())
    );
    assert_eq!(rt; short, [99; 20]);
    Ok(())
}

// The group 3 x 3 x 3, and team 13, which is (1, 1, 1) and meets the guest in round 13.
#[test]
fn card_of_a_product_nested_twice(rt: HostRuntime) -> Result<(), Fail> {
    let group = Product::new(
        Product::new(Cyclic::new(3)?, Cyclic::new(3)?)?,
        Cyclic::new(3)?,
    )?;
    let bytes =
        b"\x01\x17\x02\x05\x03\x10\x04\x16\x06\x19\x07\x0d\x08\x13\x09\x0e\x0a\x0b\x0c\x1a\x0f\x12\x11\x18\x14\x15";
    let mut place = [99; 81];
    assert_eq!(rt; card(&group, bytes, 13, &mut place), Ok(81));
    let lines = [
        [6, 11, 7],
        [10, 0, 24],
        [8, 22, 11],
        [9, 21, 14],
        [8, 24, 15],
        [9, 23, 12],
        [3, 16, 0],
        [11, 4, 25],
        [12, 1, 23],
        [4, 8, 4],
        [3, 20, 26],
        [2, 12, 10],
        [1, 6, 8],
        [0, 13, 27],
        [2, 15, 16],
        [6, 26, 19],
        [5, 2, 5],
        [7, 5, 6],
        [4, 17, 22],
        [13, 3, 9],
        [1, 14, 18],
        [7, 9, 20],
        [11, 19, 1],
        [13, 7, 17],
        [5, 10, 21],
        [12, 18, 3],
        [10, 25, 2],
    ];
    assert_eq!(rt; place.as_slice(), lines.as_flattened());
    Ok(())
}
