// What the groups answer on examples.
use crate::cyclic::Cyclic;
use crate::group::{Group, minus};
use crate::product::Product;
use crate::refusal::Refusal;
use std::process::Abort;
use std::test::Fail;

#[test]
fn orders_made_and_refused(rt: HostRuntime) -> Result<(), Fail> {
    assert_eq!(rt; Cyclic::new(3)?.order(), 3);
    assert_eq!(rt; Cyclic::new(127)?.order(), 127);
    for order in [0, 1, 8, 128, 129, 255] {
        assert_eq!(rt; Cyclic::new(order).err(), Some(Refusal::Order));
    }
    Ok(())
}

#[test]
fn cyclic_of_7(rt: HostRuntime) -> Result<(), Fail> {
    let group = Cyclic::new(7)?;
    assert_eq!(rt; group.sum(5, 4), 2);
    assert_eq!(rt; group.opposite(2), 5);
    assert_eq!(rt; group.opposite(0), 0);
    assert_eq!(rt; minus(&group, 2, 5), 4);
    // an operand of the order or more counts as 0
    assert_eq!(rt; group.sum(7, 3), 3);
    assert_eq!(rt; group.sum(3, 255), 3);
    assert_eq!(rt; group.opposite(8), 0);
    assert_eq!(rt; minus(&group, 9, 2), 5);
    assert_eq!(rt; group.kind_letter(), b'C');
    Ok(())
}

#[test]
fn product_of_two_threes(rt: HostRuntime) -> Result<(), Fail> {
    let group = Product::new(Cyclic::new(3)?, Cyclic::new(3)?)?;
    assert_eq!(rt; group.order(), 9);
    assert_eq!(rt; group.sum(2, 2), 1);
    assert_eq!(rt; group.sum(5, 7), 0);
    assert_eq!(rt; group.opposite(5), 7);
    assert_eq!(rt; minus(&group, 2, 5), 6);
    // an operand of the order or more counts as 0, the whole number and not its parts
    assert_eq!(rt; group.sum(10, 4), 4);
    assert_eq!(rt; group.sum(4, 255), 4);
    assert_eq!(rt; group.opposite(10), 0);
    assert_eq!(rt; group.kind_letter(), b'P');
    Ok(())
}

// A group of 3 x 3 x 7, however it is nested.
fn is_3_3_7<G: Group>(rt: &impl Abort, group: &G) {
    assert_eq!(rt; group.order(), 63);
    assert_eq!(rt; G::LETTER, b'P');
    assert_eq!(rt; group.kind_letter(), b'P');
    assert_eq!(rt; group.sum(62, 62), 33);
    assert_eq!(rt; group.sum(20, 8), 0);
    assert_eq!(rt; group.sum(40, 30), 42);
    assert_eq!(rt; group.opposite(40), 51);
    assert_eq!(rt; group.sum(63, 5), 5);
}

#[test]
fn product_nested_both_ways(rt: HostRuntime) -> Result<(), Fail> {
    is_3_3_7(
        &rt,
        &Product::new(
            Product::new(Cyclic::new(3)?, Cyclic::new(3)?)?,
            Cyclic::new(7)?,
        )?,
    );
    is_3_3_7(
        &rt,
        &Product::new(
            Cyclic::new(3)?,
            Product::new(Cyclic::new(3)?, Cyclic::new(7)?)?,
        )?,
    );
    Ok(())
}

#[test]
fn product_past_127(rt: HostRuntime) -> Result<(), Fail> {
    assert_eq!(rt;
        Product::new(Cyclic::new(5)?, Cyclic::new(25)?)?.order(),
        125
    );
    // They would have the orders 143 and 129.
    assert_eq!(rt;
        Product::new(Cyclic::new(11)?, Cyclic::new(13)?).err(),
        Some(Refusal::Order)
    );
    assert_eq!(rt;
        Product::new(Cyclic::new(3)?, Cyclic::new(43)?).err(),
        Some(Refusal::Order)
    );
    Ok(())
}

#[test]
fn numbers_of_the_refusals(rt: HostRuntime) {
    let all = [
        (Refusal::Order, 1),
        (Refusal::Allowance, 5),
        (Refusal::Exhausted, 6),
        (Refusal::NoStarter, 7),
        (Refusal::Place, 8),
        (Refusal::Length, 9),
        (Refusal::Numbers, 10),
        (Refusal::Differences, 11),
        (Refusal::Sums, 12),
        (Refusal::Command, 13),
        (Refusal::Operands, 14),
        (Refusal::Turn, 15),
        (Refusal::Range, 16),
        (Refusal::Round, 17),
        (Refusal::Venue, 18),
        (Refusal::Met, 19),
        (Refusal::Idle, 20),
        (Refusal::Count, 21),
        (Refusal::Team, 22),
    ];
    for (refusal, number) in all {
        assert_eq!(rt; refusal.number(), number);
    }
}

#[test]
fn a_refusal_is_shown_by_its_number(rt: HostRuntime) -> Result<(), Fail> {
    let text = Refusal::Team.to_string(rt.alloc())?;
    assert_eq!(rt; text.as_str(), "22");
    Ok(())
}
