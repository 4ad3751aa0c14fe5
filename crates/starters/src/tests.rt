// What a claim answers on examples.
use crate::claim::claim;
use crate::fault::Fault;
use crate::pair::Pair;
use groups::cyclic::Cyclic;
use groups::group::Group;
use groups::product::Product;
use groups::refusal::Refusal;
use std::process::Abort;
use std::test::Fail;

// The fault of a claim that is refused.
fn refused<G: Group>(group: &G, bytes: &[u8]) -> Result<Fault, Fail> {
    claim(group, bytes)
        .err()
        .ok_or_else(|| Fail::new("accepted"))
}

// The pair that a refusal for a reason names.
fn pair_refused<G: Group>(
    rt: &impl Abort,
    group: &G,
    bytes: &[u8],
    refusal: Refusal,
) -> Result<u8, Fail> {
    let fault = refused(group, bytes)?;
    assert_eq!(rt; fault.refusal, refusal);
    fault.pair.ok_or_else(|| Fail::new("no pair"))
}

// Whether the answer is a list of pairs.
fn accepted<G: Group>(
    rt: &impl Abort,
    group: &G,
    bytes: &[u8],
    list: &[(u8, u8)],
) -> Result<(), Fail> {
    let starter = claim(group, bytes)?;
    assert_eq!(rt; starter.pairs().len(), list.len());
    for (pair, (first, second)) in starter.pairs().iter().zip(list) {
        assert_eq!(rt;
            *pair,
            Pair {
                first: *first,
                second: *second
            }
        );
    }
    Ok(())
}

#[test]
fn accepted_in_any_order(rt: HostRuntime) -> Result<(), Fail> {
    let group = Cyclic::new(7)?;
    let list = [(1, 3), (2, 6), (4, 5)];
    accepted(&rt, &group, &[1, 3, 2, 6, 4, 5], &list)?;
    accepted(&rt, &group, &[5, 4, 3, 1, 6, 2], &list)?;
    accepted(&rt, &group, &[6, 2, 4, 5, 1, 3], &list)?;
    accepted(&rt, &group, &[2, 6, 1, 3, 5, 4], &list)
}

#[test]
fn accepted_in_a_product(rt: HostRuntime) -> Result<(), Fail> {
    let bytes = [13, 12, 1, 10, 6, 2, 3, 11, 7, 4, 5, 8, 14, 9];
    let list = [(1, 10), (2, 6), (3, 11), (4, 7), (5, 8), (9, 14), (12, 13)];
    accepted(
        &rt,
        &Product::new(Cyclic::new(3)?, Cyclic::new(5)?)?,
        &bytes,
        &list,
    )?;
    let _pair = pair_refused(&rt, &Cyclic::new(15)?, &bytes, Refusal::Differences)?;
    Ok(())
}

#[test]
fn refused_by_length(rt: HostRuntime) -> Result<(), Fail> {
    let group = Cyclic::new(7)?;
    assert_eq!(rt; refused(&group, &[1, 3, 2, 6, 4])?, Refusal::Length.into());
    assert_eq!(rt;
        refused(&group, &[1, 3, 2, 6, 4, 5, 1])?,
        Refusal::Length.into()
    );
    assert_eq!(rt; refused(&group, &[])?, Refusal::Length.into());
    Ok(())
}

#[test]
fn refused_by_numbers(rt: HostRuntime) -> Result<(), Fail> {
    let group = Cyclic::new(7)?;
    assert_eq!(rt;
        pair_refused(&rt, &group, &[1, 3, 2, 6, 4, 0], Refusal::Numbers)?,
        3
    );
    assert_eq!(rt;
        pair_refused(&rt, &group, &[1, 3, 7, 6, 4, 5], Refusal::Numbers)?,
        2
    );
    assert_eq!(rt;
        pair_refused(&rt, &group, &[3, 3, 2, 6, 4, 5], Refusal::Numbers)?,
        1
    );
    // the number 3 is in the first pair and in the last
    let pair = pair_refused(&rt, &group, &[1, 3, 2, 6, 3, 5], Refusal::Numbers)?;
    assert!(rt; pair == 1 || pair == 3);
    Ok(())
}

#[test]
fn refused_by_differences_and_sums(rt: HostRuntime) -> Result<(), Fail> {
    let group = Cyclic::new(7)?;
    let pair = pair_refused(&rt, &group, &[1, 2, 3, 4, 5, 6], Refusal::Differences)?;
    assert!(rt; 1 <= pair && pair <= 3);
    let pair = pair_refused(&rt, &group, &[1, 6, 2, 5, 3, 4], Refusal::Sums)?;
    assert!(rt; 1 <= pair && pair <= 3);
    Ok(())
}
