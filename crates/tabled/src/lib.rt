// A kind of group from outside the crate of groups: seven numbers whose sums stand in a table.
#![tactic(auto)]

ghost use Rattle.tabled.specs.Seven.{seven};
ghost use Rattle.tabled.specs.Sevens.{seven_laws};

use groups::group::{Group, count};

// The sum of a and b stands at place b of row a.
const SUMS: [[u8; 7]; 7] = [
    [0, 1, 2, 3, 4, 5, 6],
    [1, 4, 6, 2, 5, 3, 0],
    [2, 6, 5, 4, 0, 1, 3],
    [3, 2, 4, 1, 6, 0, 5],
    [4, 5, 0, 6, 3, 2, 1],
    [5, 3, 1, 0, 2, 6, 4],
    [6, 0, 3, 5, 1, 4, 2],
];

// The opposite of a stands at place a, so that no row is searched.
const OPPOSITES: [u8; 7] = [0, 6, 4, 5, 2, 3, 1];

// It has no data: every value is the same group.
#[derive(Clone, Copy)]
pub struct Tabled;

impl Group for Tabled {
    const LETTER: u8 = b'T';

    ghost LETTER = { 84 };

    ghost table = { λ _. seven };

    ghost laws = { λ g. seven_laws };

    fn order(&self) -> u8 {
        7
    }

    fn sum(&self, a: u8, b: u8) -> u8 {
        SUMS[count(a, 7) as usize][count(b, 7) as usize]
    }

    fn opposite(&self, a: u8) -> u8 {
        OPPOSITES[count(a, 7) as usize]
    }
}

#[cfg(test)]
mod tests {
    use super::*;
    use groups::cyclic::Cyclic;
    use groups::product::Product;
    use groups::refusal::Refusal;
    use starters::claim::claim;
    use std::test::Fail;

    #[test]
    fn reads_the_table(rt: HostRuntime) {
        assert_eq!(rt; Tabled.sum(1, 2), 6);
        assert_eq!(rt; Tabled.sum(5, 5), 6);
        assert_eq!(rt; Tabled.sum(3, Tabled.opposite(3)), 0);
        assert_eq!(rt; Tabled.opposite(1), 6);
    }

    #[test]
    fn large_operands_count_as_zero(rt: HostRuntime) {
        assert_eq!(rt; Tabled.sum(7, 2), 2);
        assert_eq!(rt; Tabled.sum(2, 255), 2);
        assert_eq!(rt; Tabled.opposite(7), 0);
    }

    #[test]
    fn is_a_part_of_a_product(rt: HostRuntime) -> Result<(), Fail> {
        let product = Product::new(Cyclic::new(3)?, Tabled)?;
        assert_eq!(rt; product.order(), 21);
        assert_eq!(rt; product.kind_letter(), b'P');
        // The parts are 1 and 1, and 2 and 6.
        assert_eq!(rt; product.sum(8, 20), 0);
        Ok(())
    }

    #[test]
    fn claims_are_judged_by_its_table(rt: HostRuntime) {
        assert!(rt; claim(&Tabled, &[2, 1, 5, 4, 6, 3]).is_ok());
        // A strong starter of the cyclic group of order 7, which numbers its elements otherwise.
        let answer = claim(&Tabled, &[1, 3, 2, 6, 4, 5]).map_err(|fault| fault.refusal);
        assert_eq!(rt; answer.err(), Some(Refusal::Differences));
    }
}
