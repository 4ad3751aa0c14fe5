// The cyclic groups: the numbers below the order, summed modulo the order.
ghost use Rattle.std.specs.Prelude.{◌≡◌, ℕ, ◌+◌, ◌-◌, ◌%◌, ◌<◌, ◌≤◌, MatchResult};
ghost use Rattle.groups.specs.Tables.{OddOrder, cyclic};
ghost use Rattle.groups.specs.declared.refusal.Refusal.TheVariants.{Order};
ghost use Rattle.groups.specs.Cyclics.{cyclic_laws};

use crate::group::{Group, count, is_order};
use crate::refusal::Refusal;

#[derive(Clone, Copy)]
pub struct Cyclic {
    order: u8,
    ghost odd: { order % 2 ≡ 1 },
    ghost least: { 3 ≤ order },
    ghost most: { order ≤ 127 },
}

impl Cyclic {
    // The cyclic group of an order that is odd and from 3 to 127.
    pub fn new(order: u8) -> Result<Cyclic, Refusal>
        ensures { MatchResult result (λ g. (g.order ≡ order) × OddOrder order) (λ e. (e ≡ Order) × (OddOrder order → ⊥)) }
    {
        if is_order(order) {
            Ok(Cyclic { order })
        } else {
            Err(Refusal::Order)
        }
    }
}

impl Group for Cyclic {
    const LETTER: u8 = b'C';

    ghost LETTER = { 67 };

    ghost table = { λ g. cyclic g.order };

    ghost laws = { λ g. cyclic_laws g.order (g.odd, g.least, g.most) };

    fn order(&self) -> u8 {
        self.order
    }

    fn sum(&self, a: u8, b: u8) -> u8 {
        (count(a, self.order) + count(b, self.order)) % self.order
    }

    fn opposite(&self, a: u8) -> u8 {
        (self.order - count(a, self.order)) % self.order
    }
}
