// The product of two groups of any kinds, which may be products themselves.
ghost use Rattle.std.specs.Prelude.{◌≡◌, ℕ, ◌+◌, ◌*◌, ◌<◌, ◌≤◌, MatchOption, MatchResult};
ghost use Rattle.groups.specs.Tables.{OddOrder, counted, parts, product};
ghost use Rattle.groups.specs.declared.refusal.Refusal.TheVariants.{Order};
ghost use Rattle.groups.specs.Products.{product_laws};

use crate::group::{Group, count};
use crate::refusal::Refusal;

// The element with parts a and b has the number a * k + b, where k is the second order, and the parts are
// summed separately. Two groups whose orders multiply past 127 are no product: such a value counts as its
// second group, and none is handed out.
#[derive(Drop)]
pub struct Product<G, H> {
    first: G,
    second: H,
}

impl<G: Group + Drop, H: Group + Drop> Product<G, H> {
    // The product of two groups, where its order is at most 127.
    pub fn new(first: G, second: H) -> Result<Product<G, H>, Refusal>
        ensures { MatchResult result (λ p. (p.first ≡ first) × (p.second ≡ second) × OddOrder ((G.table first).order * (H.table second).order)) (λ e. (e ≡ Order) × (OddOrder ((G.table first).order * (H.table second).order) → ⊥)) }
    {
        let product = Product { first, second };
        match product.joint_order(product.second.order()) {
            Some(_) => Ok(product),
            None => Err(Refusal::Order),
        }
    }
}

impl<G: Group, H: Group> Product<G, H> {
    // The two orders multiplied, or None past 127. The second order is handed in, so that a call asks each group for its order
    // once: a product may stand in a product, and asking twice would double the work at each level.
    fn joint_order(&self, second: u8) -> Option<u8>
        requires { second ≡ (H.table self.now.second).order }
        ensures { MatchOption result (127 < (G.table self.now.first).order * (H.table self.now.second).order) (λ n. (n ≡ (G.table self.now.first).order * (H.table self.now.second).order) × (n ≤ 127)) }
    {
        let n = self.first.order() as u16 * second as u16;
        if n <= 127 { Some(n as u8) } else { None }
    }
}

impl<G: Group, H: Group> Group for Product<G, H> {
    const LETTER: u8 = b'P';

    ghost LETTER = { 80 };

    ghost table = { λ p. product (G.table p.first) (H.table p.second) };

    ghost laws = { λ p. product_laws (G.table p.first) (H.table p.second) (G.laws p.first) (H.laws p.second) };

    fn order(&self) -> u8 {
        let k = self.second.order();
        self.joint_order(k).unwrap_or(k)
    }

    fn sum(&self, a: u8, b: u8) -> u8 {
        let k = self.second.order();
        let Some(n) = self.joint_order(k) else {
            return self.second.sum(a, b);
        };
        let a = count(a, n);
        let b = count(b, n);
        let upper = self.first.sum(a / k, b / k);
        let lower = self.second.sum(a % k, b % k);
        upper * k + lower
    }

    fn opposite(&self, a: u8) -> u8 {
        let k = self.second.order();
        let Some(n) = self.joint_order(k) else {
            return self.second.opposite(a);
        };
        let a = count(a, n);
        let upper = self.first.opposite(a / k);
        let lower = self.second.opposite(a % k);
        upper * k + lower
    }
}
