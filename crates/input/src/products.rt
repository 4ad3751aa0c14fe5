// The products of cyclic groups that orders stand for.
ghost use Rattle.std.specs.Prelude.{◌≡◌, MatchResult};
ghost use Rattle.groups.specs.declared.refusal.Refusal.TheVariants.{Order};
ghost use Rattle.input.specs.Groups.{Made};
ghost use Rattle.input.specs.declared.orders.Orders.TheVariants.{Two, Three};

use groups::cyclic::Cyclic;
use groups::product::Product;
use groups::refusal::Refusal;

pub type Double = Product<Cyclic, Cyclic>;

pub type Triple = Product<Double, Cyclic>;

// The product of two cyclic groups.
pub fn double(a: u8, b: u8) -> Result<Double, Refusal>
    ensures { MatchResult result (λ p. (p.first.order ≡ a) × (p.second.order ≡ b) × Made (Two a b)) (λ e. (e ≡ Order) × (Made (Two a b) → ⊥)) }
{
    Product::new(Cyclic::new(a)?, Cyclic::new(b)?)
}

// The product of that product and a third cyclic group.
pub fn triple(a: u8, b: u8, c: u8) -> Result<Triple, Refusal>
    ensures { MatchResult result (λ p. (p.first.first.order ≡ a) × (p.first.second.order ≡ b) × (p.second.order ≡ c) × Made (Three a b c)) (λ e. (e ≡ Order) × (Made (Three a b c) → ⊥)) }
{
    Product::new(double(a, b)?, Cyclic::new(c)?)
}
