// A group, typed as its orders.
ghost use Rattle.std.specs.Prelude.{◌≡◌, [], ◌∷◌, ◌++◌};
ghost use Rattle.input.specs.Grammar.{OrdersLaw};
ghost use Rattle.input.specs.Read.{as_orders, orders_of, so_far};

use crate::numeral::with_digit;

// The orders of a group: it is cyclic, or the product of two or three cyclic groups.
#[derive(Clone, Copy, Debug, PartialEq)]
pub enum Orders {
    One(u8),
    Two(u8, u8),
    Three(u8, u8, u8),
}

// Reads one, two or three numerals joined by an x.
pub fn read_orders(line: &[u8]) -> Option<Orders>
    ensures value { result ≡ orders_of line.now }
    ensures grammar { OrdersLaw line.now result }
{
    let mut orders = None;
    let mut numeral = None;
    for byte in line {
        match *byte {
            b'0'..=b'9' => numeral = Some(with_digit(numeral, *byte - b'0')),
            // An x stands behind a numeral only.
            b'x' => {
                orders = Some(with_order(orders, numeral?)?);
                numeral = None;
            }
            _ => return None,
        }
    }
    with_order(orders, numeral?)
}

// The orders with one more, or None where there are three already.
fn with_order(orders: Option<Orders>, next: u8) -> Option<Orders>
    ensures { result ≡ as_orders (so_far orders ++ (next ∷ [])) }
{
    match orders {
        None => Some(Orders::One(next)),
        Some(Orders::One(a)) => Some(Orders::Two(a, next)),
        Some(Orders::Two(a, b)) => Some(Orders::Three(a, b, next)),
        Some(Orders::Three(..)) => None,
    }
}
