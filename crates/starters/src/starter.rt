// A starter as it is written: a list of at most 63 pairs, as many as the largest order has.
ghost use Rattle.std.specs.Prelude.{◌≡◌, ◌≤◌, length, take};

use crate::pair::Pair;

mod calls;

// A starter can be copied and takes no heap. An ArrayVec cannot be copied, so it stays an array with the count of its pairs.
#[derive(Clone, Copy)]
pub struct Starter {
    pairs: [Pair; 63],
    count: u8,
    ghost few: { count ≤ 63 },
    ghost long: { length (take count pairs) ≡ count },
}
