// Two elements of a group, by their numbers.
ghost use Rattle.std.specs.Prelude.{MatchOption};
ghost use Rattle.starters.specs.Pairs.{Alike, Holds};

#[derive(Clone, Copy, Debug, PartialEq, Eq)]
pub struct Pair {
    pub first: u8,
    pub second: u8,
}

impl Pair {
    // The other number of a pair that holds a number.
    pub(crate) fn other(&self, number: u8) -> Option<u8>
        ensures { MatchOption result (¬ Holds number self.now) (λ other. Alike self.now (record { first = number; second = other })) }
    {
        if self.first == number {
            Some(self.second)
        } else if self.second == number {
            Some(self.first)
        } else {
            None
        }
    }
}
