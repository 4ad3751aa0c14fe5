// The calls of a starter's list.
ghost use Rattle.std.specs.Prelude.{◌≡◌, ℕ, ◌+◌, ◌<◌, [], ◌∷◌, ◌++◌, length, MatchOption};
ghost use Rattle.starters.specs.Pairs.{at, pairs_of, Alike, Holds};

use crate::pair::Pair;
use crate::starter::Starter;

impl Starter {
    // The list of no pairs.
    pub(crate) fn empty() -> Starter
        ensures list { pairs_of result ≡ [] }
        ensures count { result.count ≡ 0 }
    {
        Starter {
            pairs: [Pair {
                first: 0,
                second: 0,
            }; 63],
            count: 0,
        }
    }

    // One pair more at the end.
    pub(crate) fn push(&mut self, pair: Pair)
        requires { self.old.count < 63 }
        ensures list { pairs_of self.new ≡ pairs_of self.old ++ (pair ∷ []) }
        ensures count { self.new.count ≡ self.old.count + 1 }
    {
        self.pairs[self.count as usize] = pair;
        self.count += 1;
    }

    // The place, from 0, of the pair that holds a number, and the other number of the pair.
    pub fn partner(&self, number: u8) -> Option<(usize, u8)>
        ensures { MatchOption result ((k : ℕ) → k < length (pairs_of self.now) → Holds number (at (pairs_of self.now) k) → ⊥) (λ p. (p.0 < length (pairs_of self.now)) × Alike (at (pairs_of self.now) p.0) (record { first = number; second = p.1 })) }
    {
        self.pairs()
            .iter()
            .enumerate()
            .find_map(|(k, pair)| pair.other(number).map(|other| (k, other)))
    }

    // The pairs, in list order.
    pub fn pairs(&self) -> &[Pair]
        ensures { result.now ≡ pairs_of self.now }
    {
        &self.pairs[0..self.count as usize]
    }
}
