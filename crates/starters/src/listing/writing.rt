// The written list of a claimed starter.
ghost use Rattle.std.specs.Prelude.{◌≡◌, ℕ, ◌/◌, ◌<◌, ◌≢◌, length, slice_index};
ghost use Rattle.starters.specs.Pairs.{paired, pairs_of, SamePairs};
ghost use Rattle.starters.specs.Starters.{Written};

use crate::listing::Listing;
use crate::pair::Pair;
use crate::starter::Starter;
use groups::group::Group;

// The other place of the same pair.
fn partner(place: usize) -> usize
    requires { place < 128 }
    ensures half { result / 2 ≡ place / 2 }
    ensures other { result ≢ place }
{
    place ^ 1
}

impl<'a, G: Group> Listing<'a, G> {
    // The place of each number in the bytes.
    fn places(&self) -> [u8; 128]
        ensures { let bs = self.now.bytes.now in
            (a : ℕ) → 0 < a → a < (G.table self.now.group.now).order →
            (slice_index result a < length bs) × (slice_index bs (slice_index result a) ≡ a) }
    {
        let mut places = [0; 128];
        for (place, &number) in self.bytes.iter().enumerate() {
            places[number as usize] = place as u8;
        }
        places
    }

    // The written list of pairs that are listed in any order: each pair stands where its smaller number comes.
    pub(crate) fn written(&self) -> Starter
        ensures same { SamePairs (paired self.now.bytes.now) (pairs_of result) }
        ensures long { length (pairs_of result) ≡ length (paired self.now.bytes.now) }
        ensures written { Written (pairs_of result) }
    {
        let places = self.places();
        let mut starter = Starter::empty();
        for first in 1..self.group.order() {
            let second = self.bytes[partner(places[first as usize] as usize)];
            if first < second {
                starter.push(Pair { first, second });
            }
        }
        starter
    }
}
