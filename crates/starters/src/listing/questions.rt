// The questions of a claim.
ghost use Rattle.std.specs.Prelude.{◌≡◌, ◌+◌, ◌/◌, ◌<◌, ◌≤◌, Some, length, MatchResult};
ghost use Rattle.starters.specs.Claims.{NumbersRight, DifferencesRight, SumsRight, Found, Refused, fault};
ghost use Rattle.starters.specs.Pairs.{paired, differences, sums};

use crate::fault::Fault;
use crate::listing::Listing;
use arrayvec::ArrayVec;
use groups::group::{Group, minus};
use groups::refusal::Refusal;

// Whether each number is from 1 to n - 1 and there once. The answer no is the place of one that is not.
// Three questions ask it, each a function of its own, since each promises something else.
#[tactic(auto, using(crate::proofs::Marks::marked_more, crate::proofs::Marks::marked_again))]
fn each_once(numbers: &[u8], n: u8) -> Result<(), usize>
    requires { n ≤ 128 }
    ensures { Found n numbers.now result }
{
    let mut seen = [false; 128];
    for (place, &number) in numbers.iter().enumerate() {
        if number == 0 || number >= n || seen[number as usize] {
            return Err(place);
        }
        seen[number as usize] = true;
    }
    Ok(())
}

// A fault that names the pair of a place among numbers, width of them to a pair.
fn at_fault(refusal: Refusal, place: usize, width: usize) -> Fault
    requires few { place < 128 }
    requires some { 0 < width }
    ensures { result ≡ fault refusal (Some (place / width + 1)) }
{
    Fault {
        refusal,
        pair: Some((place / width + 1) as u8),
    }
}

// Asks whether the bytes, as many as the nonzero numbers of the group, are these numbers.
fn ask_numbers<G: Group>(group: &G, bytes: &[u8]) -> Result<(), Fault>
    requires { length bytes.now + 1 ≡ (G.table group.now).order }
    ensures { let g = G.table group.now in
        MatchResult result (λ _. NumbersRight g.order bytes.now) (Refused g bytes.now) }
{
    each_once(bytes, group.order()).map_err(|place| at_fault(Refusal::Numbers, place, 2))
}

impl<'a, G: Group> Listing<'a, G> {
    // The bytes as a listing, if they are one.
    pub(crate) fn new(group: &'a G, bytes: &'a [u8]) -> Result<Listing<'a, G>, Fault>
        ensures { MatchResult result (λ it. (it.group.now ≡ group.now) × (it.bytes.now ≡ bytes.now))
            (Refused (G.table group.now) bytes.now) }
    {
        if bytes.len() + 1 != group.order() as usize {
            return Err(Refusal::Length.into());
        }
        ask_numbers(group, bytes)?;
        Ok(Listing { group, bytes })
    }

    // Asks whether all differences of the pairs are different.
    pub(crate) fn ask_differences(&self) -> Result<(), Fault>
        ensures { let g = G.table self.now.group.now in
            let bs = self.now.bytes.now in
            MatchResult result (λ _. DifferencesRight g (paired bs)) (Refused g bs) }
    {
        let answer = each_once(&self.differences(), self.group.order());
        answer.map_err(|place| at_fault(Refusal::Differences, place, 2))
    }

    // Asks whether all sums of the pairs are nonzero and different.
    pub(crate) fn ask_sums(&self) -> Result<(), Fault>
        requires { DifferencesRight (G.table self.now.group.now) (paired self.now.bytes.now) }
        ensures { let g = G.table self.now.group.now in
            let bs = self.now.bytes.now in
            MatchResult result (λ _. SumsRight g (paired bs)) (Refused g bs) }
    {
        let answer = each_once(&self.sums(), self.group.order());
        answer.map_err(|place| at_fault(Refusal::Sums, place, 1))
    }

    // The differences of the pairs, both directions of each.
    fn differences(&self) -> ArrayVec<u8, 126>
        ensures { result.items ≡ differences (G.table self.now.group.now) (paired self.now.bytes.now) }
    {
        let mut differences = ArrayVec::new();
        for &[x, y] in self.bytes.as_chunks::<2>().0 {
            differences.push(minus(self.group, x, y));
            differences.push(minus(self.group, y, x));
        }
        differences
    }

    // The sums of the pairs. One function for these and the differences, over a closure, would be no plainer: a pair has
    // two differences and one sum.
    fn sums(&self) -> ArrayVec<u8, 63>
        ensures { result.items ≡ sums (G.table self.now.group.now) (paired self.now.bytes.now) }
    {
        let mut sums = ArrayVec::new();
        for &[x, y] in self.bytes.as_chunks::<2>().0 {
            sums.push(self.group.sum(x, y));
        }
        sums
    }
}
