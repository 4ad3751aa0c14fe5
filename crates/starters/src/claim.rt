// The check of a claimed starter.
ghost use Rattle.std.specs.Prelude.{◌≡◌, ◌+◌, ◌↔◌, length, IsOk};
ghost use Rattle.starters.specs.Claims.{Claimed};
ghost use Rattle.starters.specs.Pairs.{paired};
ghost use Rattle.starters.specs.Starters.{Strong};

use crate::fault::Fault;
use crate::listing::Listing;
use crate::starter::Starter;
use groups::group::Group;

// Whether the bytes list a strong starter of the group, two by two, in any order and with either number first. The
// answer is its written list.
pub fn claim<G: Group>(group: &G, bytes: &[u8]) -> Result<Starter, Fault>
    ensures claimed { Claimed (G.table group.now) bytes.now result }
    ensures strong { let g = G.table group.now in
        IsOk result ↔ ((length bytes.now + 1 ≡ g.order) × Strong g (paired bytes.now)) }
{
    let listing = Listing::new(group, bytes)?;
    listing.ask_differences()?;
    listing.ask_sums()?;
    Ok(listing.written())
}
