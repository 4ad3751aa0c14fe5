// The movement card of a team.
ghost use Rattle.squares.specs.Cards.{Carded};

use crate::square::Square;
use groups::group::Group;
use groups::refusal::Refusal;
use starters::claim::claim;
use starters::fault::Fault;

// Writes the card of a team in the square of a claimed starter: three bytes for each round, table, venue and opponent. The
// answer is the card's length.
pub fn card<G: Group>(group: &G, bytes: &[u8], team: u8, place: &mut [u8]) -> Result<usize, Fault>
    ensures { Carded (G.table group.now) bytes.now team place.old place.new result }
{
    let starter = claim(group, bytes)?;
    let n = group.order();
    if team > n {
        return Err(Refusal::Team.into());
    }
    let length = 3 * n as usize;
    if place.len() < length {
        return Err(Refusal::Place.into());
    }
    Square { group, starter }.write_card(team, place);
    Ok(length)
}
