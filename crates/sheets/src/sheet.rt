// An accepted sheet, as a view of its bytes.
ghost use Rattle.std.specs.Prelude.{◌≡◌, Ok as Right, Err as Wrong, MatchResult};
ghost use Rattle.sheets.specs.Readings.{RoomSheet, Checked, SideOf, CellOf};

use crate::check::check;
use crate::fault::Fault;
use crate::parse::first_meeting;
use crate::teams::Teams;

// Only `read` makes one, of the bytes of a Room square.
#[derive(Clone, Copy)]
pub struct Sheet<'a> {
    bytes: &'a [u8],
    ghost real: { ∥ RoomSheet bytes.now ∥₁ },
}

// A view of bytes that are accepted.
pub fn read(bytes: &[u8]) -> Result<Sheet<'_>, Fault>
    ensures { MatchResult result (λ s. (s.bytes.now ≡ bytes.now) × Checked bytes.now (Right tt)) (λ f. Checked bytes.now (Wrong f)) }
{
    check(bytes)?;
    Ok(Sheet { bytes })
}

impl<'a> Sheet<'a> {
    pub fn side(&self) -> u8
        ensures { SideOf self.now.bytes.now result }
    {
        self.bytes[1]
    }

    // The two teams that meet in a round at a venue, or None where no teams do, and outside of the square.
    pub fn meeting(&self, round: u8, venue: u8) -> Option<Teams>
        ensures { CellOf self.now.bytes.now round venue result }
    {
        let side = self.side();
        if round >= side {
            return None;
        }
        // Behind SIDE each round has as many bytes, and its meetings stand behind its ROUND.
        let start = 2 + round as usize * (2 * side as usize + 5) + 2;
        let mut rest = &self.bytes[start..];
        // As a chain: `successors(first_meeting(rest), |m| first_meeting(m.2)).find(|m| m.0 == venue)`, which is no plainer.
        while let Some((at, teams, tail)) = first_meeting(rest) {
            if at == venue {
                return Some(teams);
            }
            rest = tail;
        }
        None
    }
}
