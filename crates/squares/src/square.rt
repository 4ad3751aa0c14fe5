// The square of a strong starter, round by round.
ghost use Rattle.std.specs.Prelude.{◌≡◌, ◌*◌, ◌<◌, ◌≤◌, ◌++◌, length, drop};
ghost use Rattle.squares.specs.Cards.{Line, card};
ghost use Rattle.squares.specs.OneProof.{Strong-prop};
ghost use Rattle.starters.specs.Pairs.{pairs_of};
ghost use Rattle.starters.specs.Starters.{Strong};

use crate::entry::Entry;
use groups::group::{Group, minus};
use starters::starter::Starter;

// No cell is kept: each is found in the starter when it is asked for.
#[derive(Drop)]
pub(crate) struct Square<'a, G: Group> {
    pub group: &'a G,
    pub starter: Starter,
    ghost strong: { Strong (G.table group.now) (pairs_of starter) } by { Strong-prop (G.table group.now) (pairs_of starter) },
}

impl<G: Group> Square<'_, G> {
    // The round of a team. The team plays in the meeting of the pair that holds its difference from the round. Where no
    // pair does, the difference is 0, and the team meets the guest. That a team is one of the square's is asked here and below: a
    // type for it would be made at one call alone.
    pub(crate) fn entry(&self, team: u8, round: u8) -> Entry
        requires team { team ≤ (G.table self.now.group.now).order }
        requires round { round < (G.table self.now.group.now).order }
        ensures { Line (G.table self.now.group.now) (pairs_of self.now.starter) team round result.table result.venue result.opponent }
    {
        let n = self.group.order();
        if team == n {
            return Entry::with_guest(round, round);
        }
        let moved = minus(self.group, team, round);
        let Some((k, other)) = self.starter.partner(moved) else {
            return Entry::with_guest(round, n);
        };
        Entry {
            table: k as u8 + 1,
            venue: self.group.sum(round, self.group.sum(moved, other)),
            opponent: self.group.sum(other, round),
        }
    }

    // Writes the card of a team at the front of the place.
    pub(crate) fn write_card(&self, team: u8, place: &mut [u8])
        requires team { team ≤ (G.table self.now.group.now).order }
        requires room { 3 * (G.table self.now.group.now).order ≤ length place.old }
        ensures { let g = G.table self.now.group.now in
            place.new ≡ card g (pairs_of self.now.starter) team ++ drop (3 * g.order) place.old }
    {
        // No loop over the mutable chunks of the place: the library does not say what a slice holds after one.
        for round in 0..self.group.order() {
            let line: [u8; 3] = self.entry(team, round).into();
            let at = 3 * round as usize;
            place[at..at + 3].copy_from_slice(&line);
        }
    }
}
