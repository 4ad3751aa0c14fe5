// One round of a team: where it plays, and against whom.
ghost use Rattle.std.specs.Prelude.{◌≡◌, [], ◌∷◌};

#[derive(Clone, Copy)]
pub(crate) struct Entry {
    pub table: u8,
    pub venue: u8,
    pub opponent: u8,
}

impl Entry {
    // A meeting with the guest is at table 0, and at the venue of the round.
    pub(crate) fn with_guest(round: u8, opponent: u8) -> Entry
        ensures { result ≡ record { table = 0; venue = round; opponent = opponent } }
    {
        Entry {
            table: 0,
            venue: round,
            opponent,
        }
    }
}

// The three bytes that a card has for the round.
impl From<Entry> for [u8; 3] {
    ghost from_gives = { λ entry bytes. bytes ≡ entry.table ∷ (entry.venue ∷ (entry.opponent ∷ [])) };

    fn from(entry: Entry) -> [u8; 3] {
        [entry.table, entry.venue, entry.opponent]
    }
}
