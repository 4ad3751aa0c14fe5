// An answer of the reader in plain parts, which a second reading can give too. Refusals are named by the numbers of the rules.
use crate::fault::{Fault, Layer};

#[derive(Clone, Copy, PartialEq, Debug)]
pub(crate) struct Told {
    pub(crate) number: u8,
    pub(crate) place: usize,
    pub(crate) layer: Layer,
    pub(crate) round: Option<u8>,
    pub(crate) venue: Option<u8>,
}

impl From<Fault> for Told {
    fn from(fault: Fault) -> Told {
        Told {
            number: fault.refusal.number(),
            place: fault.place,
            layer: fault.layer,
            round: fault.round,
            venue: fault.venue,
        }
    }
}

// A fault with no round and no venue.
pub(crate) fn plain(number: u8, place: usize, layer: Layer) -> Result<(), Told> {
    Err(Told {
        number,
        place,
        layer,
        round: None,
        venue: None,
    })
}

// A fault of a meeting.
pub(crate) fn league(number: u8, place: usize, round: u8, venue: u8) -> Result<(), Told> {
    Err(Told {
        number,
        place,
        layer: Layer::League,
        round: Some(round),
        venue: Some(venue),
    })
}

// A fault of a CLOSE.
pub(crate) fn idle(place: usize, round: u8) -> Result<(), Told> {
    Err(Told {
        number: 20,
        place,
        layer: Layer::League,
        round: Some(round),
        venue: None,
    })
}
