// Why bytes are not a sheet.
ghost use Rattle.std.specs.Prelude.{◌≡◌, Some};
ghost use Rattle.sheets.specs.Faults.{layer_name, layer_of, fault_of, bytes_fault};

use crate::command::Command;
use crate::stage::Stage;
use groups::refusal::Refusal;
use std::fmt;

// What a question is about: the bytes, their form, or the league.
#[derive(Clone, Copy, Debug, PartialEq, Eq)]
pub enum Layer {
    Bytes,
    Form,
    League,
}

// A layer is shown by its name.
impl fmt::Display for Layer {
    ghost output = { λ layer. Some (layer_name layer) };

    fn fmt<W: fmt::Write>(&self, f: &mut fmt::Formatter<W>) -> fmt::Result {
        match self {
            Layer::Bytes => f.write_str("bytes"),
            Layer::Form => f.write_str("form"),
            Layer::League => f.write_str("league"),
        }
    }
}

// The first question that is answered no, and the place of its command's first byte; the round with questions 17 to 20, the
// venue with 17 to 19.
#[derive(Clone, Copy, Debug, PartialEq, Eq)]
pub struct Fault {
    pub refusal: Refusal,
    pub place: usize,
    pub layer: Layer,
    pub round: Option<u8>,
    pub venue: Option<u8>,
}

// The layer of a question.
impl From<Refusal> for Layer {
    ghost from_gives = { λ refusal layer. layer ≡ layer_of refusal };

    fn from(refusal: Refusal) -> Layer {
        match refusal {
            Refusal::Turn | Refusal::Range => Layer::Form,
            Refusal::Round
            | Refusal::Venue
            | Refusal::Met
            | Refusal::Idle
            | Refusal::Count
            | Refusal::Team => Layer::League,
            _ => Layer::Bytes,
        }
    }
}

// A fault where no command stands.
pub(crate) fn bytes_fault(place: usize, refusal: Refusal) -> Fault
    ensures { result ≡ bytes_fault place refusal }
{
    Fault {
        refusal,
        place,
        layer: Layer::from(refusal),
        round: None,
        venue: None,
    }
}

// A fault of a command.
pub(crate) fn fault_of(stage: Stage, command: Command, place: usize, refusal: Refusal) -> Fault
    ensures { result ≡ fault_of stage command place refusal }
{
    let round = match (stage, refusal) {
        (
            Stage::Open { round, .. },
            Refusal::Round | Refusal::Venue | Refusal::Met | Refusal::Idle,
        ) => Some(round),
        _ => None,
    };
    let venue = match (command, refusal) {
        (Command::Meet { venue, .. }, Refusal::Round | Refusal::Venue | Refusal::Met) => {
            Some(venue)
        }
        _ => None,
    };
    Fault {
        round,
        venue,
        ..bytes_fault(place, refusal)
    }
}
