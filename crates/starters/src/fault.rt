// Why a claimed starter is refused.
ghost use Rattle.std.specs.Prelude.{◌≡◌, None};
ghost use Rattle.starters.specs.Claims.{fault};

use groups::refusal::Refusal;

// With questions 10, 11 and 12 the fault names a pair, by its place from 1 in the list as given.
#[derive(Clone, Copy, Debug, PartialEq, Eq)]
pub struct Fault {
    pub refusal: Refusal,
    pub pair: Option<u8>,
}

// A refusal alone names no pair.
impl From<Refusal> for Fault {
    ghost from_gives = { λ refusal it. it ≡ fault refusal None };

    fn from(refusal: Refusal) -> Fault {
        Fault {
            refusal,
            pair: None,
        }
    }
}
