// The lines of the answer.
ghost use Rattle.std.specs.Prelude.{Some};
ghost use Rattle.sheet_check.specs.Texts.{accepted_line, part, refused_line};

use sheets::fault::Fault;
use std::fmt;

// The bytes are the sheet of a Room square of this side.
#[derive(Clone, Copy)]
pub struct Accepted {
    pub side: u8,
}

impl fmt::Display for Accepted {
    ghost output = { λ accepted. Some (accepted_line accepted.side) };

    fn fmt<W: fmt::Write>(&self, f: &mut fmt::Formatter<W>) -> fmt::Result {
        let n = u32::from(self.side);
        let meetings = n * (n + 1) / 2;
        writeln!(f, "ACCEPTED SIDE {n} MEETINGS {meetings}")
    }
}

// A part that not every fault has: its name and its number, or nothing.
#[derive(Clone, Copy)]
struct Part(&'static str, Option<u8>);

impl fmt::Display for Part {
    ghost output = { λ p. Some (part p.0.now p.1) };

    fn fmt<W: fmt::Write>(&self, f: &mut fmt::Formatter<W>) -> fmt::Result {
        let Part(name, number) = *self;
        match number {
            Some(k) => write!(f, " {name} {k}"),
            None => Ok(()),
        }
    }
}

// The bytes are no sheet: the refusal, the place and the layer, and the round and the venue where the fault has them.
#[derive(Clone, Copy)]
pub struct Refused(pub Fault);

impl fmt::Display for Refused {
    ghost output = { λ refused. Some (refused_line refused.0) };

    fn fmt<W: fmt::Write>(&self, f: &mut fmt::Formatter<W>) -> fmt::Result {
        let Fault {
            refusal,
            place,
            layer,
            round,
            venue,
        } = self.0;
        let round = Part("ROUND", round);
        let venue = Part("VENUE", venue);
        write!(f, "REFUSED {refusal} PLACE {place} LAYER {layer}")?;
        writeln!(f, "{round}{venue}")
    }
}
