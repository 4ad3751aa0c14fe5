// Every refusal of the product, one for each question that a call asks.
ghost use Rattle.std.specs.Prelude.{◌≡◌, Some, decimal};
ghost use Rattle.groups.specs.Refusals.{number_of};

use std::fmt;

// Each variant has the number of its question.
#[derive(Clone, Copy, Debug, PartialEq, Eq)]
pub enum Refusal {
    // making: is the order odd and from 3 to 127?
    Order = 1,
    // run: is the allowance from 1 to 1,000,000?
    Allowance = 5,
    // run: were fewer than 60,000 starters handed out since the last restart?
    Exhausted = 6,
    // show, sheet, page: was a starter handed out since the last restart?
    NoStarter = 7,
    // every writer: is the caller's place long enough?
    Place = 8,
    // claim, card: are there exactly n - 1 bytes?
    Length = 9,
    // claim, card: is each number from 1 to n - 1, and each there once?
    Numbers = 10,
    // claim, card: are all differences, in both directions, different?
    Differences = 11,
    // claim, card: are all sums nonzero and different?
    Sums = 12,
    // reading: is the byte a command?
    Command = 13,
    // reading: are the operands there, or, where the bytes stop, was END read?
    Operands = 14,
    // reading, typing: may the command stand here?
    Turn = 15,
    // reading, typing: are the operands in range and order?
    Range = 16,
    // reading, typing: has neither team played this round?
    Round = 17,
    // reading: has neither team played at this venue?
    Venue = 18,
    // reading: have the two teams not met?
    Met = 19,
    // reading: have all teams played this round?
    Idle = 20,
    // reading: is the count that of all meetings?
    Count = 21,
    // card: is the team from 0 to n?
    Team = 22,
}

impl Refusal {
    // The number of the question whose answer is no.
    pub fn number(&self) -> u8
        ensures { result ≡ number_of self.now }
    {
        *self as u8
    }
}

// A refusal is shown by its number.
impl fmt::Display for Refusal {
    ghost output = { λ refusal. Some (decimal (number_of refusal)) };

    fn fmt<W: fmt::Write>(&self, f: &mut fmt::Formatter<W>) -> fmt::Result {
        let number = self.number();
        write!(f, "{number}")
    }
}
