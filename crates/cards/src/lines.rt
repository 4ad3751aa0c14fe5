// The lines of the answer.
ghost use Rattle.std.specs.Prelude.{Some};
ghost use Rattle.cards.specs.Texts.{card_text, refused_line, round_line, summary_line, team_line};

use starters::fault::Fault;
use std::fmt;

// What is expected of the input.
pub const USAGE: &str =
    "EXPECTED orders joined by x, then the starter's numbers separated by blanks, as 7 and 1 3 2 6 4 5 on two lines\n";

// A refusal, with the pair that it names.
#[derive(Clone, Copy)]
pub struct Refused(pub Fault);

impl fmt::Display for Refused {
    ghost output = { λ refused. Some (refused_line refused.0.refusal refused.0.pair) };

    fn fmt<W: fmt::Write>(&self, f: &mut fmt::Formatter<W>) -> fmt::Result {
        let Fault { refusal, pair } = self.0;
        match pair {
            Some(k) => writeln!(f, "REFUSED {refusal} PAIR {k}"),
            None => writeln!(f, "REFUSED {refusal}"),
        }
    }
}

// The head of a team's card.
#[derive(Clone, Copy)]
struct Team(u8);

impl fmt::Display for Team {
    ghost output = { λ team. Some (team_line team.0) };

    fn fmt<W: fmt::Write>(&self, f: &mut fmt::Formatter<W>) -> fmt::Result {
        writeln!(f, "TEAM {}", self.0)
    }
}

// A round of a team: where and against whom it plays.
#[derive(Clone, Copy)]
struct Round {
    round: usize,
    table: u8,
    venue: u8,
    opponent: u8,
}

impl fmt::Display for Round {
    ghost output = { λ r. Some (round_line r.round r.table r.venue r.opponent) };

    fn fmt<W: fmt::Write>(&self, f: &mut fmt::Formatter<W>) -> fmt::Result {
        let Round {
            round,
            table,
            venue,
            opponent,
        } = *self;
        writeln!(
            f,
            "ROUND {round} TABLE {table} VENUE {venue} OPPONENT {opponent}"
        )
    }
}

// The card of a team: its head, and a line for each round.
#[derive(Clone, Copy)]
pub struct Card<'a> {
    pub team: u8,
    pub bytes: &'a [u8],
}

impl<'a> fmt::Display for Card<'a> {
    ghost output = { λ card. Some (card_text card.team card.bytes.now) };

    fn fmt<W: fmt::Write>(&self, f: &mut fmt::Formatter<W>) -> fmt::Result {
        let head = Team(self.team);
        write!(f, "{head}")?;
        for (round, &[table, venue, opponent]) in self.bytes.as_chunks::<3>().0.iter().enumerate() {
            let line = Round {
                round,
                table,
                venue,
                opponent,
            };
            write!(f, "{line}")?;
        }
        Ok(())
    }
}

// The last line.
#[derive(Clone, Copy)]
pub struct Summary {
    pub side: u8,
    pub letter: u8,
}

impl fmt::Display for Summary {
    ghost output = { λ summary. Some (summary_line summary.side summary.letter) };

    fn fmt<W: fmt::Write>(&self, f: &mut fmt::Formatter<W>) -> fmt::Result {
        let n = u32::from(self.side);
        let cards = n + 1;
        let meetings = n * (n + 1) / 2;
        let kind = char::from(self.letter);
        writeln!(f, "CARDS {cards} SIDE {n} KIND {kind} MEETINGS {meetings}")
    }
}
