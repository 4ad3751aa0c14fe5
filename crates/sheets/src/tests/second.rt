// A second reading of bytes as a sheet. It is slow and plain: it keeps a list of the commands read so far, and answers each
// question by going through that list. It shares the names of the layers with the reader and nothing else: its
// commands are its own, and its refusals are the numbers of the rules.
use crate::fault::Layer;
use crate::tests::answers::Told;
use std::alloc::Global;
use std::test::Fail;

// The kinds of commands.
#[derive(Clone, Copy, Debug, PartialEq)]
enum Kind {
    Side,
    Round,
    Meet,
    Close,
    End,
}

// A command that was read. Operands that it does not have are 0.
#[derive(Clone, Copy)]
struct Line {
    kind: Kind,
    operands: [u8; 3],
}

impl Line {
    // Whether it is a MEET with this team.
    fn has(&self, team: u8) -> bool {
        let [_, one, other] = self.operands;
        self.kind == Kind::Meet && (one == team || other == team)
    }
}

// How often a command of a kind was read.
fn times(past: &[Line], kind: Kind) -> usize {
    past.iter().filter(|line| line.kind == kind).count()
}

// The side, or 0 before SIDE.
fn side_of(past: &[Line]) -> u8 {
    past.iter()
        .find(|line| line.kind == Kind::Side)
        .map_or(0, |line| line.operands[0])
}

// The round of the last ROUND, or 0 where there is none.
fn last_round(past: &[Line]) -> u8 {
    past.iter()
        .rev()
        .find(|line| line.kind == Kind::Round)
        .map_or(0, |line| line.operands[0])
}

// Whether a round is open: of ROUND and CLOSE the last one read is a ROUND.
fn is_open(past: &[Line]) -> bool {
    past.iter()
        .rev()
        .find(|line| matches!(line.kind, Kind::Round | Kind::Close))
        .is_some_and(|line| line.kind == Kind::Round)
}

// The venue of the last meeting of the last round.
fn last_venue(past: &[Line]) -> Option<u8> {
    past.iter()
        .rev()
        .take_while(|line| line.kind != Kind::Round)
        .find(|line| line.kind == Kind::Meet)
        .map(|line| line.operands[0])
}

// Whether a team plays in the last round.
fn played(past: &[Line], team: u8) -> bool {
    past.iter()
        .rev()
        .take_while(|line| line.kind != Kind::Round)
        .any(|line| line.has(team))
}

// Whether a team plays at a venue, in any round.
fn visited(past: &[Line], venue: u8, team: u8) -> bool {
    past.iter()
        .any(|line| line.operands[0] == venue && line.has(team))
}

// Whether two teams meet, in any round.
fn met(past: &[Line], one: u8, other: u8) -> bool {
    past.iter().any(|line| line.has(one) && line.has(other))
}

// Question 15: may the command stand here?
fn stands(past: &[Line], kind: Kind) -> bool {
    match kind {
        Kind::Side => past.is_empty(),
        Kind::Meet | Kind::Close => is_open(past),
        Kind::Round => !past.is_empty()
            && !is_open(past)
            && times(past, Kind::Close) < side_of(past) as usize,
        Kind::End => {
            !past.is_empty()
                && !is_open(past)
                && times(past, Kind::Close) == side_of(past) as usize
                && times(past, Kind::End) == 0
        }
    }
}

// Question 16: are the operands in range and order?
fn in_order(past: &[Line], line: Line) -> bool {
    let [first, second, third] = line.operands;
    let side = side_of(past);
    match line.kind {
        Kind::Side => first % 2 == 1 && 3 <= first && first <= 127,
        Kind::Round => first as usize == times(past, Kind::Close),
        Kind::Meet => {
            let rising = last_venue(past).is_none_or(|last| last < first);
            first < side && rising && second < third && third <= side
        }
        Kind::Close | Kind::End => true,
    }
}

// Questions 17 to 19.
fn meeting_asked(past: &[Line], operands: [u8; 3]) -> Result<(), u8> {
    let [venue, one, other] = operands;
    if played(past, one) || played(past, other) {
        return Err(17);
    }
    if visited(past, venue, one) || visited(past, venue, other) {
        return Err(18);
    }
    if met(past, one, other) {
        return Err(19);
    }
    Ok(())
}

// Questions 17 to 21.
fn league_asked(past: &[Line], line: Line) -> Result<(), u8> {
    let side = side_of(past);
    let [low, high, _] = line.operands;
    let count = low as usize + 256 * high as usize;
    match line.kind {
        Kind::Meet => meeting_asked(past, line.operands),
        Kind::Close if !(0..=side).all(|team| played(past, team)) => Err(20),
        Kind::End if count != side as usize * (side as usize + 1) / 2 => Err(21),
        _ => Ok(()),
    }
}

// The questions of a whole command, or the number of the first no.
fn asked(past: &[Line], line: Line) -> Result<(), u8> {
    if !stands(past, line.kind) {
        return Err(15);
    }
    if !in_order(past, line) {
        return Err(16);
    }
    league_asked(past, line)
}

// The command at the beginning of the bytes, and the bytes after it; or the number of the no, 13 or 14.
fn command_at(bytes: &[u8]) -> Result<(Line, &[u8]), u8> {
    let (kind, length) = match bytes {
        [] => return Err(14),
        [1, ..] => (Kind::Side, 2),
        [2, ..] => (Kind::Round, 2),
        [3, ..] => (Kind::Meet, 4),
        [4, ..] => (Kind::Close, 1),
        [5, ..] => (Kind::End, 3),
        _ => return Err(13),
    };
    let (whole, rest) = bytes.split_at_checked(length).ok_or(14)?;
    let operands = match whole {
        [_, a] => [*a, 0, 0],
        [_, a, b] => [*a, *b, 0],
        [_, a, b, c] => [*a, *b, *c],
        _ => [0, 0, 0],
    };
    Ok((Line { kind, operands }, rest))
}

// A no in all its parts.
fn no(past: &[Line], number: u8, place: usize, operands: [u8; 3]) -> Told {
    let layer = match number {
        13 | 14 => Layer::Bytes,
        15 | 16 => Layer::Form,
        _ => Layer::League,
    };
    let round = match number {
        17..=20 => Some(last_round(past)),
        _ => None,
    };
    let venue = match number {
        17..=19 => Some(operands[0]),
        _ => None,
    };
    Told {
        number,
        place,
        layer,
        round,
        venue,
    }
}

// The first command of the rest, which begins at the place, and the bytes after it; or its first no.
fn step<'a>(past: &[Line], place: usize, rest: &'a [u8]) -> Result<(Line, &'a [u8]), Told> {
    let (line, more) = command_at(rest).map_err(|number| no(past, number, place, [0; 3]))?;
    asked(past, line).map_err(|number| no(past, number, place, line.operands))?;
    Ok((line, more))
}

// The first no, if the bytes are not accepted.
pub(crate) fn read_again(heap: Global, bytes: &[u8]) -> Result<Result<(), Told>, Fail> {
    let mut past = Vec::new(heap);
    let mut rest = bytes;
    // each turn but the last reads a byte at least
    for _ in 0..=bytes.len() {
        if rest.is_empty() && times(&past, Kind::End) > 0 {
            return Ok(Ok(()));
        }
        let place = bytes.len().saturating_sub(rest.len());
        match step(&past, place, rest) {
            Ok((line, more)) => {
                past.push(line)?;
                rest = more;
            }
            Err(told) => return Ok(Err(told)),
        }
    }
    Err(Fail::new("the second reading did not end"))
}
