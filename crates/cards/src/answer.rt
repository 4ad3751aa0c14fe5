// The answer to an input: the cards of all teams, or why there are none.
ghost use Rattle.std.specs.Prelude.{◌≡◌, ◌≤◌, ℕ, List, None, ◌++◌, IfOk, MatchOption, MatchResult, OnOk, string_bytes};
ghost use Rattle.cards.specs.Answers.{Answer, ByGroup, ByOrders, Typed};
ghost use Rattle.cards.specs.Texts.{card_text, refused_line};
ghost use Rattle.input.specs.declared.orders.Orders.{Orders as TypedOrders};
ghost use Rattle.squares.specs.Cards.{card};
ghost use Rattle.starters.specs.Claims.{WrittenList};
ghost use Rattle.starters.specs.declared.pair.Pair.{Pair};

use crate::lines::{Card, Refused, Summary, USAGE};
use groups::cyclic::Cyclic;
use groups::group::Group;
use groups::refusal::Refusal;
use input::lines::{last_line, split_line};
use input::numbers::read_numbers;
use input::orders::{Orders, read_orders};
use input::products::{double, triple};
use squares::card::card;
use starters::claim::claim;
use starters::fault::Fault;
use std::alloc::{AllocError, Global};
use std::fmt::Write;

// The card of a team in the square of a claimed starter. Of a claim's answer a relation speaks, and a Display has one text: so
// this function and the next three write behind a text.
fn push_team_card<G: Group>(
    text: &mut String,
    group: &G,
    numbers: &[u8],
    team: u8,
) -> Result<(), AllocError>
    requires { team ≤ (G.table group.now).order }
    ensures { OnOk result ((ps : List Pair) → WrittenList (G.table group.now) numbers.now ps → string_bytes text.new ≡ string_bytes text.old ++ card_text team (card (G.table group.now) ps team)) }
{
    // The library has no heap: it writes a card to a place that is lent, three bytes for each of at most 127 rounds.
    let mut place = [0; 381];
    match card(group, numbers, team, &mut place) {
        Ok(length) => {
            let bytes = &place[..length];
            write!(text, "{}", Card { team, bytes })
        }
        // Not after a claim, as the contract shows.
        Err(fault) => write!(text, "{}", Refused(fault)),
    }
}

// The cards of all teams in the square of a claimed starter, or its refusal.
fn push_cards<G: Group>(text: &mut String, group: &G, numbers: &[u8]) -> Result<(), AllocError>
    ensures { OnOk result (ByGroup (G.table group.now) G.LETTER numbers.now (string_bytes text.old) (string_bytes text.new)) }
{
    if let Err(fault) = claim(group, numbers) {
        return write!(text, "{}", Refused(fault));
    }
    let side = group.order();
    for team in 0..=side {
        push_team_card(text, group, numbers, team)?;
    }
    let letter = G::LETTER;
    write!(text, "{}", Summary { side, letter })
}

// The answer for a group that is made, or the refusal of one that is not.
fn push_made<G: Group + Drop>(
    text: &mut String,
    made: Result<G, Refusal>,
    numbers: &[u8],
) -> Result<(), AllocError>
    ensures { OnOk result (MatchResult made (λ group. ByGroup (G.table group) G.LETTER numbers.now (string_bytes text.old) (string_bytes text.new)) (λ refusal. string_bytes text.new ≡ string_bytes text.old ++ refused_line refusal None)) }
{
    match made {
        Ok(group) => push_cards(text, &group, numbers),
        Err(refusal) => write!(text, "{}", Refused(refusal.into())),
    }
}

// What an input types: the orders of a group, and the numbers of a starter.
#[derive(Drop)]
struct Request {
    orders: Orders,
    numbers: Vec<u8>,
}

// The answer to a request.
fn push_answer(text: &mut String, request: &Request) -> Result<(), AllocError>
    ensures { OnOk result (ByOrders request.now.orders request.now.numbers.items (string_bytes text.old) (string_bytes text.new)) }
{
    let numbers = request.numbers.as_slice();
    match request.orders {
        Orders::One(a) => push_made(text, Cyclic::new(a), numbers),
        Orders::Two(a, b) => push_made(text, double(a, b), numbers),
        Orders::Three(a, b, c) => push_made(text, triple(a, b, c), numbers),
    }
}

// An input is at most this long.
const LONGEST: usize = 4096;

// The request that an input types, or None where it is not of the form.
fn read(heap: Global, input: &[u8]) -> Result<Option<Request>, AllocError>
    ensures { IfOk result (λ o. MatchOption o ((os : TypedOrders) (bs : List ℕ) → Typed input.now os bs → ⊥) (λ r. Typed input.now r.orders r.numbers.items)) }
{
    if input.len() > LONGEST {
        return Ok(None);
    }
    let Some((first, rest)) = split_line(input) else {
        return Ok(None);
    };
    let Some(second) = last_line(rest) else {
        return Ok(None);
    };
    let Some(orders) = read_orders(first) else {
        return Ok(None);
    };
    let Some(numbers) = read_numbers(heap, second)? else {
        return Ok(None);
    };
    Ok(Some(Request { orders, numbers }))
}

// The whole answer to an input.
pub fn answer(heap: Global, input: &[u8]) -> Result<String, AllocError>
    ensures { IfOk result (λ text. Answer input.now (string_bytes text)) }
{
    let Some(request) = read(heap, input)? else {
        return String::from_str(heap, USAGE);
    };
    let mut text = String::new(heap);
    push_answer(&mut text, &request)?;
    Ok(text)
}
