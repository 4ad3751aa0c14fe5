// A list of numbers.
ghost use Rattle.std.specs.Prelude.{◌≡◌, ◌++◌, IfOk, vec_items, OnOk};
ghost use Rattle.std.specs.Option.{option_map, option_to_list};
ghost use Rattle.input.specs.Grammar.{NumbersLaw};
ghost use Rattle.input.specs.Read.{numbers_of};

use crate::numeral::with_digit;
use std::alloc::{AllocError, Global};

// Reads the numerals of a line, separated by blanks. There may be none.
pub fn read_numbers(heap: Global, line: &[u8]) -> Result<Option<Vec<u8>>, AllocError>
    ensures value { IfOk result (λ o. option_map vec_items o ≡ numbers_of line.now) }
    ensures grammar { IfOk result (λ o. NumbersLaw line.now (option_map vec_items o)) }
{
    let mut numbers = Vec::new(heap);
    let mut numeral = None;
    for byte in line {
        match *byte {
            b'0'..=b'9' => numeral = Some(with_digit(numeral, *byte - b'0')),
            // A blank ends the numeral before it, if there is one.
            b' ' => keep(&mut numbers, numeral.take())?,
            _ => return Ok(None),
        }
    }
    keep(&mut numbers, numeral)?;
    Ok(Some(numbers))
}

// Adds the value of the numeral that ends here. After a blank or at the start of the line there is none.
fn keep(numbers: &mut Vec<u8>, numeral: Option<u8>) -> Result<(), AllocError>
    ensures { OnOk result (numbers.new.items ≡ numbers.old.items ++ option_to_list numeral) }
{
    if let Some(value) = numeral {
        numbers.push(value)?;
    }
    Ok(())
}
