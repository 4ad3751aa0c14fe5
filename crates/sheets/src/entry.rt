// The answer of the check in one number, as a program written in C wants it.
ghost use Rattle.sheets.specs.Readings.{Packed};

use crate::check::check;

// The answer in one number: 0 where the bytes are accepted, else the refusal's number times 65,536, and the place.
pub fn league_check(bytes: &[u8]) -> u32
    ensures { Packed bytes.now result }
{
    match check(bytes) {
        Ok(()) => 0,
        Err(fault) => fault.refusal.number() as u32 * 65536 + fault.place as u32,
    }
}
