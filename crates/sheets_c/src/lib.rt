// The check of a sheet as a program written in C calls it. A crate is a library or a static library, so the function that
// programs in Rattle call stays in crate sheets, and this one gives it its name in C.
#![tactic(auto)]

ghost use Rattle.sheets.specs.Readings.{Packed};

use sheets::entry;

// The answer in one number: 0 where the bytes are accepted, else the refusal's number times 65,536, and the place.
#[unsafe(no_mangle)]
pub extern "C" fn league_check(bytes: &[u8]) -> u32
    ensures { Packed bytes.now result }
{
    entry::league_check(bytes)
}
