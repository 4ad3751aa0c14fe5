// The answer to an input: that it is a sheet, or why it is none.
ghost use Rattle.std.specs.Prelude.{IfOk, string_bytes};
ghost use Rattle.sheet_check.specs.Answers.{Answer};

use crate::lines::{Accepted, Refused};
use sheets::sheet::read;
use std::alloc::{AllocError, Global};

// The whole answer to an input.
pub fn answer(heap: Global, input: &[u8]) -> Result<String, AllocError>
    ensures { IfOk result (λ text. Answer input.now (string_bytes text)) }
{
    match read(input) {
        Ok(sheet) => Accepted { side: sheet.side() }.to_string(heap),
        Err(fault) => Refused(fault).to_string(heap),
    }
}
