// The reader: what is said of bytes.
ghost use Rattle.sheets.specs.Readings.{Checked};

use crate::fault::{Fault, bytes_fault, fault_of};
use crate::parse::first_command;
use crate::reader::Reader;
use crate::stage::Stage;
use groups::refusal::Refusal;

// Reads bytes as a sheet, in one pass. They are accepted exactly when they are the sheet of a Room square.
pub fn check(bytes: &[u8]) -> Result<(), Fault>
    ensures { Checked bytes.now result }
{
    let mut reader = Reader::new();
    let mut rest = bytes;
    // An iterator of commands would be a type of its own, and hand out each one's place and error too: no plainer.
    while !rest.is_empty() {
        let place = bytes.len() - rest.len();
        let (command, tail) = first_command(rest).map_err(|refusal| bytes_fault(place, refusal))?;
        let stage = reader.stage;
        reader
            .step(command)
            .map_err(|refusal| fault_of(stage, command, place, refusal))?;
        rest = tail;
    }
    match reader.stage {
        Stage::Done => Ok(()),
        _ => Err(bytes_fault(bytes.len(), Refusal::Operands)),
    }
}
