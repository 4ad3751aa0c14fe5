// What the reader answers on examples. Each answer is compared with that of a second reading.
use crate::check::check;
use crate::entry::league_check;
use crate::tests::answers::Told;
use crate::tests::second::read_again;
use std::alloc::Global;
use std::process::Abort;
use std::test::Fail;

mod answers;
mod cases;
mod changes;
mod examples;
mod reading;
mod second;

// The sheet of the first starter of cyclic 7: a line for SIDE, for each round, and for END.
const GOOD: [u8; 138] = *b"\x01\x07\
\x02\x00\x03\x00\x00\x07\x03\x01\x02\x06\x03\x02\x04\x05\x03\x04\x01\x03\x04\
\x02\x01\x03\x01\x01\x07\x03\x02\x00\x03\x03\x03\x05\x06\x03\x05\x02\x04\x04\
\x02\x02\x03\x02\x02\x07\x03\x03\x01\x04\x03\x04\x00\x06\x03\x06\x03\x05\x04\
\x02\x03\x03\x00\x04\x06\x03\x03\x03\x07\x03\x04\x02\x05\x03\x05\x00\x01\x04\
\x02\x04\x03\x01\x00\x05\x03\x04\x04\x07\x03\x05\x03\x06\x03\x06\x01\x02\x04\
\x02\x05\x03\x00\x02\x03\x03\x02\x01\x06\x03\x05\x05\x07\x03\x06\x00\x04\x04\
\x02\x06\x03\x00\x01\x05\x03\x01\x03\x04\x03\x03\x00\x02\x03\x06\x06\x07\x04\
\x05\x1c\x00";

// What check answers. It is what the second reading answers, and the number and the place are what league_check gives.
fn answer(rt: &impl Abort, heap: Global, bytes: &[u8]) -> Result<Result<(), Told>, Fail> {
    let first = check(bytes).map_err(Told::from);
    assert_eq!(rt; read_again(heap, bytes)?, first);
    let packed = league_check(bytes);
    match first {
        Err(fault) => {
            assert_eq!(rt; packed / 65536, fault.number as u32);
            assert_eq!(rt; (packed % 65536) as usize, fault.place);
        }
        Ok(()) => assert_eq!(rt; packed, 0),
    }
    Ok(first)
}

// What is answered to some bytes and more bytes after them.
fn joined(
    rt: &impl Abort,
    heap: Global,
    front: &[u8],
    more: &[u8],
) -> Result<Result<(), Told>, Fail> {
    let mut bytes = front.to_vec(heap)?;
    bytes.extend_from_slice(more)?;
    answer(rt, heap, &bytes)
}
