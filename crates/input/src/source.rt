// The bytes of the standard input.
ghost use Rattle.std.specs.Prelude.{◌≡◌, ◌≤◌, length, IfOk};

use std::io;
use std::io::Read;

// Reads the standard input into the place, to its end or until the place is full. The answer is the front of the place
// that it filled.
pub fn fill<'a>(rt: &HostRuntime, place: &'a mut [u8]) -> io::Result<&'a [u8]>
    ensures size { IfOk result (λ input. length input.now ≤ length place.old) }
    ensures front { IfOk result (λ input. input.ref_ptr ≡ place.entry.ref_ptr) }
{
    let mut stdin = rt.stdin();
    // The answer is cut by this count. To keep the unread rest of the place in its stead takes the same number from two lengths.
    let mut count = 0;
    // Each turn but the last reads a byte or more.
    for _ in 0..place.len() {
        match stdin.read(&mut place[count..])? {
            0 => break,
            more => count += more,
        }
    }
    Ok(&place[..count])
}
