// The bytes of a claim that list each nonzero number of the group once: what its later questions stand on.
ghost use Rattle.std.specs.Prelude.{◌≡◌, ◌+◌, length};
ghost use Rattle.starters.specs.Claims.{NumbersRight};

use groups::group::Group;

mod questions;
mod writing;

#[derive(Drop)]
pub(crate) struct Listing<'a, G: Group> {
    group: &'a G,
    bytes: &'a [u8],
    ghost size: { length bytes.now + 1 ≡ (G.table group.now).order },
    ghost right: { NumbersRight (G.table group.now).order bytes.now },
}
