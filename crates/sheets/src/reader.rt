// What is known of a sheet from the commands read so far.
ghost use Rattle.std.specs.Prelude.{◌≤◌};
ghost use Rattle.sheets.specs.Stages.{side_of, begun_of};

use crate::marks::Marks;
use crate::stage::Stage;

pub(crate) mod calls;
mod meeting;

// The tables hold who has played in which round and at which venue, and who has met. A round's next meeting has a venue of
// `free` or more.
#[derive(Drop)]
pub(crate) struct Reader {
    pub(crate) stage: Stage,
    rounds: Marks,
    venues: Marks,
    met: Marks,
    free: u8,
    ghost side: { side_of stage ≤ 127 },
    ghost begun: { begun_of stage ≤ side_of stage },
}
