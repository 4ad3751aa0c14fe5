// An open round, and a meeting in it.
ghost use Rattle.std.specs.Prelude.{◌<◌, ◌≤◌};

// The round that is open, in a sheet of a side. A Stage has these numbers too, and the definitions are about it, so the facts
// on them stand here.
#[derive(Clone, Copy)]
pub(crate) struct OpenRound {
    pub(crate) side: u8,
    pub(crate) round: u8,
    ghost most: { side ≤ 127 },
    ghost below: { round < side },
}

// A meeting whose numbers are in range, so that each has its place in the tables.
#[derive(Clone, Copy)]
pub(crate) struct Meeting {
    pub(crate) round: u8,
    pub(crate) venue: u8,
    pub(crate) lower: u8,
    pub(crate) higher: u8,
    ghost round_below: { round < 127 },
    ghost venue_below: { venue < 127 },
    ghost lower_first: { lower < higher },
    ghost teams_below: { higher < 128 },
}
