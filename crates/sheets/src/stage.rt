// How far the reading of a sheet has come: before SIDE, between two rounds, in an open round, or after END.
#[derive(Clone, Copy)]
pub enum Stage {
    Start,
    // `closed` is the number of rounds closed.
    Between { side: u8, closed: u8 },
    Open { side: u8, round: u8 },
    Done,
}
