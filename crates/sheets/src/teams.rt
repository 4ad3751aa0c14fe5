// The two teams of a meeting.
#[derive(Clone, Copy, Debug, PartialEq, Eq)]
pub struct Teams {
    pub lower: u8,
    pub higher: u8,
}
