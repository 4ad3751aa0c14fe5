// A command of a sheet, with its operands.
#[derive(Clone, Copy)]
pub enum Command {
    Side(u8),
    Round(u8),
    Meet { venue: u8, lower: u8, higher: u8 },
    Close,
    End(u16),
}
