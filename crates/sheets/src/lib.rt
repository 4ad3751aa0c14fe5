// Sheets: Room squares as bytes. The format, and the reader that accepts exactly the sheets of Room squares.
#![tactic(auto)]

pub mod check;
mod command;
pub mod entry;
pub mod fault;
mod marks;
mod parse;
mod reader;
pub mod sheet;
mod stage;
pub mod teams;
#[cfg(test)]
mod tests;
