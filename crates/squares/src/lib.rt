// Squares: who meets where and when in the square of a strong starter, and the movement cards of its teams.
#![tactic(auto)]

pub mod card;
mod entry;
mod square;
#[cfg(test)]
mod tests;
