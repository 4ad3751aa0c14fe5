// Starters: lists of pairs, what makes them a strong starter, and the check of a claimed one.
#![tactic(auto)]

pub mod claim;
pub mod fault;
mod listing;
pub mod pair;
pub mod starter;
#[cfg(test)]
mod tests;
