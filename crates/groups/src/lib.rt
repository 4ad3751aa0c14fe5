// Groups: what a kind of group is, the two kinds of the product, and every refusal with its number.
#![tactic(auto)]

pub mod cyclic;
pub mod group;
pub mod product;
pub mod refusal;
#[cfg(test)]
mod tests;
