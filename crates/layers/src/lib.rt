#![tactic(auto)]

mod answers;
pub mod layers;
mod part;
mod turn;
pub mod zonotope;
