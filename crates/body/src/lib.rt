#![tactic(auto)]

pub mod body;
mod judged;
pub mod near;
pub mod reach;
pub mod ring;
pub mod set;
mod steps;
pub mod zonotope;
