#![tactic(auto)]

pub mod direction;
pub mod fault;
pub mod point;
pub mod products;
pub mod vectors;
