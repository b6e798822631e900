#![tactic(auto)]

pub mod probe;
pub mod read;
pub mod replay;
pub mod run;
pub mod survey;
