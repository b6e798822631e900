#![tactic(auto)]

#[cfg(test)]
mod bodies;
pub mod counted;
#[cfg(test)]
mod expect;
pub mod faulty;
#[cfg(test)]
mod histories;
#[cfg(test)]
mod outlines;
#[cfg(test)]
mod piles;
#[cfg(test)]
mod plane_tests;
#[cfg(test)]
mod rings;
pub mod worked;
