//! Turns of several sessions by a schedule, and the unmount.
#![tactic(auto)]

mod driver;
pub mod laws;
mod turns;

pub use driver::{drive, unmount};
pub use turns::{Turn, Turns};

#[cfg(test)]
mod tests;
