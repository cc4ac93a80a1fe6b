//! A new file system, clean and empty, with a log of any size and any number of allocation units.
#![tactic(auto)]

mod formatting;

pub use formatting::make;

#[cfg(test)]
mod tests;
