//! The options of a mount, and what they decide.
#![tactic(auto)]

mod choices;
mod elements;
mod options;
mod policy;

pub use options::{OptionName, OptionRefusal, Options};
pub use policy::{class, commits, flushes_at_close, loose};

#[cfg(test)]
mod tests;
