//! The top call: a script over a device, from its words to the replies and the image.
#![tactic(auto)]

mod begin;
mod gate;
mod memory;
mod mounted;
mod outcome;
mod read;
mod top;
mod turns;
mod words;

pub use gate::{Gate, OpenGate};
pub use mounted::Mounted;
pub use top::{Ran, run};

#[cfg(test)]
mod tests;
