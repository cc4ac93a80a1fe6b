//! The blocks of a directory.
#![tactic(auto)]

mod block;
mod dir_blocks;
mod laws;
mod name_index;
mod refusal;

pub use dir_blocks::DirBlocks;
pub use laws::one_tightening;
pub use refusal::{DirRefusal, NoEnt};

#[cfg(test)]
mod tests;
