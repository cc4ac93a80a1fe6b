//! Which blocks a file has, in memory: its pages as the device says them and as they are now, and its map blocks (docs/FILES.md).
#![tactic(auto)]

mod file_maps;
mod laws;
mod place;
mod settle;
#[cfg(test)]
mod tests;

pub use file_maps::{FileMaps, Scratch};
pub use laws::{give_laws, place_laws, run_laws};
pub use place::PlaceRefusal;
