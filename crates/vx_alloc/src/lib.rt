//! The free blocks of a device.
#![tactic(auto)]

mod free_map;
mod run_index;

pub use free_map::FreeMap;

#[cfg(test)]
mod tests;
