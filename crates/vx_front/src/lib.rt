//! The front of a mount, which callers read without waiting, and the count of each caller's calls.
#![tactic(auto)]

mod fronts;
mod seats;
mod steps;
mod views;

pub use fronts::Fronts;
pub use seats::{CallerSeat, KernelSeat};
pub use steps::EntryName;
pub use views::{CallerView, Entry, KernelView, NoteView, View};

#[cfg(test)]
mod tests;
