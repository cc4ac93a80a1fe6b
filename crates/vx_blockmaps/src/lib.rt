//! What calls on one file do to its maps in memory and to the map of free blocks, said of the layout that these stand for
//! (docs/FILES.md).
#![tactic(auto)]

mod close;
mod laws;
mod leave;
mod pages;
mod place;

pub use close::{drop_reservation, trim_reservation};
pub use laws::others;
pub use leave::{cut, give_up, settle};
pub use place::place_write;
