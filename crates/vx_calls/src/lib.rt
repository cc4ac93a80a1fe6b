//! The calls of a mount, one stage of the device a turn. `docs/SESSIONS.md` says what a turn of each call does.
#![tactic(auto)]

mod asked;
mod calls;
mod mount;

pub use calls::is_refusal;
pub use mount::{Mount, Performed};
