//! A mount whose sessions take turns. `docs/SESSIONS.md` says what a turn may do.
#![tactic(auto)]

mod calls;
mod engine;
mod session;
mod turns;

pub use calls::{Calls, Performed};
pub use engine::Core;
pub use session::{Session, UnderWay};
pub use turns::{line_count, new_sessions};
