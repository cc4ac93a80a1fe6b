//! The metadata of a mount in memory, and what each call of names does to them.
#![tactic(auto)]

mod chmod;
mod directory;
mod edits;
mod link;
mod load;
mod make;
mod meta;
mod read;
mod remove;
mod rename;
mod sectors;
mod slots;
mod touched;
mod walk;

pub use directory::Directory;
pub use load::loading_laws;
pub use meta::Meta;
pub use sectors::stage;
pub use touched::Touched;
