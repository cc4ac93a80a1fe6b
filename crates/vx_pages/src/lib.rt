//! Pages of files that are kept in memory.
#![tactic(auto)]

mod page_cache;
mod slot;
mod slot_index;

pub use page_cache::PageCache;

#[cfg(test)]
mod tests;
