//! The writes of files' pages to a device, and which pages are stable there.
#![tactic(auto)]

mod flush;
mod page_numbers;

pub use flush::Flush;

#[cfg(test)]
mod tests;
