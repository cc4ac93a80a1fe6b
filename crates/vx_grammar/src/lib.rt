//! The grammar of scripts, and the order of their lines.
#![tactic(auto)]

mod commands;
mod fields;
mod groups;
mod keywords;
pub mod laws;
mod lines;
mod lowest;
mod numbers;
mod order;
mod reader;
mod script;
mod why;
mod words;

pub use script::{Script, parse};
pub use why::{ScriptRefusal, Why};

#[cfg(test)]
mod tests;
