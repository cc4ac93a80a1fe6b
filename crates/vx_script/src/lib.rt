//! The text of the output. The grammar of scripts, from `vx_grammar`, is handed on.
#![tactic(auto)]

mod output;
mod replies;
mod start;
mod text_buffer;
mod words;

pub use output::render;
pub use start::{StartRefusal, render_refusal};
pub use text_buffer::{TextBuffer, flush, put};
pub use vx_grammar::{Script, ScriptRefusal, Why, parse};
pub use words::{Word, put_spaced, put_words};

#[cfg(test)]
mod tests;
