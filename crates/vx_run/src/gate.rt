//! A hook of tests between the lines of a session.

/// What a worker passes before it begins each line of its session, and once more with the number after its last line.
pub trait Gate {
    fn pass(&self, session: u8, line: u32);
}

/// The gate that everybody passes at once.
#[derive(Clone, Copy, Debug)]
pub struct OpenGate;

impl Gate for OpenGate {
    fn pass(&self, _session: u8, _line: u32) {}
}
