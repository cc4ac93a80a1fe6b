//! How far the sessions of a script are.
use vx_base::Reply;

/// A call that stands in the history and is not answered yet.
#[derive(Debug, Drop)]
pub struct UnderWay {
    /// Where its `Do` stands.
    pub place: u64,
    /// What it will be answered where nothing fails.
    pub answer: Reply,
}

/// How far a session is with its lines.
#[derive(Debug, Drop)]
pub struct Session {
    /// How many of its lines it has answered.
    pub answered: u32,
    /// Its call that waits for the log.
    pub under_way: Option<UnderWay>,
}
