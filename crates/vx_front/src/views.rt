//! What the seats of the table know. No value of these types is made but an `Entry`.
use std::collections::LinkedList;
use vx_base::{Call, Reply};

/// An answered call: whose it was, its place in the history, and the answer.
pub struct Entry {
    pub caller: u64,
    pub place: u64,
    pub call: Call,
    pub answer: Reply,
}

/// What the kernel's seat knows.
pub struct KernelView {
    /// The number of callers that were made.
    pub made: u64,
    /// The fronts that were published, in their order.
    pub fronts: LinkedList<u64>,
    /// The answered calls.
    pub log: LinkedList<Entry>,
    /// By number, how many calls a caller is known to have begun.
    pub known: LinkedList<u64>,
    /// By number, what a caller told of its answered calls.
    pub told: LinkedList<LinkedList<Entry>>,
    /// The callers that have ended.
    pub ended: LinkedList<CallerView>,
}

/// What a caller's seat knows.
pub struct CallerView {
    /// The caller's number, from 1.
    pub number: u64,
    /// The greatest front that it has read or was told.
    pub front: u64,
    /// The fronts that it has read.
    pub reads: LinkedList<u64>,
    /// What it had seen of the log before its last note.
    pub past: LinkedList<Entry>,
    /// What it has seen of the log.
    pub seen: LinkedList<Entry>,
    /// The log in its last note.
    pub note: LinkedList<Entry>,
    /// How many calls it has begun.
    pub begun: u64,
    /// Its answered calls.
    pub mine: LinkedList<Entry>,
}

/// What one seat tells another.
pub struct NoteView {
    pub number: u64,
    pub begun: u64,
    pub mine: LinkedList<Entry>,
    pub log: LinkedList<Entry>,
    pub front: u64,
}

/// What a seat of the table knows.
pub enum View {
    Kernel(KernelView),
    Caller(CallerView),
    Note(NoteView),
    Spent,
}
