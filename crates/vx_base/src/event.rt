//! What stands in the history.

use crate::call::Call;
use crate::numbers::Ino;
use crate::refusal::Refusal;
use crate::reply::Reply;

#[derive(Debug, Drop, PartialEq)]
pub enum Event {
    Do {
        at: u64,
        session: u8,
        line: u32,
        call: Call,
        reply: Reply,
    },
    Ret {
        at: u64,
        place: u64,
        answer: Reply,
    },
    Settle {
        at: u64,
        ino: Ino,
        size: u64,
    },
    Release {
        at: u64,
        upto: u64,
    },
    MoveTake {
        at: u64,
        place: u64,
        ino: Ino,
    },
    MoveSwitch {
        at: u64,
        place: u64,
        ino: Ino,
        from: u32,
        to: u32,
    },
    MoveGive {
        at: u64,
        place: u64,
        ino: Ino,
        cause: Refusal,
    },
    Bar {
        at: u64,
        place: u64,
        units: u32,
    },
    Resized {
        at: u64,
        place: u64,
        units: u32,
    },
    Unbar {
        at: u64,
        place: u64,
        cause: Refusal,
    },
    Stopped {
        at: u64,
    },
    Unmounted {
        at: u64,
    },
}
