//! The lines of the sessions of a script.
ghost use Rattle.std.specs.Prelude.{◌≡◌, ◌<◌, [], ◌++◌, ◌∷◌, length, set, Some, IfNone, IfSome, OnOk, OnErr};
ghost use Rattle.std.specs.Option.{option_copied};
ghost use Rattle.vx_base.specs.Lines.{lines_of, line_after};
ghost use Rattle.vx_base.specs.declared.call.Call.TheVariants as call;

use crate::call::Call;
use std::alloc::{AllocError, Global};
use std::marker::Model;
use std::mem;

/// A list with one list of calls per session.
#[derive(Debug, Drop)]
pub struct LineLists {
    lists: Vec<Vec<Call>>,
}

impl Model for LineLists {
    ghost use Rattle.std.specs.Prelude.{List, map};
    ghost use Rattle.vx_base.specs.declared.call.Call.{Call};

    ghost Value = { List (List Call) };

    ghost view = { λ a. map (λ v. v.items) a.lists.items };
}

impl LineLists {
    /// No sessions.
    pub fn new(alloc: Global) -> Self
        ensures { result ≡ [] }
    {
        LineLists {
            lists: Vec::new(alloc),
        }
    }

    /// The number of sessions.
    pub fn len(&self) -> usize
        ensures { result ≡ length self.now }
    {
        self.lists.len()
    }

    /// The number of a session's lines, which is 0 where there is no such session.
    #[tactic(auto, unfolding(crate::specs::Lines::lines_of))]
    pub fn count(&self, session: usize) -> usize
        ensures { result ≡ length (lines_of self.now session) }
    {
        match self.lists.get(session) {
            Some(lines) => lines.len(),
            None => 0,
        }
    }

    /// The line of a session that comes after so many; none where it has no more.
    #[tactic(auto, unfolding(crate::specs::Lines::lines_of, crate::specs::Lines::line_after))]
    pub fn get(&self, session: usize, answered: usize) -> Option<&Call>
        ensures { option_copied result ≡ line_after self.now session answered }
    {
        match self.lists.get(session) {
            Some(lines) => lines.get(answered),
            None => None,
        }
    }

    /// Adds a session with these lines; unchanged where memory is short.
    pub fn push(&mut self, lines: Vec<Call>) -> Result<(), AllocError>
        ensures ok { OnOk result (self.new ≡ self.old ++ lines.items ∷ []) }
        ensures err { OnErr result (self.new ≡ self.old) }
    {
        self.lists.push(lines)?;
        Ok(())
    }

    /// Moves the line of a session that comes after so many out of the list, and leaves a `sync` in its place.
    #[tactic(auto, unfolding(crate::specs::Lines::lines_of, crate::specs::Lines::line_after))]
    pub fn take(&mut self, session: usize, answered: usize) -> Call
        requires { answered < length (lines_of self.old session) }
        ensures line { line_after self.old session answered ≡ Some result }
        ensures left { self.new ≡ set self.old session (set (lines_of self.old session) answered call.Sync) }
    {
        mem::replace(&mut self.lists[session][answered], Call::Sync)
    }

    /// Takes the last session off; none where there is no session.
    pub fn pop(&mut self) -> Option<Vec<Call>>
        ensures some { IfSome result (λ lines. self.old ≡ self.new ++ lines.items ∷ []) }
        ensures none { IfNone result (self.old ≡ []) }
    {
        self.lists.pop()
    }
}
