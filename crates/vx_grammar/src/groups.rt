//! The lines of a script by their sessions.
ghost use Rattle.std.specs.Prelude.{◌≡◌, ◌++◌, ◌∷◌, [], length, filter, map, not, OnOk, OnErr, IfOk};
ghost use Rattle.std.specs.Option.{option_copied};
ghost use Rattle.vx_grammar.specs.Orders.{below};
ghost use Rattle.vx_grammar.specs.Scripts.{is_of, calls_of, numbers_of, number_at};

use crate::reader::Command;
use std::alloc::{AllocError, Global};
use std::marker::Model;
use vx_base::{Call, LineLists};

/// A list with one list of numbers per session.
#[derive(Debug, Drop)]
pub struct NumberLists {
    lists: Vec<Vec<u32>>,
}

impl Model for NumberLists {
    ghost use Rattle.std.specs.Prelude.{List, ℕ, map};

    ghost Value = { List (List ℕ) };

    ghost view = { λ a. map (λ v. v.items) a.lists.items };
}

impl NumberLists {
    pub fn new(alloc: Global) -> Self
        ensures { result ≡ [] }
    {
        NumberLists {
            lists: Vec::new(alloc),
        }
    }

    /// A session's number after so many.
    #[tactic(auto, unfolding(crate::specs::Scripts::number_at))]
    pub fn get(&self, session: usize, before: usize) -> Option<u32>
        ensures { result ≡ number_at self.now session before }
    {
        match self.lists.get(session) {
            Some(numbers) => numbers.get(before).copied(),
            None => None,
        }
    }

    /// Adds a session with these numbers.
    pub fn push(&mut self, numbers: Vec<u32>) -> Result<(), AllocError>
        ensures ok { OnOk result (self.new ≡ self.old ++ numbers.items ∷ []) }
        ensures err { OnErr result (self.new ≡ self.old) }
    {
        self.lists.push(numbers)?;
        Ok(())
    }
}

/// The calls of each session, and the numbers of their lines.
#[derive(Debug, Drop)]
pub struct Grouped {
    pub lines: LineLists,
    pub numbers: NumberLists,
}

/// Groups the lines by their sessions.
pub fn by_session(
    alloc: Global,
    sessions: u8,
    commands: Vec<Command>,
) -> Result<Grouped, AllocError>
    ensures lines { IfOk result (λ g. g.lines ≡ map (calls_of commands.items) (below sessions)) }
    ensures numbers { IfOk result (λ g. g.numbers ≡ map (numbers_of commands.items) (below sessions)) }
{
    let mut lines = LineLists::new(alloc);
    let mut numbers = NumberLists::new(alloc);
    let mut rest = commands;
    'sessions: for session in 0..sessions {
        let (mine, others) = parted(alloc, session, rest)?;
        numbers.push(numbers_in(alloc, mine.as_slice())?)?;
        lines.push(calls_in(alloc, mine)?)?;
        rest = others;
    }
    Ok(Grouped { lines, numbers })
}

/// The lines of a session, and those of the others.
fn parted(
    alloc: Global,
    session: u8,
    commands: Vec<Command>,
) -> Result<(Vec<Command>, Vec<Command>), AllocError>
    ensures mine { IfOk result (λ w. w.0.items ≡ filter (is_of session) commands.items) }
    ensures others { IfOk result (λ w. w.1.items ≡ filter (λ c. not (is_of session c)) commands.items) }
{
    let mut mine = Vec::new(alloc);
    let mut others = Vec::new(alloc);
    'commands: for command in commands {
        if command.session == session {
            mine.push(command)?;
        } else {
            others.push(command)?;
        }
    }
    Ok((mine, others))
}

fn numbers_in(alloc: Global, commands: &[Command]) -> Result<Vec<u32>, AllocError>
    ensures { IfOk result (λ numbers. numbers.items ≡ map (λ c. c.number) commands.now) }
{
    let mut numbers = Vec::new(alloc);
    'commands: for command in commands {
        numbers.push(command.number)?;
    }
    Ok(numbers)
}

fn calls_in(alloc: Global, commands: Vec<Command>) -> Result<Vec<Call>, AllocError>
    ensures { IfOk result (λ calls. calls.items ≡ map (λ c. c.call) commands.items) }
{
    let mut calls = Vec::new(alloc);
    'commands: for command in commands {
        calls.push(command.call)?;
    }
    Ok(calls)
}
