//! Which directories are reached from the root.
ghost use Rattle.std.specs.Prelude.{◌≡◌, ◌<◌, ◌≤◌, ◌^◌, ℕ, OnOk, IfOk, length, get_or, true, false};
ghost use Rattle.vx_check.specs.Reaching.{children_of, IsReached, Marks, MarksOne};

use std::alloc::{AllocError, Global};
use std::marker::Model;

/// The numbers that a directory's entries name.
#[derive(Drop)]
pub struct Targets {
    numbers: Vec<u32>,
}

impl Model for Targets {
    ghost use Rattle.std.specs.Prelude.{ℕ, List};

    ghost Value = { List ℕ };

    ghost view = { λ t. t.numbers.items };
}

impl Targets {
    pub fn new(numbers: Vec<u32>) -> Self
        ensures { result ≡ numbers.items }
    {
        Targets { numbers }
    }

    pub fn as_slice(&self) -> &[u32]
        ensures { result.now ≡ self.now }
    {
        self.numbers.as_slice()
    }
}

/// Marks the numbers that are not marked, and adds them to the list of those that are.
fn mark_all(marks: &mut Vec<bool>, found: &mut Vec<u32>, targets: &[u32]) -> Result<(), AllocError>
    requires inside { (j : ℕ) → j < length targets.now → get_or targets.now j 0 < length marks.old.items }
    ensures { OnOk result (Marks marks.old.items found.old.items targets.now (length targets.now) marks.new.items found.new.items) }
{
    for n in targets {
        mark_one(marks, found, *n)?;
    }
    Ok(())
}

/// Marks a number that is not marked, and adds it to the list.
fn mark_one(marks: &mut Vec<bool>, found: &mut Vec<u32>, n: u32) -> Result<(), AllocError>
    requires inside { n < length marks.old.items }
    ensures { OnOk result (MarksOne marks.old.items found.old.items n marks.new.items found.new.items) }
{
    let at = n as usize;
    if marks[at] {
        return Ok(());
    }
    marks[at] = true;
    found.push(n)?;
    Ok(())
}

/// The numbers that names lead to from the root. Each number is taken once, from a list that the walk adds to, so the walk has no depth.
pub(crate) fn mark_reached(
    alloc: Global,
    children: &[Targets],
    root: u32,
) -> Result<Vec<bool>, AllocError>
    requires root { root < length children.now }
    requires inside { (d j : ℕ) → j < length (children_of children.now d) → get_or (children_of children.now d) j 0 < length children.now }
    ensures length { IfOk result (λ marks. length marks.items ≡ length children.now) }
    ensures all { IfOk result (λ marks. (n : ℕ) → IsReached children.now root n → get_or marks.items n false ≡ true) }
    ensures only { IfOk result (λ marks. (n : ℕ) → get_or marks.items n false ≡ true → IsReached children.now root n) }
{
    let mut marks = vec![in alloc; false; children.len()]?;
    let mut found = Vec::new(alloc);
    marks[root as usize] = true;
    found.push(root)?;
    let mut next = 0;
    while next < found.len() {
        let at = found[next] as usize;
        mark_all(&mut marks, &mut found, children[at].as_slice())?;
        next += 1;
    }
    Ok(marks)
}
