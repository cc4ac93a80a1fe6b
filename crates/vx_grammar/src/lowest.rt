//! The lowest line of a script that can never begin.
ghost use Rattle.std.specs.Prelude.{◌≡◌, ◌≤◌, ℕ, length, slice_index, MatchOption};
ghost use Rattle.vx_base.specs.Lines.{lines_of};
ghost use Rattle.vx_grammar.specs.Orders.{most_sessions, so_far, HasOrder, IsLowestStuck};
ghost use Rattle.vx_grammar.specs.Scripts.{number_at, lower_of, IsLeastOf, AreLinesNumbered};

use crate::groups::{Grouped, NumberLists};
use crate::order::{MOST_SESSIONS, answered, left_over};
use vx_base::LineLists;

/// The number of the lowest line that can never begin; none where the lines have an order.
pub fn lowest_stuck(grouped: &Grouped) -> Option<u32>
    requires few { length grouped.now.lines ≤ most_sessions }
    requires numbered { AreLinesNumbered grouped.now.lines grouped.now.numbers }
    ensures { MatchOption result (HasOrder grouped.now.lines) (λ line. IsLowestStuck grouped.now.lines (number_at grouped.now.numbers) line) }
{
    let left = left_over(&grouped.lines);
    least_left(&grouped.lines, &grouped.numbers, &left)
}

/// The least number of a session's first line that is left.
fn least_left(
    lines: &LineLists,
    numbers: &NumberLists,
    left: &[usize; MOST_SESSIONS],
) -> Option<u32>
    requires { (session : ℕ) → slice_index left.now session ≤ length (lines_of lines.now session) }
    ensures { IsLeastOf (λ s. number_at numbers.now s (so_far lines.now left.now s)) most_sessions result }
{
    let mut least = None;
    'sessions: for session in 0..MOST_SESSIONS {
        least = lower(least, numbers.get(session, answered(lines, left, session)));
    }
    least
}

/// The lower of two numbers that may be missing.
fn lower(one: Option<u32>, other: Option<u32>) -> Option<u32>
    ensures { result ≡ lower_of one other }
{
    match one {
        None => other,
        Some(n) => match other {
            Some(m) if m < n => Some(m),
            _ => Some(n),
        },
    }
}
