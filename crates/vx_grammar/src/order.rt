//! Whether the lines of a script have an order.
ghost use Rattle.std.specs.Prelude.{◌≡◌, ◌<◌, ◌≤◌, ◌+◌, ℕ, true, false, length, slice_index, slice_set, MatchOption};
ghost use Rattle.vx_base.specs.Lines.{lines_of, line_after};
ghost use Rattle.vx_grammar.specs.Orders.{most_sessions, is_met_by, so_far, IsFurthest, SaysWhatBegins};

use vx_base::{Call, LineLists};

/// The greatest number of sessions of a script.
pub const MOST_SESSIONS: usize = 16;

/// How many lines of each session no order leads to.
pub fn left_over(lines: &LineLists) -> [usize; MOST_SESSIONS]
    requires { length lines.now ≤ most_sessions }
    ensures { SaysWhatBegins lines.now result }
{
    furthest(lines)
}

/// Takes a line that can follow until none can; answers how many lines of each session are left.
fn furthest(lines: &LineLists) -> [usize; MOST_SESSIONS]
    requires { length lines.now ≤ most_sessions }
    ensures { IsFurthest lines.now result }
{
    let mut left = all_left(lines);
    'lines: while let Some(session) = next_session(lines, &left) {
        left[session] -= 1;
    }
    left
}

/// The number of lines of each session.
fn all_left(lines: &LineLists) -> [usize; MOST_SESSIONS]
    requires { length lines.now ≤ most_sessions }
    ensures { (session : ℕ) → slice_index result session ≡ length (lines_of lines.now session) }
{
    let mut left = [0; MOST_SESSIONS];
    'sessions: for session in 0..MOST_SESSIONS {
        left[session] = lines.count(session);
    }
    left
}

/// A session whose next line can follow.
fn next_session(lines: &LineLists, left: &[usize; MOST_SESSIONS]) -> Option<usize>
    requires { (session : ℕ) → slice_index left.now session ≤ length (lines_of lines.now session) }
    ensures { MatchOption result
        ((session : ℕ) → session < most_sessions → is_met_by (so_far lines.now left.now) (line_after lines.now session (so_far lines.now left.now session)) ≡ false)
        (λ session. (session < most_sessions) × (is_met_by (so_far lines.now left.now) (line_after lines.now session (so_far lines.now left.now session)) ≡ true)) }
{
    'sessions: for session in 0..MOST_SESSIONS {
        if can_follow(lines, left, session) {
            return Some(session);
        }
    }
    None
}

/// Whether a session's next line can follow.
fn can_follow(lines: &LineLists, left: &[usize; MOST_SESSIONS], session: usize) -> bool
    requires session { session < most_sessions }
    requires left { (session : ℕ) → slice_index left.now session ≤ length (lines_of lines.now session) }
    ensures { result ≡ is_met_by (so_far lines.now left.now) (line_after lines.now session (so_far lines.now left.now session)) }
{
    match lines.get(session, answered(lines, left, session)) {
        Some(
            Call::After {
                session: other,
                lines: wanted,
            },
        ) => *wanted as usize <= answered(lines, left, *other as usize),
        Some(_) => true,
        None => false,
    }
}

/// How many lines of a session are not left.
#[tactic(auto, unfolding(crate::specs::Orders::so_far))]
pub fn answered(lines: &LineLists, left: &[usize; MOST_SESSIONS], session: usize) -> usize
    requires { (session : ℕ) → slice_index left.now session ≤ length (lines_of lines.now session) }
    ensures { result ≡ so_far lines.now left.now session }
{
    match left.get(session) {
        Some(left) => lines.count(session) - *left,
        None => lines.count(session),
    }
}
