//! The turns of a core, and where it begins.
ghost use Rattle.std.specs.Prelude.{◌≡◌, ◌*◌, ◌+◌, ◌≤◌, ◌<◌, ℕ, IfOk, length};
ghost use Rattle.vx_base.specs.Lines.{lines_of};
ghost use Rattle.vx_mount.specs.Cores.{Opening};
ghost use Rattle.vx_core.specs.Facts.{IsScript, AreFree, IsSound, IsKept, IsBegun, IsNew, view_of};
ghost use Rattle.vx_core.specs.Lines.{script_lines};
ghost use Rattle.vx_core.specs.Tracks.{no_session, session_at};
ghost use Rattle.vx_core.specs.Works.{line_count, work_of};

use crate::calls::Calls;
use crate::engine::Core;
use crate::session::Session;
use std::alloc::{AllocError, Global};
use vx_base::LineLists;
use vx_locks::LockTable;
use vx_mount::laws::growth_laws;
use vx_mount::{Turn, Turns};

/// So many sessions, none of which has begun a line.
pub fn new_sessions(alloc: Global, count: usize) -> Result<Vec<Session>, AllocError>
    ensures count { IfOk result (λ sessions. length sessions.items ≡ count) }
    ensures each { IfOk result (λ sessions. (s : ℕ) → session_at sessions.items s ≡ no_session) }
{
    let mut sessions = Vec::with_capacity(alloc, count)?;
    for _ in 0..count {
        sessions.push(Session {
            answered: 0,
            under_way: None,
        })?;
    }
    Ok(sessions)
}

/// The number of all sessions' lines.
pub fn line_count(lines: &LineLists) -> usize
    requires few { length lines.now ≤ 16 }
    requires short { (s : ℕ) → length (lines_of lines.now s) < 65536 }
    ensures { result ≡ line_count lines.now }
{
    let mut count = 0;
    for session in 0..lines.len() {
        count += lines.count(session);
    }
    count
}

impl<M: Calls> Core<M> {
    /// A core over a mount whose history begins. No session holds a lock.
    pub fn new(
        alloc: Global,
        mount: M,
        lines: LineLists,
        sessions: Vec<Session>,
        locks: LockTable,
    ) -> Core<M>
        requires script { IsScript M.built lines }
        requires few { length lines ≤ 16 }
        requires new { IsNew (M.view mount) }
        requires count { length sessions.items ≡ length lines }
        requires each { (s : ℕ) → session_at sessions.items s ≡ no_session }
        requires free { AreFree locks }
        requires room { 4 * line_count lines + 1 ≤ (M.view mount).spare }
        ensures kept { (o : Opening) → IsBegun o.world → M.kept o.world mount → (M.view mount).write_faults ≡ o.write_faults → (M.view mount).logging ≡ o.logging
            → IsKept M.built o (M.kept o.world result.mount) (M.view result.mount) result.lines result.sessions.items result.stopped }
        ensures sound { (o : Opening) → IsBegun o.world → M.kept o.world mount
            → IsSound M.built (λ w. M.kept w result.mount) (M.view result.mount) result.lines result.sessions.items result.locks result.stopped }
        ensures lines { script_lines result.lines (M.view result.mount).history ≡ lines }
        ensures mount { result.mount ≡ mount }
        ensures locks { result.locks ≡ locks }
    {
        // The proof rests on these laws; nothing runs here.
        growth_laws();
        Core {
            mount,
            alloc,
            lines,
            sessions,
            locks,
            stopped: false,
        }
    }
}

impl<M: Calls> Turns for Core<M> {
    ghost view = { λ c. view_of (M.view c.mount) c.lines c.locks };

    ghost work = { λ c. work_of M.per_call (M.owed c.mount) (script_lines c.lines (M.view c.mount).history) c.sessions.items };

    ghost sound = { λ c. IsSound M.built (λ o. M.kept o c.mount) (M.view c.mount) c.lines c.sessions.items c.locks c.stopped };

    ghost kept = { λ o c. IsKept M.built o (M.kept o.world c.mount) (M.view c.mount) c.lines c.sessions.items c.stopped };

    fn sessions(&self) -> u8 {
        self.session_count()
    }

    fn turn(&mut self, actor: u8) -> Turn {
        self.take_turn(actor)
    }

    fn unmount_turn(&mut self) -> Turn {
        self.take_unmount_turn()
    }

    fn facts(&self) {
        self.can_go_on();
    }
}
