//! A core whose sessions take turns over one mount.
ghost use Rattle.std.specs.Prelude.{◌≡◌, ◌≢◌, ◌<◌, ◌≤◌, ◌+◌, ℕ, length, set, true, false, None, Some, IsSome, is_some};
ghost use Rattle.vx_model.specs.Legal.{World};
ghost use Rattle.vx_base.specs.Lines.{line_after};
ghost use Rattle.vx_model.specs.Allowed.{is_refusal};
ghost use Rattle.vx_model.specs.Legal.{is_stop};
ghost use Rattle.vx_mount.specs.Cores.{CanGoOn, GoesOn, TakesTurn, TakesUnmountTurn};
ghost use Rattle.vx_mount.specs.Views.{AllFinished};
ghost use Rattle.vx_mount.specs.declared.turns.Turn.TheVariants.{Turned};
ghost use Rattle.vx_mount.specs.Sessions.{standing, ready};
ghost use Rattle.vx_core.specs.Lines.{script_lines};
ghost use Rattle.vx_core.specs.Works.{work_of};
ghost use Rattle.vx_core.specs.Rooms.{HasRoom};
ghost use Rattle.vx_core.specs.Faults.{TellsInOrder};
ghost use Rattle.vx_core.specs.declared.session.UnderWay.{UnderWay};
ghost use Rattle.vx_core.specs.Mounts.{IsUsed, MayAnswer};
ghost use Rattle.vx_core.specs.Tracks.{session_at, under_way_at};
ghost use Rattle.vx_core.specs.Facts.{AreFree, Facts, IsNext, HasAnswered, answer_of, view_of, is_fine, is_stop_line};

use crate::calls::{Calls, Performed};
use crate::session::{Session, UnderWay};
use std::alloc::Global;
use vx_base::{Call, Event, LineLists, Refusal, Reply, WaitsFor};
use vx_locks::LockTable;
use vx_mount::Turn;
use vx_mount::laws::growth_laws;

/// What a session's turn is to do.
#[derive(Clone, Copy, Debug)]
pub enum Next {
    /// No line is left, or the run was stopped.
    Nothing,
    /// Another session has not answered so many lines yet.
    Wait { session: u8, lines: u32 },
    /// Its next line can begin.
    Begin,
    /// Its call that is under way goes on.
    GoOn,
}

/// The sessions of a script over one mount.
pub struct Core<M> {
    pub mount: M,
    pub alloc: Global,
    /// The lines of each session; a `sync` stands for each that was moved into the history.
    pub lines: LineLists,
    pub sessions: Vec<Session>,
    /// Which session holds each inode's lock; the calls on names lock nothing.
    pub locks: LockTable,
    /// The run was stopped.
    pub stopped: bool,
}

impl<M: Calls> Core<M> {
    /// How many lines a session has answered; none where there is no such session.
    fn answered_by(&self, session: u8) -> u32
        ensures { result ≡ (session_at self.now.sessions.items session).answered }
    {
        match self.sessions.get(usize::from(session)) {
            Some(session) => session.answered,
            None => 0,
        }
    }

    /// Whether a session has a call under way.
    fn is_under_way(&self, session: u8) -> bool
        ensures { result ≡ is_some (under_way_at self.now.sessions.items session) }
    {
        match self.sessions.get(usize::from(session)) {
            Some(session) => session.under_way.is_some(),
            None => false,
        }
    }

    /// What a session's turn is to do.
    fn next(&self, actor: u8) -> Next
        requires sound { (o : World) × Facts M.built o (M.kept o self.now.mount) (M.view self.now.mount) self.now.lines self.now.sessions.items self.now.stopped }
        requires actor { actor < length self.now.sessions.items }
        ensures { IsNext (M.view self.now.mount) self.now.lines self.now.sessions.items actor self.now.stopped result }
    {
        // The proof rests on these laws; nothing runs here.
        growth_laws();
        if self.stopped {
            return Next::Nothing;
        }
        if self.is_under_way(actor) {
            return Next::GoOn;
        }
        let answered = self.answered_by(actor);
        let Some(call) = self.lines.get(usize::from(actor), answered as usize) else {
            return Next::Nothing;
        };
        match call {
            Call::After { session, lines } => {
                if self.answered_by(*session) < *lines {
                    Next::Wait {
                        session: *session,
                        lines: *lines,
                    }
                } else {
                    Next::Begin
                }
            }
            _ => Next::Begin,
        }
    }

    /// Answers the call that a session has under way: as it said, or with this refusal.
    fn finish(&mut self, actor: u8, failed: Option<Refusal>)
        requires used { IsUsed (λ o. M.kept o self.old.mount) (M.view self.old.mount) }
        requires free { (M.view self.old.mount).leaving ≡ false }
        requires room { 0 < (M.view self.old.mount).spare }
        requires actor { actor < length self.old.sessions.items }
        requires under_way { IsSome (under_way_at self.old.sessions.items actor) }
        requires limit { (session_at self.old.sessions.items actor).answered < 65536 }
        ensures answered { (n : ℕ) (u : UnderWay) → session_at self.old.sessions.items actor ≡ record { answered = n; under_way = Some u }
            → HasAnswered (M.view self.old.mount) (M.view self.new.mount) self.old.sessions.items self.new.sessions.items actor n u (answer_of failed u.answer) }
        ensures kept { (o : World) (n : ℕ) (u : UnderWay) → session_at self.old.sessions.items actor ≡ record { answered = n; under_way = Some u }
            → M.kept o self.old.mount → MayAnswer o (M.view self.old.mount) u.place (answer_of failed u.answer) → M.kept o self.new.mount }
        ensures same { self.new ≡ record self.old { mount = self.new.mount; sessions = self.new.sessions } }
        ensures owed { M.owed self.new.mount ≤ M.owed self.old.mount }
    {
        let session = &mut self.sessions[usize::from(actor)];
        let Some(UnderWay { place, answer }) = session.under_way.take() else {
            unreachable!()
        };
        session.answered += 1;
        match failed {
            None => self.mount.answer(place, answer),
            Some(why) => self.mount.answer(place, Reply::Refused(why)),
        }
    }

    /// Where the call stands that a session has under way.
    fn place_under_way(&self, session: u8) -> u64
        requires { IsSome (under_way_at self.now.sessions.items session) }
        ensures { (u : UnderWay) → under_way_at self.now.sessions.items session ≡ Some u → result ≡ u.place }
    {
        match self.sessions.get(usize::from(session)) {
            Some(
                Session {
                    answered: _,
                    under_way: Some(under_way),
                },
            ) => under_way.place,
            _ => unreachable!(),
        }
    }

    /// Goes on with the call that a session has under way, by one stage of the commit that it waits for. Once that is done the call is
    /// answered; where a write has failed, it is refused.
    fn go_on(&mut self, actor: u8)
        requires sound { (o : World) × Facts M.built o (M.kept o self.old.mount) (M.view self.old.mount) self.old.lines self.old.sessions.items self.old.stopped }
        requires actor { actor < length self.old.sessions.items }
        requires running { self.old.stopped ≡ false }
        requires under_way { IsSome (under_way_at self.old.sessions.items actor) }
        requires free { (M.view self.old.mount).leaving ≡ false }
        requires room { HasRoom (M.view self.old.mount) self.old.lines self.old.sessions.items }
        ensures goes { GoesOn (view_of (M.view self.old.mount) self.old.lines self.old.locks) actor (view_of (M.view self.new.mount) self.new.lines self.new.locks) }
        ensures kept { (o : World) → Facts M.built o (M.kept o self.old.mount) (M.view self.old.mount) self.old.lines self.old.sessions.items self.old.stopped
            → Facts M.built o (M.kept o self.new.mount) (M.view self.new.mount) self.new.lines self.new.sessions.items self.new.stopped }
        ensures room { HasRoom (M.view self.new.mount) self.new.lines self.new.sessions.items }
        ensures logging { (M.view self.new.mount).logging ≡ (M.view self.old.mount).logging }
        ensures order { (before : ℕ) → TellsInOrder before (M.view self.old.mount) (script_lines self.old.lines (M.view self.old.mount).history) → TellsInOrder before (M.view self.new.mount) (script_lines self.new.lines (M.view self.new.mount).history) }
        ensures locks { self.new.locks ≡ self.old.locks }
        ensures less { work_of M.per_call (M.owed self.new.mount) (script_lines self.new.lines (M.view self.new.mount).history) self.new.sessions.items < work_of M.per_call (M.owed self.old.mount) (script_lines self.old.lines (M.view self.old.mount).history) self.old.sessions.items }
    {
        // The proof rests on these laws; nothing runs here.
        growth_laws();
        if let Some(write_faults) = self.mount.disabled() {
            self.finish(actor, Some(Refusal::Disabled { write_faults }));
            return;
        }
        let place = self.place_under_way(actor);
        match self.mount.reach(place) {
            Ok(reached) => {
                if reached {
                    self.finish(actor, None);
                }
            }
            Err(_) => self.finish(actor, Some(Refusal::WriteFault)),
        }
    }

    /// Whether the line of a session that comes after so many is a `stop`.
    fn is_stop_line(&self, session: u8, answered: u32) -> bool
        ensures { result ≡ is_stop_line (line_after self.now.lines session answered) }
    {
        match self.lines.get(usize::from(session), answered as usize) {
            Some(call) => is_stop(call),
            None => false,
        }
    }

    /// Says that a session, which has answered so many lines, has this call under way.
    fn put_under_way(&mut self, session: u8, answered: u32, call: UnderWay)
        requires { session < length self.old.sessions.items }
        ensures sessions { self.new.sessions.items ≡ set self.old.sessions.items session (record { answered = answered; under_way = Some call }) }
        ensures same { self.new ≡ record self.old { sessions = self.new.sessions } }
    {
        self.sessions[usize::from(session)] = Session {
            answered,
            under_way: Some(call),
        };
    }

    /// Begins a session's next line: it is done, and answered in the same turn unless it must be committed first. The answer of a `stop`
    /// ends the run. A stage of the device may have to come in its place.
    fn begin(&mut self, actor: u8)
        requires sound { (o : World) × Facts M.built o (M.kept o self.old.mount) (M.view self.old.mount) self.old.lines self.old.sessions.items self.old.stopped }
        requires actor { actor < length self.old.sessions.items }
        requires running { self.old.stopped ≡ false }
        requires ready { standing (script_lines self.old.lines (M.view self.old.mount).history) (M.view self.old.mount).history actor ≡ ready }
        requires idle { under_way_at self.old.sessions.items actor ≡ None }
        requires line { IsSome (line_after self.old.lines actor (session_at self.old.sessions.items actor).answered) }
        requires free { (M.view self.old.mount).leaving ≡ false }
        requires room { HasRoom (M.view self.old.mount) self.old.lines self.old.sessions.items }
        ensures goes { GoesOn (view_of (M.view self.old.mount) self.old.lines self.old.locks) actor (view_of (M.view self.new.mount) self.new.lines self.new.locks) }
        ensures kept { (o : World) → Facts M.built o (M.kept o self.old.mount) (M.view self.old.mount) self.old.lines self.old.sessions.items self.old.stopped
            → Facts M.built o (M.kept o self.new.mount) (M.view self.new.mount) self.new.lines self.new.sessions.items self.new.stopped }
        ensures room { HasRoom (M.view self.new.mount) self.new.lines self.new.sessions.items }
        ensures logging { (M.view self.new.mount).logging ≡ (M.view self.old.mount).logging }
        ensures order { (before : ℕ) → TellsInOrder before (M.view self.old.mount) (script_lines self.old.lines (M.view self.old.mount).history) → TellsInOrder before (M.view self.new.mount) (script_lines self.new.lines (M.view self.new.mount).history) }
        ensures locks { self.new.locks ≡ self.old.locks }
        ensures less { work_of M.per_call (M.owed self.new.mount) (script_lines self.new.lines (M.view self.new.mount).history) self.new.sessions.items < work_of M.per_call (M.owed self.old.mount) (script_lines self.old.lines (M.view self.old.mount).history) self.old.sessions.items }
    {
        // The proof rests on these laws; nothing runs here.
        growth_laws();
        let answered = self.answered_by(actor);
        let stops = self.is_stop_line(actor, answered);
        match self
            .mount
            .perform(self.alloc, &mut self.lines, actor, answered)
        {
            Performed::Again => {}
            Performed::Done {
                place,
                answer,
                commits,
            } => {
                let waits = commits & !is_refusal(&answer);
                let ends = stops & is_fine(&answer);
                self.put_under_way(actor, answered, UnderWay { place, answer });
                if waits {
                    return;
                }
                self.finish(actor, None);
                if ends {
                    self.mount.stop();
                    self.stopped = true;
                }
            }
        }
    }

    /// The history so far.
    pub fn history(&self) -> &[Event]
        ensures { result.now ≡ (view_of (M.view self.now.mount) self.now.lines self.now.locks).history }
    {
        self.mount.history()
    }

    /// The mount, for whoever takes no further turn: with its device and its history.
    pub fn into_mount(self) -> M
        ensures { result ≡ self.mount }
    {
        let Core {
            mount,
            alloc: _,
            lines: _,
            sessions: _,
            locks: _,
            stopped: _,
        } = self;
        mount
    }

    /// The number of sessions.
    pub fn session_count(&self) -> u8
        requires { (o : World) × Facts M.built o (M.kept o self.now.mount) (M.view self.now.mount) self.now.lines self.now.sessions.items self.now.stopped }
        ensures { result ≡ length (view_of (M.view self.now.mount) self.now.lines self.now.locks).lines }
    {
        self.lines.len() as u8
    }

    /// What every core keeps, by which some session can always go on until all are finished.
    pub fn can_go_on(&self)
        requires sound { (o : World) × Facts M.built o (M.kept o self.now.mount) (M.view self.now.mount) self.now.lines self.now.sessions.items self.now.stopped }
        requires free { AreFree self.now.locks }
        ensures { CanGoOn (view_of (M.view self.now.mount) self.now.lines self.now.locks) }
    {}

    /// One turn of a session (docs/SESSIONS.md): it goes on with its line by at most one stage of the device, or does nothing and says
    /// why. It adds at most three events to the history.
    pub fn take_turn(&mut self, actor: u8) -> Turn
        requires sound { (o : World) × Facts M.built o (M.kept o self.old.mount) (M.view self.old.mount) self.old.lines self.old.sessions.items self.old.stopped }
        requires actor { actor < length self.old.sessions.items }
        requires room { HasRoom (M.view self.old.mount) self.old.lines self.old.sessions.items }
        ensures turn { TakesTurn (view_of (M.view self.old.mount) self.old.lines self.old.locks) actor result (view_of (M.view self.new.mount) self.new.lines self.new.locks) }
        ensures idle { result ≢ Turned → self.new ≡ self.old }
        ensures kept { (o : World) → Facts M.built o (M.kept o self.old.mount) (M.view self.old.mount) self.old.lines self.old.sessions.items self.old.stopped
            → Facts M.built o (M.kept o self.new.mount) (M.view self.new.mount) self.new.lines self.new.sessions.items self.new.stopped }
        ensures room { HasRoom (M.view self.new.mount) self.new.lines self.new.sessions.items }
        ensures logging { (M.view self.new.mount).logging ≡ (M.view self.old.mount).logging }
        ensures order { (before : ℕ) → TellsInOrder before (M.view self.old.mount) (script_lines self.old.lines (M.view self.old.mount).history) → TellsInOrder before (M.view self.new.mount) (script_lines self.new.lines (M.view self.new.mount).history) }
        ensures locks { self.new.locks ≡ self.old.locks }
        ensures less { result ≡ Turned → work_of M.per_call (M.owed self.new.mount) (script_lines self.new.lines (M.view self.new.mount).history) self.new.sessions.items < work_of M.per_call (M.owed self.old.mount) (script_lines self.old.lines (M.view self.old.mount).history) self.old.sessions.items }
    {
        // The proof rests on these laws; nothing runs here.
        growth_laws();
        match self.next(actor) {
            Next::Nothing => Turn::Finished,
            Next::Wait { session, lines } => Turn::Blocked(WaitsFor::After { session, lines }),
            Next::Begin => {
                self.begin(actor);
                Turn::Turned
            }
            Next::GoOn => {
                self.go_on(actor);
                Turn::Turned
            }
        }
    }

    /// One turn of the unmount, once all sessions are finished: one stage of leaving the file system. Nothing is left to do where the
    /// history ends with Stopped or Unmounted, or the mount is disabled. It adds at most one event to the history.
    pub fn take_unmount_turn(&mut self) -> Turn
        requires sound { (o : World) × Facts M.built o (M.kept o self.old.mount) (M.view self.old.mount) self.old.lines self.old.sessions.items self.old.stopped }
        requires finished { AllFinished (view_of (M.view self.old.mount) self.old.lines self.old.locks) }
        requires room { HasRoom (M.view self.old.mount) self.old.lines self.old.sessions.items }
        ensures turn { TakesUnmountTurn (view_of (M.view self.old.mount) self.old.lines self.old.locks) result (view_of (M.view self.new.mount) self.new.lines self.new.locks) }
        ensures kept { (o : World) → Facts M.built o (M.kept o self.old.mount) (M.view self.old.mount) self.old.lines self.old.sessions.items self.old.stopped
            → Facts M.built o (M.kept o self.new.mount) (M.view self.new.mount) self.new.lines self.new.sessions.items self.new.stopped }
        ensures room { HasRoom (M.view self.new.mount) self.new.lines self.new.sessions.items }
        ensures logging { (M.view self.new.mount).logging ≡ (M.view self.old.mount).logging }
        ensures order { (before : ℕ) → TellsInOrder before (M.view self.old.mount) (script_lines self.old.lines (M.view self.old.mount).history) → TellsInOrder before (M.view self.new.mount) (script_lines self.new.lines (M.view self.new.mount).history) }
        ensures locks { self.new.locks ≡ self.old.locks }
        ensures less { result ≡ Turned → work_of M.per_call (M.owed self.new.mount) (script_lines self.new.lines (M.view self.new.mount).history) self.new.sessions.items < work_of M.per_call (M.owed self.old.mount) (script_lines self.old.lines (M.view self.old.mount).history) self.old.sessions.items }
    {
        // The proof rests on these laws; nothing runs here.
        growth_laws();
        if self.mount.disabled().is_some() {
            return Turn::Finished;
        }
        if self.mount.has_ended() {
            return Turn::Finished;
        }
        match self.mount.leave() {
            Ok(_) => Turn::Turned,
            Err(_) => Turn::Turned,
        }
    }
}

/// Whether a reply refuses a call.
fn is_refusal(reply: &Reply) -> bool
    ensures { result ≡ is_refusal reply.now }
{
    matches!(reply, Reply::Refused(_))
}

/// Whether a reply is the plain one.
fn is_fine(reply: &Reply) -> bool
    ensures { result ≡ is_fine reply.now }
{
    matches!(reply, Reply::Fine)
}

/// Whether a call ends the run.
fn is_stop(call: &Call) -> bool
    ensures { result ≡ is_stop call.now }
{
    matches!(call, Call::Stop)
}
