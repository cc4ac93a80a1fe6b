//! A core whose sessions take turns.
use vx_base::WaitsFor;

/// What a turn came to.
#[derive(Clone, Copy, Debug)]
pub enum Turn {
    /// The session went on with its line, or the unmount went on.
    Turned,
    /// The session has no line left, or the run was stopped; of the unmount, nothing is left to do.
    Finished,
    /// Nothing was done, since the session waits.
    Blocked(WaitsFor),
}

impl Turn {
    ghost use Rattle.std.specs.Prelude.{◌≡◌};
    ghost use Rattle.vx_mount.specs.Cores.{is_finished};

    /// Whether the turn came to Finished.
    pub fn is_finished(&self) -> bool
        ensures { result ≡ is_finished self.now }
    {
        matches!(self, Turn::Finished)
    }
}

/// A core whose sessions take turns, by the rules of docs/SESSIONS.md.
pub trait Turns {
    ghost use Rattle.std.specs.Prelude.{◌≡◌, ◌≢◌, ◌<◌, ℕ, length};
    ghost use Rattle.vx_mount.specs.Cores.{Opening, CanGoOn, TakesTurn, TakesUnmountTurn};
    ghost use Rattle.vx_mount.specs.Views.{CoreView, AllFinished};
    ghost use Rattle.vx_mount.specs.declared.turns.Turn.TheVariants.{Turned};

    /// What contracts see of a core.
    ghost view: { Self → CoreView };

    /// A bound on the turns that are still to come, for a proof that they end.
    ghost work: { Self → ℕ };

    /// What a core needs for its next turn, and has again behind each.
    ghost sound: { Self → Type 0 };

    /// What each turn keeps, wherever the history may have begun.
    ghost kept: { Opening → Self → Type 0 };

    /// The number of sessions.
    fn sessions(&self) -> u8
        requires { sound self.now }
        ensures { result ≡ length (view self.now).lines };

    /// One turn of a session: it goes on with its line by at most one stage of the device, or does nothing and says why.
    fn turn(&mut self, actor: u8) -> Turn
        requires actor { actor < length (view self.old).lines }
        requires sound { sound self.old }
        ensures sound { sound self.new }
        ensures kept { (o : Opening) → kept o self.old → kept o self.new }
        ensures turn { TakesTurn (view self.old) actor result (view self.new) }
        ensures less { result ≡ Turned → work self.new < work self.old }
        ensures idle { result ≢ Turned → self.new ≡ self.old };

    /// One turn of the unmount, once all sessions are finished. Finished comes exactly where the history ends with Stopped or
    /// Unmounted or the mount is disabled, and changes nothing.
    fn unmount_turn(&mut self) -> Turn
        requires finished { AllFinished (view self.old) }
        requires sound { sound self.old }
        ensures sound { sound self.new }
        ensures kept { (o : Opening) → kept o self.old → kept o self.new }
        ensures turn { TakesUnmountTurn (view self.old) result (view self.new) }
        ensures less { result ≡ Turned → work self.new < work self.old };

    /// What every core keeps, by which some session can always go on until all are finished.
    fn facts(&self)
        requires { sound self.now }
        ensures { CanGoOn (view self.now) };
}
