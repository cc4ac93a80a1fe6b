//! What a history has of its script, as laws for whoever takes turns.
ghost use Rattle.std.specs.Prelude.{[], ℕ, List};
ghost use Rattle.vx_base.specs.declared.call.Call.{Call};
ghost use Rattle.vx_mount.specs.Cores.{UnmountsOn};
ghost use Rattle.vx_mount.specs.Pieces.{IsTurn, Steps};
ghost use Rattle.vx_mount.specs.GrowthLaws.{GrowthLaws};
ghost use Rattle.vx_mount.specs.Runs.{TakesLines};
ghost use Rattle.vx_mount.specs.Views.{CoreView};

/// Before the first turn a history has no line of its script, and every turn keeps what it has: each session's lines from the first,
/// in order and with their numbers, of which all but at most the last are answered.
pub fn lines_of_turns()
    ensures none { (lines : List (List Call)) → TakesLines lines [] }
    ensures turn { (old : CoreView) (actor : ℕ) (new : CoreView) → IsTurn old actor new → TakesLines old.lines old.history → TakesLines old.lines new.history }
    ensures steps { (actors : List ℕ) (old new : CoreView) → Steps old actors new → TakesLines old.lines old.history → TakesLines old.lines new.history }
    ensures unmount { (old new : CoreView) → UnmountsOn old new → TakesLines old.lines old.history → TakesLines old.lines new.history }
{}

/// What one event more does to a history: what stands in it, and how many lines its sessions have begun and answered.
pub fn growth_laws()
    ensures { GrowthLaws }
{}
