//! What a crash may leave, from one operation to the next and over several.
ghost use Rattle.std.specs.Prelude.{ℕ, List, Contains};
ghost use Rattle.vx_dev.specs.Laws.{TapeLaws};
ghost use Rattle.vx_dev.specs.Moments.{Told, Passed, HoldsOneOf, AreAmong};
ghost use Rattle.vx_dev.specs.RunLaws.{RunLaws};
ghost use Rattle.vx_dev.specs.Runs.{Ran, BrokeOff, puts};
ghost use Rattle.vx_dev.specs.Tape.{State};

/// What an operation does to what a crash may leave.
pub fn tape_laws()
    ensures { TapeLaws }
{}

/// How runs of operations grow, and how they break off.
pub fn run_laws()
    ensures { RunLaws }
{}

/// Several sectors are written, and those of the writes that go to one sector leave one of these values there.
pub fn value_laws()
    ensures stage { (s : ℕ) (values : List (List ℕ)) (writes : List (ℕ × List ℕ)) (old new : State) → AreAmong s values writes → Ran (puts writes) old new
        → Told old (HoldsOneOf s values) → Told new (HoldsOneOf s values) × Passed (λ image. Contains values (image s)) old new }
    ensures broken { (s : ℕ) (values : List (List ℕ)) (writes : List (ℕ × List ℕ)) (old new : State) → AreAmong s values writes → BrokeOff writes old new
        → Told old (HoldsOneOf s values) → Passed (λ image. Contains values (image s)) old new }
{}
