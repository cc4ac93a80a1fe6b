//! Turns by a schedule, and the unmount.
ghost use Rattle.std.specs.Prelude.{◌≡◌, ◌<◌, ◌≤◌, All, length, true, false};
ghost use Rattle.vx_grammar.specs.Orders.{below};
ghost use Rattle.vx_mount.specs.Cores.{Opening, TakesTurns, IsDriven, IsUnmounted};
ghost use Rattle.vx_mount.specs.Runs.{TakesLines, AnswersLines};
ghost use Rattle.vx_mount.specs.Views.{AllFinished};

use crate::turns::{Turn, Turns};
use vx_grammar::laws::order_law;

/// Takes the turns of a schedule, which names sessions, and then those of all sessions round and round until all are finished
/// (docs/SESSIONS.md). It returns. Unless the run was stopped, all lines of a run that begins with an empty history are answered then.
pub fn drive<T: Turns>(core: &mut T, schedule: &[u8])
    requires actors { All (λ actor. actor < length (T.view core.old).lines) schedule.now }
    requires sound { T.sound core.old }
    ensures sound { T.sound core.new }
    ensures kept { (o : Opening) → T.kept o core.old → T.kept o core.new }
    ensures driven { IsDriven (T.view core.old) schedule.now (T.view core.new) }
    ensures answers { TakesLines (T.view core.old).lines (T.view core.old).history → AnswersLines (T.view core.old).lines (T.view core.new).history }
{
    take_turns(core, schedule);
    'rounds: while turn_round(core) {}
}

/// One turn of each of these sessions, in their order.
fn take_turns<T: Turns>(core: &mut T, actors: &[u8])
    requires actors { All (λ actor. actor < length (T.view core.old).lines) actors.now }
    requires sound { T.sound core.old }
    ensures sound { T.sound core.new }
    ensures kept { (o : Opening) → T.kept o core.old → T.kept o core.new }
    ensures turns { TakesTurns (T.view core.old) actors.now (T.view core.new) }
{
    'schedule: for actor in actors {
        core.turn(*actor);
    }
}

/// One turn of each session; whether one of them was not finished.
fn turn_round<T: Turns>(core: &mut T) -> bool
    requires { T.sound core.old }
    ensures sound { T.sound core.new }
    ensures kept { (o : Opening) → T.kept o core.old → T.kept o core.new }
    ensures round { TakesTurns (T.view core.old) (below (length (T.view core.old).lines)) (T.view core.new) }
    ensures less { result ≡ true → T.work core.new < T.work core.old }
    ensures ended { result ≡ false → AllFinished (T.view core.new) }
{
    core.facts();
    order_law();
    let mut busy = false;
    'round: for actor in 0..core.sessions() {
        let answer = core.turn(actor);
        busy = busy | !answer.is_finished();
    }
    busy
}

/// Takes turns of the unmount until nothing is left to do. It returns. Where the run was stopped, or the mount is disabled, it does
/// nothing.
pub fn unmount<T: Turns>(core: &mut T)
    requires finished { AllFinished (T.view core.old) }
    requires sound { T.sound core.old }
    ensures sound { T.sound core.new }
    ensures kept { (o : Opening) → T.kept o core.old → T.kept o core.new }
    ensures unmounted { IsUnmounted (T.view core.old) (T.view core.new) }
    ensures answers { AnswersLines (T.view core.old).lines (T.view core.old).history → AnswersLines (T.view core.old).lines (T.view core.new).history }
{
    take_unmount_turns(core);
}

/// Takes turns of the unmount until one answers Finished.
fn take_unmount_turns<T: Turns>(core: &mut T)
    requires finished { AllFinished (T.view core.old) }
    requires sound { T.sound core.old }
    ensures sound { T.sound core.new }
    ensures kept { (o : Opening) → T.kept o core.old → T.kept o core.new }
    ensures unmounted { IsUnmounted (T.view core.old) (T.view core.new) }
{
    'turns: while matches!(core.unmount_turn(), Turn::Turned) {}
}
