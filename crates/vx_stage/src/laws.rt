//! Laws that the stages rest on.
ghost use Rattle.std.specs.Prelude.{◌≡◌};
ghost use Rattle.vx_dev.specs.Tape.{State as Device};
ghost use Rattle.vx_stage.specs.KernelLaws.{KernelLaws};
ghost use Rattle.vx_stage.specs.Kernels.{IsFit, IsFitAlone};
ghost use Rattle.vx_stage.specs.declared.kernel.Kernel.{Kernel};
ghost use Rattle.vx_stage.specs.MergeLaws.{MergeLaws};

use vx_dev::tape_laws;
use vx_layout::super_places;
use vx_log::{batch_laws, body_laws, head_laws, home_laws, image_laws, note_laws};
use vx_model::allowed::allowed_laws;
use vx_model::edits::edit_laws;
use vx_model::images::{log_says, metadata, sector_contents};
use vx_model::states::state_reads;
use vx_model::waiting::waiting_laws;
use vx_sound::sound_laws;
use vx_wellformed::laws::state_sound;

/// Batches join, and what the log says with one.
pub fn merge_laws()
    ensures { MergeLaws }
{}

/// What a kernel keeps in memory, with a device that is large enough.
pub fn fit_laws()
    ensures alone { (d : Device) (k : Kernel) → IsFit d k → IsFitAlone k }
    ensures device { (d e : Device) (old new : Kernel) → IsFit d old → IsFitAlone new → new.sizes ≡ old.sizes → e.size ≡ d.size → IsFit e new }
{}

/// The laws of the tape, of the log and of images, as the stages use them.
pub fn kernel_laws()
    ensures { KernelLaws }
{
    tape_laws();
    super_places();
    batch_laws();
    body_laws();
    head_laws();
    home_laws();
    image_laws();
    log_says();
    metadata();
    sector_contents();
    note_laws();
    state_reads();
    state_sound();
    sound_laws();
    edit_laws();
    allowed_laws();
    waiting_laws();
}
