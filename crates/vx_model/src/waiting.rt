//! Blocks that a call gives up wait.
ghost use Rattle.vx_model.specs.Waiting.{WaitingLaws};

/// No call frees a block: what it gives up waits, until the event that gave it up has been released.
pub fn waiting_laws()
    ensures { WaitingLaws }
{}
