//! What a crash may leave, as the history grows.
ghost use Rattle.vx_model.specs.AllowedLaws.{AllowedLaws};

/// What is allowed stays so as the history grows, and an image of the tree after all that has come is allowed.
pub fn allowed_laws()
    ensures { AllowedLaws }
{}
