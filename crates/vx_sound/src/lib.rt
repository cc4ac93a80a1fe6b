//! When the metadata of an image are sound, what an image says, and the first fault of one that is wrong (docs/CHECK.md).
#![tactic(auto)]

ghost use Rattle.vx_sound.specs.Alike.{AlikeLaws};
ghost use Rattle.vx_sound.specs.Reading.{ClaimLaws, DecodingLaws, ReadingLaws};
ghost use Rattle.vx_sound.specs.Sound.{SoundLaws};

/// Sound is what passes every check; of what is not, one sector is named.
pub fn sound_laws()
    ensures { SoundLaws }
{}

/// A sound image holds what it says.
pub fn reading_laws()
    ensures { ReadingLaws }
{}

/// Each claimed block has one owner.
pub fn claim_laws()
    ensures { ClaimLaws }
{}

/// An image that holds what is said says it.
pub fn decoding_laws()
    ensures { DecodingLaws }
{}

/// What an image says, and whether it is sound, is for the sectors of its volume to say.
pub fn alike_laws()
    ensures { AlikeLaws }
{}
