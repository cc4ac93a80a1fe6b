//! The options of a mount.
ghost use Rattle.std.specs.Prelude.{◌≡◌};
ghost use Rattle.vx_modes.specs.Parse.{options_of};

use crate::choices::Choices;
use crate::elements::Elements;
use vx_base::{ConvOSync, Logging, MinCache};

/// The options of a mount.
#[derive(Clone, Copy, Debug, PartialEq, Eq)]
pub struct Options {
    pub logging: Logging,
    pub blkclear: bool,
    pub mincache: Option<MinCache>,
    pub convosync: Option<ConvOSync>,
}

/// What may be chosen once.
#[derive(Clone, Copy, Debug, PartialEq, Eq)]
pub enum OptionName {
    Logging,
    BlkClear,
    MinCache,
    ConvOSync,
}

/// Why a list of options is refused.
#[derive(Clone, Copy, Debug, PartialEq, Eq)]
pub enum OptionRefusal {
    /// The element at this place, from 0, is no option, or one that is not built.
    BadOption { at: u32 },
    /// It is chosen a second time.
    Twice(OptionName),
}

impl Options {
    /// The options that a list with commas names, or its first error. Without a logging mode it is `delaylog`.
    #[tactic(auto, unfolding(crate::specs::Parse::options_of, crate::specs::Parse::elements_of))]
    pub fn parse(list: &[u8]) -> Result<Options, OptionRefusal>
        ensures { result ≡ options_of list.now }
    {
        let mut choices = Choices::none();
        let mut at = 0;
        for word in Elements::new(list) {
            choices = choices.with_word(at, word)?;
            at += 1;
        }
        Ok(choices.options())
    }
}
