//! The choices that a list of options makes, one element at a time.
ghost use Rattle.std.specs.Prelude.{◌≡◌, ◌+◌, ◌≤◌, IfOk};
ghost use Rattle.vx_modes.specs.Words.{choice_of, plain_choice, mincache_of, convosync_of, is_built, no_choices, with_choice, with_word, with_defaults, count_of};

use crate::options::{OptionName, OptionRefusal, Options};
use vx_base::{ConvOSync, Logging, MinCache};

/// What an element of the list chooses.
#[derive(Clone, Copy, Debug, PartialEq, Eq)]
pub enum Choice {
    Logging(Logging),
    BlkClear,
    MinCache(MinCache),
    ConvOSync(ConvOSync),
}

/// What the elements so far have chosen.
#[derive(Clone, Copy, Debug, PartialEq, Eq)]
pub struct Choices {
    pub logging: Option<Logging>,
    pub blkclear: bool,
    pub mincache: Option<MinCache>,
    pub convosync: Option<ConvOSync>,
}

impl Choices {
    pub fn none() -> Self
        ensures { result ≡ no_choices }
    {
        Choices {
            logging: None,
            blkclear: false,
            mincache: None,
            convosync: None,
        }
    }

    /// The choices with that of the element at a place.
    #[tactic(auto, unfolding(crate::specs::Words::with_word))]
    pub fn with_word(self, at: u32, word: &[u8]) -> Result<Choices, OptionRefusal>
        ensures next { result ≡ with_word at self word.now }
        ensures more { IfOk result (λ choices. count_of choices ≡ count_of self + 1) }
        ensures few { IfOk result (λ choices. count_of choices ≤ 4) }
    {
        match choice_of_word(word) {
            Some(choice) if is_built(choice) => self.with_choice(choice),
            _ => Err(OptionRefusal::BadOption { at }),
        }
    }

    fn with_choice(self, choice: Choice) -> Result<Choices, OptionRefusal>
        ensures next { result ≡ with_choice self choice }
        ensures more { IfOk result (λ choices. count_of choices ≡ count_of self + 1) }
        ensures few { IfOk result (λ choices. count_of choices ≤ 4) }
    {
        match choice {
            Choice::Logging(_) if self.logging.is_some() => {
                Err(OptionRefusal::Twice(OptionName::Logging))
            }
            Choice::BlkClear if self.blkclear => Err(OptionRefusal::Twice(OptionName::BlkClear)),
            Choice::MinCache(_) if self.mincache.is_some() => {
                Err(OptionRefusal::Twice(OptionName::MinCache))
            }
            Choice::ConvOSync(_) if self.convosync.is_some() => {
                Err(OptionRefusal::Twice(OptionName::ConvOSync))
            }
            Choice::Logging(logging) => Ok(Choices {
                logging: Some(logging),
                ..self
            }),
            Choice::BlkClear => Ok(Choices {
                blkclear: true,
                ..self
            }),
            Choice::MinCache(mincache) => Ok(Choices {
                mincache: Some(mincache),
                ..self
            }),
            Choice::ConvOSync(convosync) => Ok(Choices {
                convosync: Some(convosync),
                ..self
            }),
        }
    }

    pub fn options(self) -> Options
        ensures { result ≡ with_defaults self }
    {
        Options {
            logging: self.logging.unwrap_or(Logging::DelayLog),
            blkclear: self.blkclear,
            mincache: self.mincache,
            convosync: self.convosync,
        }
    }
}

/// Whether there is the choice by now; with the definition the one place that switches choices off.
fn is_built(choice: Choice) -> bool
    ensures { result ≡ is_built choice }
{
    matches!(
        choice,
        Choice::Logging(Logging::Log) | Choice::Logging(Logging::DelayLog)
    )
}

#[tactic(auto, unfolding(crate::specs::Words::choice_of))]
fn choice_of_word(word: &[u8]) -> Option<Choice>
    ensures { result ≡ choice_of word.now }
{
    if let Some(value) = word.strip_prefix(b"mincache=") {
        return mincache_of_word(value).map(Choice::MinCache);
    }
    if let Some(value) = word.strip_prefix(b"convosync=") {
        return convosync_of_word(value).map(Choice::ConvOSync);
    }
    plain_choice(word)
}

#[tactic(auto, unfolding(crate::specs::Words::plain_choice))]
fn plain_choice(word: &[u8]) -> Option<Choice>
    ensures { result ≡ plain_choice word.now }
{
    if word == b"log".as_slice() {
        Some(Choice::Logging(Logging::Log))
    } else if word == b"delaylog".as_slice() {
        Some(Choice::Logging(Logging::DelayLog))
    } else if word == b"tmplog".as_slice() {
        Some(Choice::Logging(Logging::TmpLog))
    } else if word == b"blkclear".as_slice() {
        Some(Choice::BlkClear)
    } else {
        None
    }
}

#[tactic(auto, unfolding(crate::specs::Words::mincache_of))]
fn mincache_of_word(value: &[u8]) -> Option<MinCache>
    ensures { result ≡ mincache_of value.now }
{
    if value == b"closesync".as_slice() {
        Some(MinCache::CloseSync)
    } else if value == b"direct".as_slice() {
        Some(MinCache::Direct)
    } else if value == b"dsync".as_slice() {
        Some(MinCache::DSync)
    } else if value == b"unbuffered".as_slice() {
        Some(MinCache::Unbuffered)
    } else if value == b"tmpcache".as_slice() {
        Some(MinCache::TmpCache)
    } else {
        None
    }
}

#[tactic(auto, unfolding(crate::specs::Words::convosync_of))]
fn convosync_of_word(value: &[u8]) -> Option<ConvOSync>
    ensures { result ≡ convosync_of value.now }
{
    if value == b"closesync".as_slice() {
        Some(ConvOSync::CloseSync)
    } else if value == b"delay".as_slice() {
        Some(ConvOSync::Delay)
    } else if value == b"direct".as_slice() {
        Some(ConvOSync::Direct)
    } else if value == b"dsync".as_slice() {
        Some(ConvOSync::DSync)
    } else if value == b"unbuffered".as_slice() {
        Some(ConvOSync::Unbuffered)
    } else {
        None
    }
}
