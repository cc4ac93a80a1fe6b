//! The words of the command line.
ghost use Rattle.std.specs.Prelude.{◌≡◌, map};
ghost use Rattle.std.specs.String.{string_bytes};
ghost use Rattle.vx_run.specs.Words.{asked_of, mode_of, verb_of, with_verb};

use vx_base::Logging;
use vx_modes::Options;
use vx_script::StartRefusal;

/// What a run does with its image before the first turn.
#[derive(Clone, Copy, Debug, PartialEq, Eq)]
pub enum Verb {
    /// It makes a new file system there.
    Fresh,
    /// It mounts the one that is there.
    Mount,
}

/// What the words ask for.
#[derive(Clone, Copy, Debug, PartialEq, Eq)]
pub struct Asked {
    pub verb: Verb,
    pub logging: Logging,
}

/// What the words ask for, which are `fresh IMAGE` or `mount IMAGE`, with `-o LIST` behind or nothing. Without a list the mode is
/// `delaylog` (docs/MODES.md).
#[tactic(auto, unfolding(crate::specs::Words::asked_of))]
pub fn read_words(words: &[String]) -> Result<Asked, StartRefusal>
    ensures { result ≡ asked_of (map string_bytes words.now) }
{
    match words {
        [verb, _] => with_verb(verb_of(verb), Ok(Logging::DelayLog)),
        [verb, _, option, list] => with_verb(verb_of(verb), mode_of(option, list)),
        _ => Err(StartRefusal::BadWords),
    }
}

fn verb_of(word: &String) -> Option<Verb>
    ensures { result ≡ verb_of (string_bytes word.now) }
{
    if word.as_bytes() == b"fresh".as_slice() {
        Some(Verb::Fresh)
    } else if word.as_bytes() == b"mount".as_slice() {
        Some(Verb::Mount)
    } else {
        None
    }
}

/// The mode that `-o LIST` asks for.
fn mode_of(option: &String, list: &String) -> Result<Logging, StartRefusal>
    ensures { result ≡ mode_of (string_bytes option.now) (string_bytes list.now) }
{
    if option.as_bytes() == b"-o".as_slice() {
        match Options::parse(list.as_bytes()) {
            Ok(options) => Ok(options.logging),
            Err(why) => Err(StartRefusal::from(why)),
        }
    } else {
        Err(StartRefusal::BadWords)
    }
}

/// A wrong verb is told before a wrong list.
fn with_verb(
    verb: Option<Verb>,
    logging: Result<Logging, StartRefusal>,
) -> Result<Asked, StartRefusal>
    ensures { result ≡ with_verb verb logging }
{
    match verb {
        Some(verb) => match logging {
            Ok(logging) => Ok(Asked { verb, logging }),
            Err(why) => Err(why),
        },
        None => Err(StartRefusal::BadWords),
    }
}
