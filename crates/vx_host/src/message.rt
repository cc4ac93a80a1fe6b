//! What the programs say on standard error.
ghost use Rattle.std.specs.Prelude.{◌≡◌, is_none, nat_eq};

use std::fmt::Display;

/// Whether the usage is to be said: the first word asks for it, or there are fewer words than a verb and an image.
pub fn asks_for_usage(words: &[String]) -> bool {
    match words {
        [verb, _, ..] => matches!(verb.as_str(), "--help" | "-h" | "--version"),
        _ => true,
    }
}

/// Why a program ends with this status; none for 0 alone.
pub fn cause_of(status: u8) -> Option<&'static str>
    ensures { is_none result ≡ nat_eq status 0 }
{
    match status {
        0 => None,
        1 => Some("the words of the command line are not good ones"),
        2 => Some("the image is too small, is no good file system, or was not left clean"),
        3 => Some("the script is not a good one, and nothing of it was done"),
        4 => Some("a write to the image failed"),
        5 => Some("the standard output did not take all"),
        6 => Some("there is not enough memory"),
        7 => Some("the standard input could not be read"),
        8 => Some("the image could not be read"),
        _ => Some("it could not begin"),
    }
}

/// Says on standard error, in one line, which file a program has ended over, and why.
pub fn complain(rt: &HostRuntime, program: &str, words: &[String], why: &impl Display) {
    let image = match words.get(1) {
        Some(word) => word.as_str(),
        None => "no image",
    };
    // where standard error takes nothing, there is nobody to tell
    let _ = eprintln!(rt; "{program}: {image}: {why}");
}
