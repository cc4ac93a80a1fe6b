//! The words of the command line, read by `clap`.
ghost use Rattle.std.specs.Prelude.{◌≡◌, ◌≤◌, IsTrue, IfOk, IfSome, map, nat_le, get_or, option_map};
ghost use Rattle.std.specs.List.{list_all};
ghost use Rattle.std.specs.String.{string_bytes};
ghost use Rattle.clap.specs.Words.{app_of, found_of, rows_of};
ghost use Rattle.vx_admin.specs.Words.{command, is_digit, is_number, number_of, number_within, units_of, log_blocks_of, mkfs_of, fsck_of, asked_by, asked_of, taken, asked, image_of, IsAsk};

use clap::error::ErrorKind;
use clap::{Arg, ArgAction, ArgMatches, Command};
use std::alloc::{AllocError, Global};
use vx_layout::Super;

/// The allocation units of a new file system, where nothing is said of them.
const UNITS: u32 = 1;

/// The blocks of a new file system's log, where nothing is said of them.
const LOG_BLOCKS: u32 = 512;

/// What the words ask for.
#[derive(Clone, Copy, Debug)]
pub enum Ask {
    /// The check of an image, and the replay of its log.
    Fsck,
    /// A new file system with this superblock, of 1 to 64 allocation units and a log of 256 to 2,048 blocks, which is left clean.
    Mkfs(Super),
}

/// What the words ask for: `fsck IMAGE`, or `mkfs IMAGE` with `--units N` and `--log N`, each once or not at all (docs/OUTPUT.md).
pub fn asked(alloc: Global, words: &[String]) -> Result<Option<Ask>, AllocError>
    ensures exact { IfOk result (λ ask. ask ≡ asked (map string_bytes words.now)) }
    ensures sizes { IfOk result (λ ask. IfSome ask IsAsk) }
{
    match taken(alloc, words) {
        Ok(Some(matches)) => Ok(asked_of(
            matches.get_str("verb"),
            matches.get_str("units"),
            matches.get_str("log"),
        )),
        Ok(None) => Ok(None),
        Err(error) => Err(error),
    }
}

/// The word that names the image, where the words have one of the forms that are asked for, with any verb and any values of the options.
pub fn image_of<'a>(alloc: Global, words: &'a [String]) -> Result<Option<&'a str>, AllocError>
    ensures { IfOk result (λ image. option_map (λ s. s.now) image ≡ image_of (map string_bytes words.now)) }
{
    match taken(alloc, words) {
        Ok(Some(matches)) => Ok(matches.get_str("image")),
        Ok(None) => Ok(None),
        Err(error) => Err(error),
    }
}

/// What the command finds in the words; nothing, where something is wrong with them.
fn taken<'a>(alloc: Global, words: &'a [String]) -> Result<Option<ArgMatches<'a>>, AllocError>
    ensures { IfOk result (λ found. option_map (λ matches. rows_of (found_of matches)) found ≡ taken (map string_bytes words.now)) }
{
    match command(alloc)?.try_get_matches_from(words) {
        Ok(matches) => Ok(Some(matches)),
        Err(error) => match error.kind() {
            ErrorKind::OutOfMemory => Err(AllocError),
            _ => Ok(None),
        },
    }
}

/// The command: a verb and an image, and two options that take a value once.
fn command<'a>(alloc: Global) -> Result<Command<'a>, AllocError>
    ensures { IfOk result (λ app. app_of app ≡ command) }
{
    let verb = Arg::new(alloc, "verb")
        .required(true)
        .action(ArgAction::Set);
    let image = Arg::new(alloc, "image")
        .required(true)
        .action(ArgAction::Set);
    let units = Arg::new(alloc, "units")
        .long("units")
        .action(ArgAction::Set);
    let log = Arg::new(alloc, "log").long("log").action(ArgAction::Set);
    Command::new(alloc, "vxadm")
        .no_binary_name(true)
        .arg(verb)?
        .arg(image)?
        .arg(units)?
        .arg(log)
}

fn asked_of(verb: Option<&str>, units: Option<&str>, log: Option<&str>) -> Option<Ask>
    ensures exact { result ≡ asked_of (option_map (λ s. s.now) verb.entry) (option_map (λ s. s.now) units.entry) (option_map (λ s. s.now) log.entry) }
    ensures sizes { IfSome result IsAsk }
{
    match verb {
        Some(verb) => asked_by(verb.as_bytes(), units, log),
        None => None,
    }
}

#[tactic(auto, unfolding(crate::specs::Words::asked_by))]
fn asked_by(verb: &[u8], units: Option<&str>, log: Option<&str>) -> Option<Ask>
    ensures exact { result ≡ asked_by verb.now (option_map (λ s. s.now) units.entry) (option_map (λ s. s.now) log.entry) }
    ensures sizes { IfSome result IsAsk }
{
    if verb == b"fsck".as_slice() {
        fsck(units, log)
    } else if verb == b"mkfs".as_slice() {
        mkfs(units_of(units), log_blocks_of(log))
    } else {
        None
    }
}

fn fsck(units: Option<&str>, log: Option<&str>) -> Option<Ask>
    ensures exact { result ≡ fsck_of (option_map (λ s. s.now) units.entry) (option_map (λ s. s.now) log.entry) }
    ensures sizes { IfSome result IsAsk }
{
    match (units, log) {
        (None, None) => Some(Ask::Fsck),
        _ => None,
    }
}

/// A new file system, where both sizes are good.
#[tactic(auto, unfolding(crate::specs::Words::mkfs_of))]
fn mkfs(units: Option<u32>, log_blocks: Option<u32>) -> Option<Ask>
    requires units { IfSome units (λ n. (1 ≤ n) × (n ≤ 64)) }
    requires log { IfSome log_blocks (λ n. (256 ≤ n) × (n ≤ 2048)) }
    ensures exact { result ≡ mkfs_of units log_blocks }
    ensures sizes { IfSome result IsAsk }
{
    match (units, log_blocks) {
        (Some(units), Some(log_blocks)) => Some(Ask::Mkfs(Super {
            log_blocks,
            units,
            clean: true,
        })),
        _ => None,
    }
}

fn units_of(word: Option<&str>) -> Option<u32>
    ensures exact { result ≡ units_of (option_map (λ s. s.now) word.entry) }
    ensures within { IfSome result (λ n. (1 ≤ n) × (n ≤ 64)) }
{
    match word {
        Some(word) => number_within(1, 64, word.as_bytes()),
        None => Some(UNITS),
    }
}

fn log_blocks_of(word: Option<&str>) -> Option<u32>
    ensures exact { result ≡ log_blocks_of (option_map (λ s. s.now) word.entry) }
    ensures within { IfSome result (λ n. (256 ≤ n) × (n ≤ 2048)) }
{
    match word {
        Some(word) => number_within(256, 2048, word.as_bytes()),
        None => Some(LOG_BLOCKS),
    }
}

/// The number that a word spells, where it lies within the limits.
#[tactic(auto, unfolding(crate::specs::Words::number_within))]
fn number_within(low: u32, high: u32, word: &[u8]) -> Option<u32>
    ensures exact { result ≡ number_within low high word.now }
    ensures within { IfSome result (λ n. (low ≤ n) × (n ≤ high)) }
{
    if !is_number(word) {
        return None;
    }
    let number = number_of(word);
    if low <= number && number <= high {
        Some(number)
    } else {
        None
    }
}

/// Whether a word is one to four decimal digits, of which the first is not zero.
fn is_number(word: &[u8]) -> bool
    ensures { result ≡ is_number word.now }
{
    word.len() <= 4 && starts_above_zero(word) && has_digits(word)
}

fn starts_above_zero(word: &[u8]) -> bool
    ensures { result ≡ nat_le 49 (get_or word.now 0 0) }
{
    match word {
        [first, ..] => *first >= b'1',
        [] => false,
    }
}

fn has_digits(word: &[u8]) -> bool
    ensures { result ≡ list_all is_digit word.now }
{
    word.iter().all(|b| *b >= b'0' && *b <= b'9')
}

fn number_of(digits: &[u8]) -> u32
    requires { IsTrue (is_number digits.now) }
    ensures { result ≡ number_of digits.now }
{
    let mut value = 0;
    for digit in digits {
        value = value * 10 + u32::from(*digit - b'0');
    }
    value
}
