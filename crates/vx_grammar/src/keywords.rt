//! The words that have names of their own.
ghost use Rattle.std.specs.Prelude.{◌≡◌};
ghost use Rattle.std.specs.List.{slice_split};
ghost use Rattle.vx_grammar.specs.Words.{is_word as is_that_word};
ghost use Rattle.vx_grammar.specs.Keywords.{flag_of as flag_of_word, tunable_of as tunable_of_word, bit_of as bit_of_name, with_flag as with_that_flag, bits_after as bits_of_names, is_comma, flags_of as flags_of_word, is_built as is_built_command, spelled_command as spelled_of, command_of as command_of_word, tree_command as tree_of, file_command as file_of, mount_command as mount_of, extent_command as extent_of};

use crate::lines::cut_at;
use crate::words::{Word, is_word};
use vx_base::{Flag, Tunable};

/// The commands of a script.
#[derive(Clone, Copy, Debug, PartialEq, Eq)]
pub enum CommandName {
    Create,
    Mkdir,
    Chmod,
    Unlink,
    Rmdir,
    Stat,
    List,
    Link,
    Rename,
    Open,
    Close,
    Fsync,
    Read,
    Write,
    Truncate,
    Sync,
    Tick,
    Stop,
    After,
    Setext,
    Getext,
    Tune,
    Fsadm,
}

/// The command that a word names, if there is one and it is built.
#[tactic(auto, unfolding(crate::specs::Keywords::command_of))]
pub fn command_of(word: &Word) -> Option<CommandName>
    ensures { result ≡ command_of_word word.now }
{
    match spelled_command(word) {
        Some(command) if is_built(command) => Some(command),
        _ => None,
    }
}

/// Whether there is the command by now; with the definition the one place that switches commands off.
fn is_built(command: CommandName) -> bool
    ensures { result ≡ is_built_command command }
{
    matches!(
        command,
        CommandName::Create
            | CommandName::Mkdir
            | CommandName::Chmod
            | CommandName::Unlink
            | CommandName::Rmdir
            | CommandName::Stat
            | CommandName::List
            | CommandName::Link
            | CommandName::Rename
            | CommandName::Sync
            | CommandName::Tick
            | CommandName::Stop
            | CommandName::After
    )
}

#[tactic(auto, unfolding(crate::specs::Keywords::spelled_command))]
fn spelled_command(word: &Word) -> Option<CommandName>
    ensures { result ≡ spelled_of word.now }
{
    tree_command(word)
        .or(file_command(word))
        .or(mount_command(word))
        .or(extent_command(word))
}

#[tactic(auto, unfolding(crate::specs::Keywords::tree_command))]
fn tree_command(word: &Word) -> Option<CommandName>
    ensures { result ≡ tree_of word.now }
{
    if is_word(word, b"create") {
        Some(CommandName::Create)
    } else if is_word(word, b"mkdir") {
        Some(CommandName::Mkdir)
    } else if is_word(word, b"chmod") {
        Some(CommandName::Chmod)
    } else if is_word(word, b"unlink") {
        Some(CommandName::Unlink)
    } else if is_word(word, b"rmdir") {
        Some(CommandName::Rmdir)
    } else if is_word(word, b"stat") {
        Some(CommandName::Stat)
    } else if is_word(word, b"list") {
        Some(CommandName::List)
    } else if is_word(word, b"link") {
        Some(CommandName::Link)
    } else if is_word(word, b"rename") {
        Some(CommandName::Rename)
    } else {
        None
    }
}

#[tactic(auto, unfolding(crate::specs::Keywords::file_command))]
fn file_command(word: &Word) -> Option<CommandName>
    ensures { result ≡ file_of word.now }
{
    if is_word(word, b"open") {
        Some(CommandName::Open)
    } else if is_word(word, b"close") {
        Some(CommandName::Close)
    } else if is_word(word, b"fsync") {
        Some(CommandName::Fsync)
    } else if is_word(word, b"read") {
        Some(CommandName::Read)
    } else if is_word(word, b"write") {
        Some(CommandName::Write)
    } else if is_word(word, b"truncate") {
        Some(CommandName::Truncate)
    } else {
        None
    }
}

#[tactic(auto, unfolding(crate::specs::Keywords::mount_command))]
fn mount_command(word: &Word) -> Option<CommandName>
    ensures { result ≡ mount_of word.now }
{
    if is_word(word, b"sync") {
        Some(CommandName::Sync)
    } else if is_word(word, b"tick") {
        Some(CommandName::Tick)
    } else if is_word(word, b"stop") {
        Some(CommandName::Stop)
    } else if is_word(word, b"after") {
        Some(CommandName::After)
    } else {
        None
    }
}

#[tactic(auto, unfolding(crate::specs::Keywords::extent_command))]
fn extent_command(word: &Word) -> Option<CommandName>
    ensures { result ≡ extent_of word.now }
{
    if is_word(word, b"setext") {
        Some(CommandName::Setext)
    } else if is_word(word, b"getext") {
        Some(CommandName::Getext)
    } else if is_word(word, b"tune") {
        Some(CommandName::Tune)
    } else if is_word(word, b"fsadm") {
        Some(CommandName::Fsadm)
    } else {
        None
    }
}

/// The flag that a file is opened with.
#[tactic(auto, unfolding(crate::specs::Keywords::flag_of))]
pub fn flag_of(word: &Word) -> Option<Flag>
    ensures { result ≡ flag_of_word word.now }
{
    if is_word(word, b"plain") {
        Some(Flag::Plain)
    } else if is_word(word, b"sync") {
        Some(Flag::Sync)
    } else if is_word(word, b"dsync") {
        Some(Flag::DSync)
    } else if is_word(word, b"direct") {
        Some(Flag::Direct)
    } else if is_word(word, b"unbuffered") {
        Some(Flag::Unbuffered)
    } else {
        None
    }
}

/// A setting of the mount.
#[tactic(auto, unfolding(crate::specs::Keywords::tunable_of))]
pub fn tunable_of(word: &Word) -> Option<Tunable>
    ensures { result ≡ tunable_of_word word.now }
{
    if is_word(word, b"initial_extent_size") {
        Some(Tunable::InitialExtentSize)
    } else if is_word(word, b"delay_ticks") {
        Some(Tunable::DelayTicks)
    } else if is_word(word, b"tmp_ticks") {
        Some(Tunable::TmpTicks)
    } else {
        None
    }
}

/// The bits of the flags of attributes: a dash, or distinct names with commas between them.
#[tactic(auto, unfolding(crate::specs::Keywords::flags_of))]
pub fn flags_of(word: &Word) -> Option<u8>
    ensures { result ≡ flags_of_word word.now }
{
    match word {
        None => None,
        Some(word) if word.as_slice() == b"-".as_slice() => Some(0),
        Some(word) => bits_after(0, word.as_slice()),
    }
}

/// These bits, and those of the names that commas part.
fn bits_after(bits: u8, names: &[u8]) -> Option<u8>
    ensures { result ≡ bits_of_names bits (slice_split is_comma names.now) }
{
    let (name, rest) = cut_at(names, b',');
    let more = with_flag(bits, name)?;
    if name.len() == names.len() {
        Some(more)
    } else {
        bits_after(more, rest)
    }
}

/// These bits, and the one of a name, which isn't among them.
fn with_flag(bits: u8, name: &[u8]) -> Option<u8>
    ensures { result ≡ with_that_flag bits name.now }
{
    let bit = bit_of(name);
    if bit != 0 && bits & bit == 0 {
        Some(bits | bit)
    } else {
        None
    }
}

/// The bit of a flag of attributes, 0 for another word.
fn bit_of(name: &[u8]) -> u8
    ensures { result ≡ bit_of_name name.now }
{
    if name == b"align".as_slice() {
        1
    } else if name == b"contig".as_slice() {
        2
    } else if name == b"noextend".as_slice() {
        4
    } else if name == b"noreserve".as_slice() {
        8
    } else if name == b"trim".as_slice() {
        16
    } else if name == b"chgsize".as_slice() {
        32
    } else {
        0
    }
}
