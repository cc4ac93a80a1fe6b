//! The calls that lines ask for: of each command the words that follow it, looked at in the order of the whys.
ghost use Rattle.std.specs.Prelude.{◌≡◌, ◌≤◌};
ghost use Rattle.vx_grammar.specs.Commands.{path_alone as path_alone_of, path_and_mode as path_and_mode_of, two_paths as two_paths_of, handle_alone as handle_alone_of, no_words, open_words, read_words, truncate_words, write_words, hex_words, text_words, fill_words, setext_words, tune_words, option_words, fsadm_words, after_words, call_of as call_of_command, command_call as call_of_word};
ghost use Rattle.vx_grammar.specs.Faults.{Reads};
ghost use Rattle.vx_base.specs.declared.call.Call.TheVariants as call;

use crate::fields::{
    byte_field, bytes_of, command_field, few_bytes, flag_field, flags_field, four_words,
    handle_field, hex_field, line_count_field, mode_field, number_field, one_word, three_words,
    tunable_field, two_words, word_field,
};
use crate::keywords::CommandName;
use crate::why::{LineFault, Why};
use crate::words::{Word, is_word};
use std::alloc::Global;
use vx_base::{Bytes, Call, ExtAttrs, Payload};

const FAR: u64 = 1_099_511_627_776;

const MOST_LEN: u64 = 65_536;

/// The call of a command's word and the words after it, in a script of so many sessions.
#[tactic(auto, unfolding(crate::specs::Commands::command_call))]
pub fn command_call(
    alloc: Global,
    sessions: u8,
    command: &Word,
    words: &[Word],
) -> Result<Call, LineFault>
    requires { 1 ≤ sessions }
    ensures { Reads (call_of_word sessions command.now words.now) result }
{
    let command = command_field(command)?;
    call_of(alloc, sessions, command, words)
}

/// The call of a command and the words after its name.
#[tactic(auto, unfolding(crate::specs::Commands::call_of))]
pub fn call_of(
    alloc: Global,
    sessions: u8,
    command: CommandName,
    words: &[Word],
) -> Result<Call, LineFault>
    requires { 1 ≤ sessions }
    ensures { Reads (call_of_command sessions command words.now) result }
{
    match command {
        CommandName::Create => {
            let (path, mode) = path_and_mode(alloc, words)?;
            Ok(Call::Create { path, mode })
        }
        CommandName::Mkdir => {
            let (path, mode) = path_and_mode(alloc, words)?;
            Ok(Call::Mkdir { path, mode })
        }
        CommandName::Chmod => {
            let (path, mode) = path_and_mode(alloc, words)?;
            Ok(Call::Chmod { path, mode })
        }
        CommandName::Unlink => Ok(Call::Unlink {
            path: path_alone(alloc, words)?,
        }),
        CommandName::Rmdir => Ok(Call::Rmdir {
            path: path_alone(alloc, words)?,
        }),
        CommandName::Stat => Ok(Call::Stat {
            path: path_alone(alloc, words)?,
        }),
        CommandName::List => Ok(Call::List {
            path: path_alone(alloc, words)?,
        }),
        CommandName::Link => {
            let (old, new) = two_paths(alloc, words)?;
            Ok(Call::Link { old, new })
        }
        CommandName::Rename => {
            let (old, new) = two_paths(alloc, words)?;
            Ok(Call::Rename { old, new })
        }
        CommandName::Open => open_call(alloc, words),
        CommandName::Close => Ok(Call::Close {
            handle: handle_alone(words)?,
        }),
        CommandName::Fsync => Ok(Call::Fsync {
            handle: handle_alone(words)?,
        }),
        CommandName::Read => read_call(words),
        CommandName::Write => write_call(alloc, words),
        CommandName::Truncate => truncate_call(words),
        CommandName::Sync => alone(Call::Sync, words),
        CommandName::Tick => alone(Call::Tick, words),
        CommandName::Stop => alone(Call::Stop, words),
        CommandName::After => after_call(sessions, words),
        CommandName::Setext => setext_call(alloc, words),
        CommandName::Getext => Ok(Call::Getext {
            path: path_alone(alloc, words)?,
        }),
        CommandName::Tune => tune_call(words),
        CommandName::Fsadm => fsadm_call(alloc, words),
    }
}

fn alone(call: Call, words: &[Word]) -> Result<Call, LineFault>
    ensures { Reads (no_words call words.now) result }
{
    match words {
        [] => Ok(call),
        _ => Err(LineFault::Bad(Why::Words)),
    }
}

fn path_alone(alloc: Global, words: &[Word]) -> Result<Bytes, LineFault>
    ensures { Reads (path_alone_of words.now) result }
{
    let path = one_word(words)?;
    bytes_of(alloc, path)
}

fn path_and_mode(alloc: Global, words: &[Word]) -> Result<(Bytes, u16), LineFault>
    ensures { Reads (path_and_mode_of words.now) result }
{
    let (path, mode) = two_words(words)?;
    let mode = mode_field(mode)?;
    let path = bytes_of(alloc, path)?;
    Ok((path, mode))
}

fn two_paths(alloc: Global, words: &[Word]) -> Result<(Bytes, Bytes), LineFault>
    ensures { Reads (two_paths_of words.now) result }
{
    let (old, new) = two_words(words)?;
    let old = bytes_of(alloc, old)?;
    let new = bytes_of(alloc, new)?;
    Ok((old, new))
}

fn handle_alone(words: &[Word]) -> Result<u8, LineFault>
    ensures { Reads (handle_alone_of words.now) result }
{
    let handle = one_word(words)?;
    handle_field(handle)
}

fn open_call(alloc: Global, words: &[Word]) -> Result<Call, LineFault>
    ensures { Reads (open_words words.now) result }
{
    let (handle, path, flag) = three_words(words)?;
    let flag = flag_field(flag)?;
    let handle = handle_field(handle)?;
    let path = bytes_of(alloc, path)?;
    Ok(Call::OpenFile { handle, path, flag })
}

fn read_call(words: &[Word]) -> Result<Call, LineFault>
    ensures { Reads (read_words words.now) result }
{
    let (handle, offset, len) = three_words(words)?;
    let handle = handle_field(handle)?;
    let offset = number_field(offset, 0, FAR)?;
    let len = number_field(len, 1, MOST_LEN)? as u32;
    Ok(Call::Read {
        handle,
        offset,
        len,
    })
}

fn truncate_call(words: &[Word]) -> Result<Call, LineFault>
    ensures { Reads (truncate_words words.now) result }
{
    let (handle, size) = two_words(words)?;
    let handle = handle_field(handle)?;
    let size = number_field(size, 0, FAR)?;
    Ok(Call::Truncate { handle, size })
}

#[tactic(auto, unfolding(crate::specs::Commands::write_words))]
fn write_call(alloc: Global, words: &[Word]) -> Result<Call, LineFault>
    ensures { Reads (write_words words.now) result }
{
    match words {
        [handle, offset, kind, content] if is_word(kind, b"hex") => {
            write_hex(alloc, handle, offset, content)
        }
        [handle, offset, kind, content] if is_word(kind, b"text") => {
            write_text(alloc, handle, offset, content)
        }
        [handle, offset, kind, byte, len] if is_word(kind, b"fill") => {
            write_fill(handle, offset, byte, len)
        }
        _ => Err(LineFault::Bad(Why::Words)),
    }
}

fn write_hex(alloc: Global, handle: &Word, offset: &Word, content: &Word) -> Result<Call, LineFault>
    ensures { Reads (hex_words handle.now offset.now content.now) result }
{
    let handle = handle_field(handle)?;
    let offset = number_field(offset, 0, FAR)?;
    let bytes = hex_field(alloc, content)?;
    Ok(Call::Write {
        handle,
        offset,
        payload: Payload::Given(bytes),
    })
}

fn write_text(
    alloc: Global,
    handle: &Word,
    offset: &Word,
    content: &Word,
) -> Result<Call, LineFault>
    ensures { Reads (text_words handle.now offset.now content.now) result }
{
    let handle = handle_field(handle)?;
    let offset = number_field(offset, 0, FAR)?;
    let bytes = few_bytes(bytes_of(alloc, content)?)?;
    Ok(Call::Write {
        handle,
        offset,
        payload: Payload::Given(bytes),
    })
}

fn write_fill(handle: &Word, offset: &Word, byte: &Word, len: &Word) -> Result<Call, LineFault>
    ensures { Reads (fill_words handle.now offset.now byte.now len.now) result }
{
    let handle = handle_field(handle)?;
    let offset = number_field(offset, 0, FAR)?;
    let byte = byte_field(byte)?;
    let len = number_field(len, 1, MOST_LEN)? as u32;
    Ok(Call::Write {
        handle,
        offset,
        payload: Payload::Fill { byte, len },
    })
}

fn setext_call(alloc: Global, words: &[Word]) -> Result<Call, LineFault>
    ensures { Reads (setext_words words.now) result }
{
    let (path, fixed, reserve, flags) = four_words(words)?;
    let flags = flags_field(flags)?;
    let fixed = word_field(fixed)?;
    let reserve = word_field(reserve)?;
    let path = bytes_of(alloc, path)?;
    let attrs = ExtAttrs {
        fixed,
        reserve,
        flags,
    };
    Ok(Call::Setext { path, attrs })
}

fn tune_call(words: &[Word]) -> Result<Call, LineFault>
    ensures { Reads (tune_words words.now) result }
{
    let (name, value) = two_words(words)?;
    let name = tunable_field(name)?;
    let value = word_field(value)?;
    Ok(Call::Tune { name, value })
}

fn fsadm_call(alloc: Global, words: &[Word]) -> Result<Call, LineFault>
    ensures { Reads (fsadm_words words.now) result }
{
    let (option, word) = two_words(words)?;
    option_call(alloc, option, word)
}

fn option_call(alloc: Global, option: &Word, word: &Word) -> Result<Call, LineFault>
    ensures { Reads (option_words option.now word.now) result }
{
    if is_word(option, b"-e") {
        let path = bytes_of(alloc, word)?;
        Ok(Call::Reorg { path })
    } else if is_word(option, b"-d") {
        let path = bytes_of(alloc, word)?;
        Ok(Call::DirReorg { path })
    } else if is_word(option, b"-E") {
        let path = bytes_of(alloc, word)?;
        Ok(Call::ExtReport { path })
    } else if is_word(option, b"-D") {
        let path = bytes_of(alloc, word)?;
        Ok(Call::DirReport { path })
    } else if is_word(option, b"-b") {
        let units = number_field(word, 1, 64)? as u32;
        Ok(Call::Resize { units })
    } else {
        Err(LineFault::Bad(Why::Words))
    }
}

fn after_call(sessions: u8, words: &[Word]) -> Result<Call, LineFault>
    requires { 1 ≤ sessions }
    ensures { Reads (after_words sessions words.now) result }
{
    let (session, lines) = two_words(words)?;
    let session = number_field(session, 0, u64::from(sessions) - 1)? as u8;
    let lines = line_count_field(lines)?;
    Ok(Call::After { session, lines })
}
