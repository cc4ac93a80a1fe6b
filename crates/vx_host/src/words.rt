//! The words of a command line.
use std::alloc::{AllocError, AllocGlobal};
use std::env::{Env, FillError};
use std::str;

/// Bytes for which a word is first given room; twice as many each time that they are too few.
const FIRST_ROOM: usize = 256;

/// The rooms that are tried: no word of an operating system is longer than the last.
const ROOMS: u32 = 20;

/// The most words, the program's name among them.
const MOST_WORDS: usize = 1 << 20;

/// The words behind a program's name.
#[derive(Debug, Drop)]
pub struct CommandLine {
    /// One that is not UTF-8 has replacement characters in it, which no word that is looked for has.
    pub words: Vec<String>,
    /// Whether the second word, which names the image, is there and is UTF-8.
    pub has_image: bool,
}

/// Reads the words of the command line; want of memory is the only error.
pub fn command_line<R: Env + AllocGlobal>(rt: &R) -> Result<CommandLine, AllocError> {
    let mut words = Vec::new(rt.alloc());
    let mut has_image = false;
    for place in 1..MOST_WORDS {
        let Some(bytes) = word(rt, place)? else {
            break;
        };
        let text = String::from_utf8_lossy(rt.alloc(), bytes.as_slice())?;
        if place == 2 {
            has_image = str::from_utf8(bytes.as_slice()).is_ok();
        }
        words.push(text)?;
    }
    Ok(CommandLine { words, has_image })
}

/// The bytes of a word; none behind the last one.
fn word<R: Env + AllocGlobal>(rt: &R, place: usize) -> Result<Option<Vec<u8>>, AllocError> {
    let mut bytes: Vec<u8> = Vec::new(rt.alloc());
    let mut room = FIRST_ROOM;
    for _try in 0..ROOMS {
        bytes.resize(room, 0)?;
        match rt.arg(place, bytes.as_mut_slice()) {
            Ok(len) => {
                bytes.truncate(len);
                return Ok(Some(bytes));
            }
            Err(FillError::NotPresent) => return Ok(None),
            Err(FillError::TooLong) => room = room.saturating_mul(2),
        }
    }
    bytes.clear();
    Ok(Some(bytes))
}
