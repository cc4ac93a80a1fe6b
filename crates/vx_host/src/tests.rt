//! Words and streams that the operating system seldom gives.
ghost use Rattle.std.specs.Io.{WritesAtMost};

use crate::command_line;
use std::env::{Env, FillError};
use std::io;
use std::io::{ErrorKind, Read, Write};
use std::process::Abort;
use std::test::Fail;
use vx_base::{Sink, Source, StdSink, StdSource};

/// A command line of four words, of which the second is no UTF-8 where `odd`.
#[derive(Drop)]
struct Line {
    odd: bool,
}

impl Env for Line {
    fn arg(&self, i: usize, buf: &mut [u8]) -> Result<usize, FillError> {
        match i {
            0 => filled(buf, b"vxrun"),
            1 => filled(buf, b"fresh"),
            2 if self.odd => filled(buf, &[0xff, 0x2f]),
            2 => filled(buf, b"disk.img"),
            3 => filled(buf, &[b'o'; 300]),
            _ => Err(FillError::NotPresent),
        }
    }

    fn var(&self, _name: &str, _buf: &mut [u8]) -> Result<usize, FillError> {
        Err(FillError::NotPresent)
    }

    fn var_at(&self, _i: usize, _buf: &mut [u8]) -> Result<usize, FillError> {
        Err(FillError::NotPresent)
    }
}

fn filled(buf: &mut [u8], word: &[u8]) -> Result<usize, FillError>
    ensures bound { WritesAtMost result buf.new }
{
    if buf.len() < word.len() {
        return Err(FillError::TooLong);
    }
    buf[..word.len()].copy_from_slice(word);
    Ok(word.len())
}

#[test]
fn words_of_a_command_line(rt: HostRuntime) -> Result<(), Fail> {
    let line = command_line(&(Line { odd: false }, rt.alloc()))?;
    assert!(rt; line.has_image);
    assert_eq!(rt; line.words.len(), 3);
    assert_eq!(rt; line.words[1].as_str(), "disk.img");
    assert_eq!(rt; line.words[2].len(), 300);
    let line = command_line(&(Line { odd: true }, rt.alloc()))?;
    assert!(rt; !line.has_image);
    assert_eq!(rt; line.words.len(), 3);
    Ok(())
}

/// A stream that a signal interrupts before each byte.
#[derive(Drop)]
struct Restless {
    was_interrupted: bool,
}

impl Restless {
    fn turn(&mut self) -> io::Result<usize> {
        self.was_interrupted = !self.was_interrupted;
        if self.was_interrupted {
            return Err(ErrorKind::Interrupted.into());
        }
        Ok(1)
    }
}

impl Read for Restless {
    fn read(&mut self, buf: &mut [u8]) -> io::Result<usize> {
        if buf.is_empty() {
            return Ok(0);
        }
        match self.turn() {
            Ok(_) => {
                buf[0] = 7;
                Ok(1)
            }
            Err(error) => Err(error),
        }
    }
}

impl Write for Restless {
    fn write(&mut self, buf: &[u8]) -> io::Result<usize> {
        if buf.is_empty() {
            return Ok(0);
        }
        match self.turn() {
            Ok(_) => Ok(1),
            Err(error) => Err(error),
        }
    }

    fn flush(&mut self) -> io::Result<()> {
        Ok(())
    }
}

#[test]
fn interrupted_streams(rt: HostRuntime) {
    let mut source = StdSource::new(Restless {
        was_interrupted: false,
    });
    let mut found = [0; 4];
    assert_eq!(rt; source.read(&mut found), Ok(1));
    assert_eq!(rt; found, [7, 0, 0, 0]);
    assert_eq!(rt; source.faults(), 0);
    let mut sink = StdSink::new(Restless {
        was_interrupted: false,
    });
    assert_eq!(rt; sink.write(b"ab"), Ok(1));
    assert_eq!(rt; sink.faults(), 0);
}
