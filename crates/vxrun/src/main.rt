//! `vxrun`: makes a file system on an image file or mounts the one that is there, runs a script of one or more sessions on it, and prints
//! the answers.
#![tactic(auto)]

use std::fs::File;
use std::process::ExitCode;
use vx_base::{StdSink, StdSource};
use vx_filedev::FileDev;
use vx_host::{
    CommandLine, CopyingSource, ImageError, asks_for_usage, cause_of, command_line, complain,
    hold_standard_streams, line_of, open_image, open_or_make_image,
};
use vx_run::{OpenGate, Ran, run};
use vx_script::{ScriptRefusal, Why, parse};

/// The sectors of an image of one unit.
const FRESH_SECTORS: u64 = 9_220;

const BAD_SCRIPT: u8 = 3;

const NO_MEMORY: u8 = 6;

const CANNOT_OPEN: u8 = 9;

const USAGE: &str = "usage: vxrun fresh|mount IMAGE [-o log|delaylog] < SCRIPT
Makes a file system in the file IMAGE, or mounts the one that is there, answers the lines of SCRIPT, whose sessions take turns, and
unmounts it. vxrun(1) has more.
vxrun 0.1 of Vudkesh";

fn main(rt: HostRuntime) -> ExitCode {
    // kept to the end: no file that is opened may stand in the place of a closed standard stream
    let _streams = match hold_standard_streams(&rt) {
        Ok(streams) => streams,
        Err(_) => return ExitCode::from(cannot_open(&rt)),
    };
    let (line, dev) = match opened(&rt) {
        Ok(opened) => opened,
        Err(status) => return ExitCode::from(status),
    };
    let mut script = CopyingSource::new(rt.alloc(), StdSource::new(rt.stdin()));
    let mut out = StdSink::new(rt.stdout());
    let Ran {
        status,
        dev: _,
        history: _,
    } = run(
        &rt,
        rt.alloc(),
        line.words.as_slice(),
        dev,
        &mut script,
        &mut out,
        &OpenGate,
    );
    if let Some(why) = cause_of(status) {
        complain(&rt, "vxrun", line.words.as_slice(), &why);
    }
    if status == BAD_SCRIPT {
        point_at_bad_line(&rt, script.copy());
    }
    ExitCode::from(status)
}

/// Says on standard error which line of a refused script is bad, and why.
fn point_at_bad_line(rt: &HostRuntime, script: &[u8]) {
    let (line, why) = match parse(rt.alloc(), script) {
        Err(ScriptRefusal::BadLine { line, why }) => (line, reason(why)),
        Err(ScriptRefusal::BadOrder { line }) => (line, "no order of the lines comes to it"),
        _ => return,
    };
    let Ok(text) = String::from_utf8_lossy(rt.alloc(), line_of(script, line)) else {
        return;
    };
    let _ = eprintln!(rt; "vxrun: line {line}: {why}: {text}");
}

fn reason(why: Why) -> &'static str {
    match why {
        Why::Sessions => {
            "the script does not begin with `sessions N`, N from 1 to 16, or the line names no session of it"
        }
        Why::Unknown => "there is no such command yet",
        Why::Words => "the command has other words",
        Why::Number => "a number is of another form or out of its range",
        Why::Escape => "a byte or an escape is of another form",
        Why::TooManyLines => "there are more than 65,536 lines",
        Why::ReadSum => "the reads have too many bytes together",
        Why::WriteSum => "the writes have too many bytes together",
        Why::Lists => "there are more than 1,024 lists",
    }
}

/// The words and the image, or the status where there is none.
fn opened(rt: &HostRuntime) -> Result<(CommandLine, FileDev<File>), u8> {
    let Ok(line) = command_line(rt) else {
        return Err(NO_MEMORY);
    };
    if asks_for_usage(line.words.as_slice()) {
        let _ = rt.eprintln(USAGE);
    }
    if !line.has_image {
        return Err(cannot_open(rt));
    }
    match image(rt, &line) {
        Ok(dev) => Ok((line, dev)),
        Err(why) => {
            complain(rt, "vxrun", line.words.as_slice(), &why);
            Err(cannot_open(rt))
        }
    }
}

/// The image that the second word names. For `fresh` it is made, or lengthened with zeros.
fn image(rt: &HostRuntime, line: &CommandLine) -> Result<FileDev<File>, ImageError> {
    match line.words.as_slice() {
        [verb, path, ..] if verb.as_str() == "fresh" => {
            open_or_make_image(rt, path.as_str(), FRESH_SECTORS)
        }
        [_, path, ..] => open_image(rt, path.as_str()),
        _ => open_image(rt, ""),
    }
}

fn cannot_open(rt: &HostRuntime) -> u8 {
    let _ = rt.println("cannot open");
    CANNOT_OPEN
}
