//! `vxadm`: checks an image file and replays its log, or makes a file system in it, and prints how that ended.
#![tactic(auto)]

use std::fs::File;
use std::process::ExitCode;
use vx_admin::{AdminDone, admin, image_of};
use vx_base::StdSink;
use vx_filedev::FileDev;
use vx_host::{
    CommandLine, ImageError, asks_for_usage, cause_of, command_line, complain,
    hold_standard_streams, open_image,
};

const NO_MEMORY: u8 = 6;

const CANNOT_OPEN: u8 = 9;

const USAGE: &str = "usage: vxadm fsck IMAGE
       vxadm mkfs IMAGE [--units N] [--log N]
Checks an image, replays its log and leaves it clean, or makes a new file system in it. vxadm(1) has more.
vxadm 0.1 of Vudkesh";

fn main(rt: HostRuntime) -> ExitCode {
    ExitCode::from(status(&rt))
}

fn status(rt: &HostRuntime) -> u8 {
    // kept to the end: no file that is opened may stand in the place of a closed standard stream
    let _streams = match hold_standard_streams(rt) {
        Ok(streams) => streams,
        Err(_) => return cannot_open(rt),
    };
    let Ok(line) = command_line(rt) else {
        return NO_MEMORY;
    };
    if asks_for_usage(line.words.as_slice()) {
        let _ = rt.eprintln(USAGE);
    }
    if !line.has_image {
        return cannot_open(rt);
    }
    let Ok(named) = image_of(rt.alloc(), line.words.as_slice()) else {
        return NO_MEMORY;
    };
    match image(rt, line.words.as_slice(), named) {
        Ok(dev) => administered(rt, &line, dev),
        Err(why) => {
            complain(rt, "vxadm", line.words.as_slice(), &why);
            cannot_open(rt)
        }
    }
}

/// Does what the words ask for, and answers the status.
fn administered(rt: &HostRuntime, line: &CommandLine, dev: FileDev<File>) -> u8 {
    let mut out = StdSink::new(rt.stdout());
    let AdminDone { status, dev: _ } = admin(rt.alloc(), line.words.as_slice(), dev, &mut out);
    if let Some(why) = cause_of(status) {
        complain(rt, "vxadm", line.words.as_slice(), &why);
    }
    status
}

/// The image that the words name, or the second word where they have no good form. It is never made or lengthened.
fn image(
    rt: &HostRuntime,
    words: &[String],
    named: Option<&str>,
) -> Result<FileDev<File>, ImageError> {
    match named {
        Some(path) => open_image(rt, path),
        None => match words {
            [_, path, ..] => open_image(rt, path.as_str()),
            _ => open_image(rt, ""),
        },
    }
}

fn cannot_open(rt: &HostRuntime) -> u8 {
    let _ = rt.println("cannot open");
    CANNOT_OPEN
}
