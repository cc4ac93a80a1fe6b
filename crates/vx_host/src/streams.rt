//! The standard streams of a program.
use std::fs::File;
use std::io;
use std::os::fd::AsRawFd;

/// Standard input, output and error.
const STANDARD: i32 = 3;

/// What stands in the place of standard streams that were closed when the program began.
#[derive(Drop)]
pub struct StandardStreams {
    /// Open for reading alone, so that a write to one of them is a fault, and a read finds its end at once.
    _fillers: [Option<File>; 3],
}

/// Takes the numbers of those standard streams that are closed. Else the next file that is opened, an image, would be one of
/// them, and the answers or messages would be written into it. It is kept until the program ends.
pub fn hold_standard_streams(rt: &HostRuntime) -> io::Result<StandardStreams> {
    Ok(StandardStreams {
        _fillers: [filler(rt)?, filler(rt)?, filler(rt)?],
    })
}

/// A file that takes the lowest number, where that is a standard stream's.
fn filler(rt: &HostRuntime) -> io::Result<Option<File>> {
    let file = File::open(rt, "/dev/null")?;
    if file.as_raw_fd() < STANDARD {
        Ok(Some(file))
    } else {
        Ok(None)
    }
}
