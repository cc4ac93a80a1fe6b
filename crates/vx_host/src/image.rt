//! The file of an image.
use std::alloc::AllocError;
use std::fs::{File, Metadata, OpenOptions, TryLockError};
use std::io::{ErrorKind, Seek, SeekFrom};
use std::os::unix::fs::MetadataExt;
use std::path::Path;
use std::{fs, io};
use vx_filedev::FileDev;

/// Bytes in a sector.
const SECTOR: u64 = 512;

/// Files of the standard streams, by the names that the operating system gives them.
const STREAMS: [&str; 2] = ["/dev/stdin", "/dev/stdout"];

/// Why an image is not taken. In each case nothing has been written to it.
#[derive(Debug, Drop, thiserror::Error)]
pub enum ImageError {
    #[error("{0}")]
    Io(io::Error),
    #[error("it is in use by another program")]
    InUse,
    #[error("it is the standard input or the standard output")]
    Stream,
    #[error("there is not enough memory")]
    NoMemory,
}

impl From<AllocError> for ImageError {
    fn from(_: AllocError) -> ImageError {
        ImageError::NoMemory
    }
}

impl From<io::Error> for ImageError {
    fn from(error: io::Error) -> ImageError {
        ImageError::Io(error)
    }
}

/// An image that is there, as a device of all its whole sectors. It is locked until the device goes.
pub fn open_image(rt: &HostRuntime, path: &str) -> Result<FileDev<File>, ImageError> {
    let file = OpenOptions::new().read(true).write(true).open(rt, path)?;
    taken(rt, file, 0)
}

/// An image that is made where it is missing, with its entry in its folder made durable, and lengthened with zeros to so many
/// sectors where it is a shorter file. It is locked until the device goes, and before it is lengthened.
pub fn open_or_make_image(
    rt: &HostRuntime,
    path: &str,
    sectors: u64,
) -> Result<FileDev<File>, ImageError> {
    let made = OpenOptions::new()
        .read(true)
        .write(true)
        .create_new(true)
        .open(rt, path);
    match made {
        Ok(file) => {
            let dev = taken(rt, file, sectors)?;
            sync_folder(rt, path)?;
            Ok(dev)
        }
        Err(error) if error.kind() == ErrorKind::AlreadyExists => {
            let file = OpenOptions::new().read(true).write(true).open(rt, path)?;
            taken(rt, file, sectors)
        }
        Err(error) => Err(ImageError::Io(error)),
    }
}

/// Locks the file, lengthens it where it is one of fewer sectors, and makes a device of it.
fn taken(rt: &HostRuntime, file: File, sectors: u64) -> Result<FileDev<File>, ImageError> {
    let mut file = file;
    let about = file.metadata()?;
    if is_stream(rt, &about) {
        return Err(ImageError::Stream);
    }
    match file.try_lock() {
        Ok(()) => {}
        Err(TryLockError::WouldBlock) => return Err(ImageError::InUse),
        Err(TryLockError::Error(error)) => return Err(ImageError::Io(error)),
    }
    // the length of a block device is not in what is known of its file
    let mut len = file.seek(SeekFrom::End(0))?;
    let wanted = sectors.saturating_mul(SECTOR);
    if about.is_file() && len < wanted {
        file.set_len(wanted)?;
        len = wanted;
    }
    Ok(FileDev::new(rt.alloc(), file, len / SECTOR)?)
}

/// Whether it is the file of a standard stream. Where the system has no names for these, it counts as none.
fn is_stream(rt: &HostRuntime, about: &Metadata) -> bool {
    for name in STREAMS {
        if let Ok(stream) = fs::metadata(rt, name)
            && stream.dev() == about.dev()
            && stream.ino() == about.ino()
        {
            return true;
        }
    }
    false
}

/// Makes the entry of a new file in its folder durable.
fn sync_folder(rt: &HostRuntime, path: &str) -> io::Result<()> {
    let folder = match Path::new(path).parent() {
        Some(parent) if !parent.as_str().is_empty() => parent,
        _ => Path::new("."),
    };
    File::open(rt, folder)?.sync_all()
}
