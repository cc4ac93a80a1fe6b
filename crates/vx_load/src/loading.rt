//! The loading of an image.
ghost use Rattle.std.specs.Prelude.{◌≡◌, ◌≤◌, ◌<◌, ◌+◌, ◌*◌, IfOk, IfErr, OnOk};
ghost use Rattle.vx_layout.specs.Supers.{IsSuper};
ghost use Rattle.vx_model.specs.LaidOut.{IsLaidOut};
ghost use Rattle.vx_model.specs.State.{State};
ghost use Rattle.vx_txn.specs.Loads.{IsLoadedTo};
ghost use Rattle.vx_txn.specs.Metas.{IsStateOf};
ghost use Rattle.vx_replay.specs.LogReads.{IsRead};
ghost use Rattle.vx_load.specs.Listed.{AreListed, AreOf, IsNext, IsThere};
ghost use Rattle.vx_load.specs.Loads.{IsLoaded, IsRefused};

use crate::plain::first_with_bytes;
use crate::refusal::LoadRefusal;
use std::alloc::{AllocError, Global};
use vx_base::{FileKind, Ino, InodeValue};
use vx_check::{Contents, read_metadata};
use vx_dev::BlockDev;
use vx_layout::{Super, super_places};
use vx_model::states::state_says;
use vx_replay::{CheckRefusal, CleanFront, check_clean_front, clean_front_laws};
use vx_said::laws::said_state;
use vx_txn::{Meta, loading_laws};

/// What a mount begins with.
#[derive(Drop)]
pub struct Loaded {
    /// The superblock and the head sector.
    pub front: CleanFront,
    pub meta: Meta,
}

/// Checks an image strictly and loads its metadata, and does no operation. No sector of the metadata is read twice.
///
/// # Errors
///
/// The image's first fault, in the order of docs/CHECK.md; or a file of it has bytes; or a sector could not be read, or memory is short.
pub fn load<D: BlockDev>(alloc: Global, dev: &mut D) -> Result<Loaded, LoadRefusal>
    ensures loaded { IfOk result (IsLoaded (D.state dev.old)) }
    ensures refused { IfErr result (IsRefused (D.state dev.old) (D.state dev.new)) }
    ensures read { IsRead (D.state dev.old) (D.state dev.new) }
{
    // The proof rests on these laws; nothing runs here.
    clean_front_laws();
    said_state();
    state_says();
    super_places();
    let front = match check_clean_front(alloc, dev) {
        Ok(front) => front,
        Err(why) => return Err(LoadRefusal::Check(why)),
    };
    let volume = front.superblock.volume();
    let found = match read_metadata(alloc, dev, &volume) {
        Ok(found) => found,
        Err(why) => return Err(LoadRefusal::from(why)),
    };
    match first_with_bytes(&found.inodes) {
        Some(ino) => return Err(LoadRefusal::HasBytes { ino: ino.get() }),
        None => {}
    }
    match metadata_of(alloc, &front.superblock, &found.inodes, &found.contents) {
        Ok(meta) => Ok(Loaded { front, meta }),
        Err(_) => Err(LoadRefusal::Check(CheckRefusal::NoMemory)),
    }
}

/// The metadata of these inodes, by their numbers.
fn metadata_of(
    alloc: Global,
    sizes: &Super,
    inodes: &[Option<InodeValue>],
    contents: &[Contents],
) -> Result<Meta, AllocError>
    requires is { IsSuper sizes.now }
    requires listed { AreListed sizes.now inodes.now contents.now }
    ensures { (s : State) → AreOf sizes.now s inodes.now contents.now → IfOk result (λ m. IsStateOf m s) }
{
    // The proof rests on these laws; nothing runs here.
    loading_laws();
    let mut meta = Meta::empty(alloc, sizes.log_blocks, sizes.units)?;
    'inodes: for n in 0..inodes.len() {
        put(
            alloc,
            &mut meta,
            Ino::new(n as u32),
            &inodes[n],
            &contents[n],
        )?;
    }
    Ok(meta)
}

/// Adds what stands at an inode number.
fn put(
    alloc: Global,
    meta: &mut Meta,
    ino: Ino,
    inode: &Option<InodeValue>,
    contents: &Contents,
) -> Result<(), AllocError>
    requires { IsNext meta.old ino inode.now contents.now }
    ensures { (s : State) → IsLaidOut s → IsLoadedTo s ino meta.old → IsThere s ino inode.now contents.now → OnOk result (IsLoadedTo s (ino + 1) meta.new) }
{
    // The proof rests on these laws; nothing runs here.
    loading_laws();
    match inode {
        None => Ok(()),
        Some(value) => match value.inode.kind {
            FileKind::File => meta.put_file(ino, &value.inode),
            FileKind::Directory => meta.put_directory(
                alloc,
                ino,
                &value.inode,
                contents.extents(),
                contents.maps(),
                contents.blocks(),
            ),
        },
    }
}
