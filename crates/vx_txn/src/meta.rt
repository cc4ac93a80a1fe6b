//! The metadata.
ghost use Rattle.std.specs.Prelude.{◌≡◌, ◌+◌, ◌*◌, ◌≤◌, ◌<◌, IfOk, IfSome, IsSome, OnErr, ℕ, Option, None, Ok, true, false, is_some, slice_get, IsTrue, length};
ghost use Rattle.std.specs.Option.{option_copied};
ghost use Rattle.vx_base.specs.declared.kind.FileKind.TheVariants as kind;
ghost use Rattle.vx_extents.specs.Extents.{stretches};
ghost use Rattle.vx_layout.specs.Places.{is_data};
ghost use Rattle.vx_model.specs.Contents.{inode_value};
ghost use Rattle.vx_model.specs.LaidOut.{IsLaidOut, IsPlain};
ghost use Rattle.vx_model.specs.Layout.{volume, claim_of};
ghost use Rattle.vx_model.specs.Legal.{IfThere, with_released};
ghost use Rattle.vx_model.specs.Naming.{list};
ghost use Rattle.vx_model.specs.State.{State, fresh};
ghost use Rattle.vx_base.specs.declared.reply.Reply.TheVariants.{Fine};
ghost use Rattle.vx_model.specs.Step.{is_of_names, is_for_mount, step};
ghost use Rattle.vx_model.specs.Touching.{untouched};
ghost use Rattle.vx_model.specs.Tree.{no_attrs};
ghost use Rattle.vx_txn.specs.Calls.{HasMode, IsDone, IsSettled, most};
ghost use Rattle.vx_txn.specs.Replies.{FitsReply, IsShort, IsSound as IsSoundReply};
ghost use Rattle.vx_txn.specs.Values.{AreFew, value_by, has_short_step};
ghost use Rattle.vx_txn.specs.Metas.{IsStateOf, IsSound, IsUnchanged, Stands, directory_of};

use crate::chmod::chmod;
use crate::directory::Directory;
use crate::link::link;
use crate::make::{Making, make};
use crate::read::{list, stat};
use crate::remove::{rmdir, unlink};
use crate::rename::rename;
use crate::slots::directory_at;
use crate::touched::Touched;
use std::alloc::{AllocError, Global};
use vx_alloc::FreeMap;
use vx_base::{
    Block, Call, ExtAttrs, Extent, FileKind, Ino, Inode, InodeValue, Reply, copy_of_reply,
};
use vx_extents::ExtentMap;
use vx_filemaps::Scratch;
use vx_inode::InodeTable;
use vx_model::states::{claims, fresh_reads, plain_states};

/// The units of a new file system.
const UNITS: u32 = 1;

const ROOT: u32 = 2;

const ROOT_MODE: u16 = 0o755;

/// The inodes, the directories by their inode numbers, and the free blocks.
#[derive(Drop)]
pub struct Meta {
    pub(crate) inodes: InodeTable,
    pub(crate) directories: Vec<Option<Directory>>,
    pub(crate) free: FreeMap,
    pub(crate) scratch: Scratch,
    /// The first block of unit 0.
    pub(crate) first: Block,
}

impl Meta {
    /// The metadata of a new file system of one unit, whose root is empty.
    pub fn fresh(alloc: Global, log_blocks: u32) -> Result<Self, AllocError>
        requires { log_blocks ≤ 2048 }
        ensures state { IfOk result (λ m. (device_sectors : ℕ) → IsStateOf m (fresh log_blocks 64 device_sectors)) }
        ensures sound { IfOk result IsSound }
    {
        // The proof rests on this law; nothing runs here.
        fresh_reads();
        let mut inodes = InodeTable::new(alloc, UNITS)?;
        inodes.put(Ino::new(ROOT), &root())?;
        let mut directories = Vec::new(alloc);
        directories.push(None)?;
        directories.push(None)?;
        directories.push(Some(Directory::new(alloc)))?;
        let first = Block::new(2 + log_blocks);
        let free = FreeMap::new(alloc, first, UNITS)?;
        Ok(Meta {
            inodes,
            directories,
            free,
            scratch: Scratch::new(alloc),
            first,
        })
    }

    /// Does a call at this place of the history, and answers its reply, twice. Nothing changes where memory is short or the call is
    /// refused. A refused call, stat and list touch nothing; a call to the mount, as sync, takes no memory and is answered with Fine.
    pub fn apply(
        &mut self,
        alloc: Global,
        call: &Call,
        place: u64,
        touched: &mut Touched,
    ) -> Result<(Reply, Reply), AllocError>
        requires built { is_of_names call.now ≡ true }
        requires mode { HasMode call.now }
        requires sound { IsSound self.old }
        requires empty { touched.old ≡ untouched }
        ensures done { (s : State) (session : ℕ) → IsLaidOut s → IsPlain s → IsStateOf self.old s
            → IfOk result (λ replies. IfThere (step s place session call.now) (λ done. IsDone s done self.new touched.new replies.0)) }
        ensures copy { IfOk result (λ replies. replies.1 ≡ replies.0) }
        ensures sound { IfOk result (λ replies. IsSoundReply replies.0) }
        ensures stays { IsSound self.new }
        ensures fits { IfOk result (λ replies. FitsReply touched.new replies.0) }
        ensures few { most touched.new ≤ 4 }
        ensures units { length touched.new.units ≤ 70 }
        ensures err { (s : State) → IsStateOf self.old s → OnErr result (IsStateOf self.new s) }
        ensures untouched { OnErr result (touched.new ≡ untouched) }
        ensures mount { is_for_mount call.now ≡ true → result ≡ Ok (Fine, Fine) }
    {
        match call {
            Call::List { path } => listed(self, alloc, path.as_slice()),
            _ => changed(self, alloc, call, place, touched),
        }
    }

    /// Blocks freed by events at places below `upto` are free.
    pub fn release(&mut self, upto: u64)
        ensures { (s : State) → IsLaidOut s → IsPlain s → IsStateOf self.old s → IsStateOf self.new (with_released s upto) }
    {
        self.free.release(upto);
    }

    /// Whether blocks wait to be free.
    pub fn has_pending(&self) -> bool
        ensures none { (s : State) → IsStateOf self.now s → result ≡ false → (b : ℕ) → s.layout.pending b ≡ None }
        ensures some { (s : State) → IsStateOf self.now s → result ≡ true → (b : ℕ) × IsSome (s.layout.pending b) }
    {
        self.free.pending() != 0
    }

    /// What the inode of a number says.
    pub fn inode_value(&self, ino: Ino) -> Option<InodeValue>
        ensures { (s : State) → IsLaidOut s → IsPlain s → IsStateOf self.now s → result ≡ inode_value s ino }
    {
        match self.inodes.get(ino) {
            Some(inode) => Some(value_of(*inode, self.directory(ino))),
            None => None,
        }
    }

    /// The directory of an inode number.
    pub fn directory(&self, ino: Ino) -> Option<&Directory>
        ensures { option_copied result ≡ directory_of self.now ino }
    {
        directory_at(self.directories.as_slice(), ino)
    }
}

/// The inode of an empty root.
fn root() -> Inode
    ensures { result ≡ record { kind = kind.Directory; mode = 493; nlink = 1; size = 0; attrs = no_attrs } }
{
    Inode {
        kind: FileKind::Directory,
        mode: ROOT_MODE,
        nlink: 1,
        size: 0,
        attrs: ExtAttrs {
            fixed: 0,
            reserve: 0,
            flags: 0,
        },
    }
}

/// What the inode and its directory say, as the inode's slot has it.
fn value_of(inode: Inode, directory: Option<&Directory>) -> InodeValue
    ensures { AreFew (option_copied directory.entry) → result ≡ value_by inode (option_copied directory.entry) }
{
    match directory {
        Some(directory) => {
            let maps = directory.maps();
            InodeValue {
                inode,
                maps: maps.chain().len().min(65_535) as u16,
                extents: maps.present().extents(),
                first: [
                    extent_at(maps.present(), 0),
                    extent_at(maps.present(), 1),
                    extent_at(maps.present(), 2),
                    extent_at(maps.present(), 3),
                    extent_at(maps.present(), 4),
                    extent_at(maps.present(), 5),
                ],
                map: maps.chain().first().copied(),
            }
        }
        None => InodeValue {
            inode,
            maps: 0,
            extents: 0,
            first: [None, None, None, None, None, None],
            map: None,
        },
    }
}

/// An extent by its place, if there is one.
fn extent_at(pages: &ExtentMap, i: u32) -> Option<Extent>
    ensures { result ≡ slice_get (stretches pages.now.pages) i }
{
    if i < pages.extents() {
        Some(pages.stretch(i))
    } else {
        None
    }
}

/// What list answers, twice.
fn listed(meta: &Meta, alloc: Global, path: &[u8]) -> Result<(Reply, Reply), AllocError>
    ensures done { (s : State) → Stands meta.now s → IfOk result (λ replies. IsSettled s (list s path.now) meta.now untouched replies.0) }
    ensures copy { IfOk result (λ replies. replies.1 ≡ replies.0) }
    ensures sound { IfOk result (λ replies. IsSoundReply replies.0) }
{
    let reply = list(meta, alloc, path)?;
    let copy = copy_of_reply(&reply)?;
    Ok((reply, copy))
}

/// Does a call of names but for list, and answers its reply, twice.
fn changed(
    meta: &mut Meta,
    alloc: Global,
    call: &Call,
    place: u64,
    touched: &mut Touched,
) -> Result<(Reply, Reply), AllocError>
    requires built { has_short_step call.now ≡ true }
    requires mode { HasMode call.now }
    requires sound { IsSound meta.old }
    requires empty { touched.old ≡ untouched }
    ensures done { (s : State) (session : ℕ) → Stands meta.old s
        → IfOk result (λ replies. IfThere (step s place session call.now) (λ done. IsDone s done meta.new touched.new replies.0)) }
    ensures copy { IfOk result (λ replies. replies.1 ≡ replies.0) }
    ensures short { IfOk result (λ replies. IsShort replies.0) }
    ensures fits { IfOk result (λ replies. FitsReply touched.new replies.0) }
    ensures few { most touched.new ≤ 4 }
    ensures units { length touched.new.units ≤ 70 }
    ensures unchanged { OnErr result (IsUnchanged meta.old meta.new) }
    ensures untouched { OnErr result (touched.new ≡ untouched) }
    ensures mount { is_for_mount call.now ≡ true → result ≡ Ok (Fine, Fine) }
{
    match short_reply(meta, alloc, call, place, touched) {
        Ok(reply) => {
            let copy = short_copy(&reply);
            Ok((reply, copy))
        }
        Err(_) => Err(AllocError),
    }
}

/// Does a call of names but for list.
fn short_reply(
    meta: &mut Meta,
    alloc: Global,
    call: &Call,
    place: u64,
    touched: &mut Touched,
) -> Result<Reply, AllocError>
    requires built { has_short_step call.now ≡ true }
    requires mode { HasMode call.now }
    requires sound { IsSound meta.old }
    requires empty { touched.old ≡ untouched }
    ensures done { (s : State) (session : ℕ) → Stands meta.old s
        → IfOk result (λ reply. IfThere (step s place session call.now) (λ done. IsDone s done meta.new touched.new reply)) }
    ensures short { IfOk result IsShort }
    ensures fits { IfOk result (FitsReply touched.new) }
    ensures few { most touched.new ≤ 4 }
    ensures units { length touched.new.units ≤ 70 }
    ensures unchanged { OnErr result (IsUnchanged meta.old meta.new) }
    ensures untouched { OnErr result (touched.new ≡ untouched) }
    ensures mount { is_for_mount call.now ≡ true → result ≡ Ok Fine }
{
    match call {
        Call::Create { path, mode } => {
            let making = Making {
                kind: FileKind::File,
                mode: *mode,
            };
            make(meta, alloc, path.as_slice(), making, touched)
        }
        Call::Mkdir { path, mode } => {
            let making = Making {
                kind: FileKind::Directory,
                mode: *mode,
            };
            make(meta, alloc, path.as_slice(), making, touched)
        }
        Call::Unlink { path } => unlink(meta, alloc, path.as_slice(), place, touched),
        Call::Rmdir { path } => rmdir(meta, alloc, path.as_slice(), place, touched),
        Call::Link { old, new } => link(meta, alloc, old.as_slice(), new.as_slice(), touched),
        Call::Rename { old, new } => {
            rename(meta, alloc, old.as_slice(), new.as_slice(), place, touched)
        }
        Call::Chmod { path, mode } => chmod(meta, alloc, path.as_slice(), *mode, touched),
        Call::Stat { path } => stat(meta, alloc, path.as_slice()),
        Call::Sync | Call::Tick | Call::After { .. } | Call::Stop => Ok(Reply::Fine),
        _ => unreachable!(),
    }
}

/// The same reply, which takes no memory.
fn short_copy(reply: &Reply) -> Reply
    requires { IsShort reply.now }
    ensures { result ≡ reply.now }
{
    match reply {
        Reply::Fine => Reply::Fine,
        Reply::Made { ino } => Reply::Made { ino: *ino },
        Reply::FileStat {
            ino,
            mode,
            nlink,
            size,
        } => Reply::FileStat {
            ino: *ino,
            mode: *mode,
            nlink: *nlink,
            size: *size,
        },
        Reply::DirStat { ino, mode, entries } => Reply::DirStat {
            ino: *ino,
            mode: *mode,
            entries: *entries,
        },
        Reply::Refused(why) => Reply::Refused(*why),
        _ => unreachable!(),
    }
}
