//! Whole runs over devices in memory.
ghost use Rattle.std.specs.Prelude.{◌≡◌, []};

use crate::{OpenGate, Ran, run};
use std::alloc::{AllocError, Global};
use std::sync::Wait;
use std::test::Fail;
use std::thread::Threads;
use vx_base::{Bytes, Call, Event, History, MemSink, MemSource, NumList, Reply};
use vx_dev::{BlockDev, FuseDev, Image, MemDisk, Operation, pick_image};
use vx_layout::Super;
use vx_log::head_sector;
use vx_mkfs::make;

const SECTORS: u64 = 9_220;

/// The operations that a disk has room for.
const ROOM: u64 = 8_000;

/// The operations of a format.
const FORMAT: u64 = 70;

const EXAMPLE: &[u8] = b"sessions 1\n0 create /a 644\n0 list /\n0 create /a 600\n0 stat /\n";

const ONE_CREATE: &[u8] = b"sessions 1\n0 create /a 644\n0 list /\n";

/// Two sessions make names and rename them by turns; the last rename replaces a name of the other session.
const TWO_SESSIONS: &[u8] =
    b"sessions 2\nschedule 1 1 0 1 0 0 0 1 0 0 1 1 1 0\n0 create /a 644\n1 create /b 644\n1 rename /b /c\n0 create /d 644\n0 rename /a /e\n1 create /f 644\n1 after 0 3\n0 create /g 644\n1 rename /f /d\n";

/// What a test looks at.
#[derive(Drop)]
struct Seen<D: Drop> {
    status: u8,
    dev: D,
    history: History,
    out: MemSink,
}

/// The same on what the image holds.
const MOUNT_LOG: &[&str] = &["mount", "disk.img", "-o", "log"];

const MOUNT: &[&str] = &["mount", "disk.img"];

/// Each call that changes names is committed before it returns.
const LOG: &[&str] = &["fresh", "disk.img", "-o", "log"];

/// It may be committed later.
const DELAYED: &[&str] = &["fresh", "disk.img"];

fn strings(alloc: Global, words: &[&str]) -> Result<Vec<String>, AllocError> {
    let mut list = Vec::new(alloc);
    for word in words {
        list.push(String::from_str(alloc, word)?)?;
    }
    Ok(list)
}

/// A disk of zeros that fails these calls of `write` and `barrier`.
fn disk(alloc: Global, sectors: u64, fail_writes: &[u64]) -> Result<MemDisk, AllocError> {
    let fail_writes = NumList::from_slice(alloc, fail_writes)?;
    MemDisk::new(
        alloc,
        Image::zeroed(alloc, sectors)?,
        ROOM,
        fail_writes,
        NumList::new(alloc),
    )
}

/// A run of a script that fails these reads, into a sink of this room.
fn run_on<R: Threads + Wait + Sync, D: BlockDev + Send + Drop>(
    rt: &R,
    alloc: Global,
    words: &[&str],
    script: &[u8],
    fail_reads: &[u64],
    room: u32,
    dev: D,
) -> Result<Seen<D>, Fail>
    requires certain { (D.state dev).doubt ≡ [] }
{
    let fail_reads = NumList::from_slice(alloc, fail_reads)?;
    let mut source = MemSource::new(Bytes::from_slice(alloc, script)?, fail_reads);
    let mut out = MemSink::new(alloc, room, NumList::new(alloc))?;
    let words = strings(alloc, words)?;
    let Ran {
        status,
        dev,
        history,
    } = run(rt, alloc, &words, dev, &mut source, &mut out, &OpenGate);
    Ok(Seen {
        status,
        dev,
        history,
        out,
    })
}

/// A run over a disk of zeros that fails these calls of `write` and `barrier`.
fn run_script<R: Threads + Wait + Sync>(
    rt: &R,
    alloc: Global,
    words: &[&str],
    script: &[u8],
    sectors: u64,
    fail_writes: &[u64],
) -> Result<Seen<MemDisk>, Fail> {
    let dev = disk(alloc, sectors, fail_writes)?;
    run_on(rt, alloc, words, script, &[], 65_536, dev)
}

/// Whether this operation wrote bytes that begin so.
fn begins(dev: &MemDisk, at: usize, s: u64, front: &[u8]) -> bool {
    match dev.operations().get(at) {
        Some(Operation::Put(sector, bytes)) => *sector == s && bytes.starts_with(front),
        _ => false,
    }
}

/// Whether the event at this place is a `Ret`, after so many operations.
fn returned_at(history: &History, place: usize, ops: u64) -> bool {
    match history.as_slice().get(place) {
        Some(Event::Ret { at, .. }) => *at == ops,
        _ => false,
    }
}

// ---- a plain reader of images

/// The little-endian number at a place.
fn number(bytes: &[u8], from: usize, len: usize) -> u64 {
    let mut value = 0u64;
    let mut scale = 1u64;
    for byte in bytes.iter().skip(from).take(len) {
        value = value.wrapping_add(u64::from(*byte).wrapping_mul(scale));
        scale = scale.wrapping_mul(256);
    }
    value
}

fn sector(image: &Image, s: u64) -> [u8; 512] {
    if s < image.len() {
        *image.sector(s)
    } else {
        [0; 512]
    }
}

/// What a sector holds once the log's records are laid over the image.
fn replayed(image: &Image, s: u64) -> [u8; 512] {
    let head = sector(image, 2);
    let mut at = number(&head, 16, 8);
    let end = number(&head, 24, 8);
    let mut found = sector(image, s);
    for _n in 0..1024 {
        if at >= end {
            break;
        }
        let descriptor = sector(image, 4 + at % 1024);
        let count = number(&descriptor, 4, 4);
        for i in 0..124u64 {
            if i < count && number(&descriptor, 16 + 4 * i as usize, 4) == s {
                found = sector(image, 4 + at.wrapping_add(1 + i) % 1024);
            }
        }
        at = at.wrapping_add(count.wrapping_add(1));
    }
    found
}

/// The set of one letter.
fn letter(name: u8) -> u32 {
    1u32.wrapping_shl(u32::from(name))
}

/// The root's names, of which each has one letter.
fn names_in(image: &Image) -> u32 {
    let block = replayed(image, 1094);
    let count = number(&block, 0, 2) as usize;
    let mut names = 0;
    for name in block.iter().skip(9).step_by(6).take(count) {
        names = names | letter(*name);
    }
    names
}

// ---- the runs

#[test]
fn example(rt: HostRuntime) -> Result<(), Fail> {
    let seen = run_script(&rt, rt.alloc(), LOG, EXAMPLE, SECTORS, &[])?;
    assert_eq!(rt; seen.status, 0);
    assert_eq!(rt;
        seen.out.as_slice(),
        b"0 1 ok 3\n0 2 ok 1 a\n0 3 no 2 Exist\n0 4 ok dir 2 0755 1\ndone calls=4 moves=0 from=0 to=0\n".as_slice()
    );
    assert_eq!(rt; seen.dev.ops(), 87);
    let descriptor = [
        0x56, 0x58, 0x52, 0x43, 4, 0, 0, 0, 0, 0, 0, 0, 0, 0, 0, 0, 4, 4, 0, 0, 7, 4, 0, 0, 0x46,
        4, 0, 0, 0x47, 4, 0, 0,
    ];
    assert!(rt; begins(&seen.dev, 70, 4, &descriptor));
    assert!(rt; begins(&seen.dev, 71, 5, &[0xff, 0xff, 0xff, 0xff, 3]));
    assert!(rt; begins(&seen.dev, 72, 6, &[2, 0, 0xed, 1, 1, 0, 0, 0, 0, 4]));
    assert!(rt; begins(&seen.dev, 73, 7, &[1, 0, 6, 0, 3, 0, 0, 0, 1, b'a', 0]));
    assert!(rt; begins(&seen.dev, 74, 8, &[0; 512]));
    assert!(rt;
        begins(
            &seen.dev,
            76,
            2,
            &[
                0x56, 0x58, 0x4c, 0x4f, 0x47, 0x48, 0x44, 0x31, 2, 0, 0, 0, 0, 0, 0, 0, 0, 0, 0, 0,
                0, 0, 0, 0, 5
            ]
        )
    );
    assert!(rt; begins(&seen.dev, 78, 1028, &[0xff, 0xff, 0xff, 0xff, 3]));
    assert!(rt; returned_at(&seen.history, 1, 78));
    assert_eq!(rt; seen.dev.image().as_slice().len(), 9220);
    Ok(())
}

const DIRECTORIES: &[u8] =
    b"sessions 1\n0 mkdir /d 755\n0 mkdir /d/e 755\n0 rename /d /d/e/f\n0 rmdir /\n0 rmdir /d\n0 unlink /d\n0 stat /d/x\n0 chmod /d 700\n0 link /d /g\n0 stat /d\n";

const DIRECTORIES_DONE: &[u8] =
    b"0 1 ok 3\n0 2 ok 4\n0 3 no 13 IntoItself\n0 4 no 14 RootFixed\n0 5 no 5 NotEmpty\n0 6 no 4 IsDir\n0 7 no 1 NoEnt\n0 8 ok\n0 9 no 4 IsDir\n0 10 ok dir 3 0700 1\ndone calls=10 moves=0 from=0 to=0\n";

/// A file of two names is replaced by a rename.
const REPLACED: &[u8] =
    b"sessions 1\n0 mkdir /d 755\n0 create /a 644\n0 link /a /d/b\n0 create /c 600\n0 rename /c /d/b\n0 stat /a\n0 stat /d/b\n0 list /\n0 list /d\n0 create nowhere 644\n";

const REPLACED_DONE: &[u8] =
    b"0 1 ok 3\n0 2 ok 4\n0 3 ok\n0 4 ok 5\n0 5 ok\n0 6 ok file 4 0644 1 0\n0 7 ok file 5 0600 1 0\n0 8 ok 2 a d\n0 9 ok 1 b\n0 10 no 6 BadName\ndone calls=10 moves=0 from=0 to=0\n";

/// Lines that do nothing count as no line of the session, and a name may have any byte.
const SPELLED: &[u8] =
    b"# a comment\n\nsessions  1\n0 create /a\\x20b 644\n#\n  0 st\\x61t /a\\x20b \n0 list /\n0 rmdir \\x00";

const SPELLED_DONE: &[u8] =
    b"0 1 ok 3\n0 2 ok file 3 0644 1 0\n0 3 ok 1 a\\x20b\n0 4 no 6 BadName\ndone calls=4 moves=0 from=0 to=0\n";

#[test]
fn answers(rt: HostRuntime) -> Result<(), Fail> {
    let rows = [
        (DIRECTORIES, DIRECTORIES_DONE),
        (REPLACED, REPLACED_DONE),
        (SPELLED, SPELLED_DONE),
    ];
    for (script, out) in rows {
        let seen = run_script(&rt, rt.alloc(), LOG, script, SECTORS, &[])?;
        assert_eq!(rt; seen.status, 0);
        assert_eq!(rt; seen.out.as_slice(), out);
    }
    Ok(())
}

/// A call of one word for a path in a directory, of a name of 255 bytes that has this number.
fn long_line(
    line: &mut Vec<u8>,
    call: &[u8],
    directory: &[u8],
    number: u8,
) -> Result<(), AllocError> {
    line.extend_from_slice(call)?;
    line.extend_from_slice(directory)?;
    for _n in 0..253 {
        line.push(b'x')?;
    }
    line.push(b'a' + number / 16)?;
    line.push(b'a' + number % 16)?;
    line.push(b'\n')?;
    Ok(())
}

/// Names of one file that fill the root's 64 blocks, three to each, and one more.
fn full_directory(alloc: Global) -> Result<Vec<u8>, AllocError> {
    let mut lines = Vec::new(alloc);
    lines.extend_from_slice(b"sessions 1\n0 create /a 644\n")?;
    for number in 0..193u8 {
        long_line(&mut lines, b"0 link /a /", b"", number)?;
    }
    Ok(lines)
}

/// Two directories that grow by turns, so that each comes to more than six extents, and then go.
fn scattered_directories(alloc: Global) -> Result<Vec<u8>, AllocError> {
    let mut lines = Vec::new(alloc);
    lines.extend_from_slice(b"sessions 1\n0 create /a 644\n0 mkdir /c 755\n0 mkdir /d 755\n")?;
    for number in 0..24u8 {
        long_line(&mut lines, b"0 link /a /", b"c/", number)?;
        long_line(&mut lines, b"0 link /a /", b"d/", number)?;
    }
    lines.extend_from_slice(b"0 stat /c\n")?;
    for number in 0..24u8 {
        long_line(&mut lines, b"0 unlink /", b"c/", number)?;
        long_line(&mut lines, b"0 unlink /", b"d/", number)?;
    }
    lines.extend_from_slice(b"0 rmdir /c\n0 rmdir /d\n0 list /\n")?;
    Ok(lines)
}

/// A create of a name of three bytes.
fn numbered_line(line: &mut Vec<u8>, number: u8) -> Result<(), AllocError> {
    line.extend_from_slice(b"0 create /n")?;
    line.push(b'a' + number / 16)?;
    line.push(b'a' + number % 16)?;
    line.extend_from_slice(b" 644\n")
}

/// A script of the same lines, so many times.
fn repeated(alloc: Global, lines: &[u8], times: u32) -> Result<Vec<u8>, AllocError> {
    let mut script = Vec::new(alloc);
    script.extend_from_slice(b"sessions 1\n")?;
    for _n in 0..times {
        script.extend_from_slice(lines)?;
    }
    Ok(script)
}

/// Whether a history releases blocks that waited.
fn releases(history: &History) -> bool {
    history
        .as_slice()
        .iter()
        .any(|event| matches!(event, Event::Release { .. }))
}

/// Scripts that fill a directory, the inodes and the log, one whose directories have map blocks, and one whose blocks are used again;
/// with the end of their answers, and whether blocks that wait are released.
fn long_scripts(alloc: Global) -> Result<[(Vec<u8>, &'static [u8], bool); 5], AllocError> {
    let names = full_directory(alloc)?;
    let scattered = scattered_directories(alloc)?;
    let mut inodes = Vec::new(alloc);
    inodes.extend_from_slice(b"sessions 1\n")?;
    for number in 0..126u8 {
        numbered_line(&mut inodes, number)?;
    }
    let log = repeated(alloc, b"0 create /a 644\n0 unlink /a\n", 300)?;
    let blocks = repeated(
        alloc,
        b"0 mkdir /d 755\n0 create /d/x 644\n0 unlink /d/x\n0 rmdir /d\n",
        120,
    )?;
    Ok([
        (
            names,
            b"0 193 ok\n0 194 no 10 TooBig 66560\ndone calls=194 moves=0 from=0 to=0\n".as_slice(),
            false,
        ),
        (
            scattered,
            b"0 101 ok\n0 102 ok\n0 103 ok 1 a\ndone calls=103 moves=0 from=0 to=0\n".as_slice(),
            true,
        ),
        (
            inodes,
            b"0 125 ok 127\n0 126 no 9 NoInodes 126\ndone calls=126 moves=0 from=0 to=0\n".as_slice(),
            false,
        ),
        (
            log,
            b"0 599 ok 3\n0 600 ok\ndone calls=600 moves=0 from=0 to=0\n".as_slice(),
            false,
        ),
        (
            blocks,
            b"0 477 ok 3\n0 478 ok 4\n0 479 ok\n0 480 ok\ndone calls=480 moves=0 from=0 to=0\n".as_slice(),
            true,
        ),
    ])
}

#[test]
fn long_scripts_end_so(rt: HostRuntime) -> Result<(), Fail> {
    for (lines, out, released) in long_scripts(rt.alloc())? {
        let seen = run_script(&rt, rt.alloc(), LOG, &lines, SECTORS, &[])?;
        assert_eq!(rt; seen.status, 0);
        assert!(rt; seen.out.as_slice().ends_with(out));
        assert_eq!(rt; releases(&seen.history), released);
        let head = sector(seen.dev.image(), 2);
        assert_eq!(rt; number(&head, 16, 8), number(&head, 24, 8));
    }
    Ok(())
}

// ---- sessions

/// A schedule lets the second session begin, which then waits for the first.
const SCHEDULED: &[u8] =
    b"sessions 2\nschedule 1 0 1\n0 create /a 644\n1 create /b 644\n1 after 0 2\n1 list /\n0 rename /a /c\n0 tick\n";

const SCHEDULED_DONE: &[u8] =
    b"0 1 ok 4\n0 2 ok\n0 3 ok\n1 1 ok 3\n1 2 ok\n1 3 ok 2 b c\ndone calls=6 moves=0 from=0 to=0\n";

/// As many sessions as there may be.
const SIXTEEN: &[u8] =
    b"sessions 16\n0 sync\n1 sync\n2 sync\n3 sync\n4 sync\n5 sync\n6 sync\n7 sync\n8 sync\n9 sync\n10 sync\n11 sync\n12 sync\n13 sync\n14 sync\n15 sync\n";

const SIXTEEN_DONE: &[u8] =
    b"0 1 ok\n1 1 ok\n2 1 ok\n3 1 ok\n4 1 ok\n5 1 ok\n6 1 ok\n7 1 ok\n8 1 ok\n9 1 ok\n10 1 ok\n11 1 ok\n12 1 ok\n13 1 ok\n14 1 ok\n15 1 ok\ndone calls=16 moves=0 from=0 to=0\n";

/// What a stop ends was not committed.
const STOPPED: &[u8] = b"sessions 1\n0 create /a 644\n0 stop\n0 create /b 644\n";

/// A tick, or a rename, has committed it.
const TICKED: &[u8] = b"sessions 2\n0 create /a 644\n0 tick\n0 stop\n1 after 0 3\n";

const RENAMED: &[u8] = b"sessions 1\n0 create /b 644\n0 rename /b /a\n0 stop\n";

const STOPPED_DONE: &[u8] = b"0 1 ok 3\n0 2 ok\nstopped calls=2 moves=0 from=0 to=0\n";

const TICKED_DONE: &[u8] = b"0 1 ok 3\n0 2 ok\n0 3 ok\nstopped calls=3 moves=0 from=0 to=0\n";

#[test]
fn sessions_take_turns(rt: HostRuntime) -> Result<(), Fail> {
    let alloc = rt.alloc();
    let rows = [
        (LOG, SCHEDULED, SCHEDULED_DONE),
        (DELAYED, SCHEDULED, SCHEDULED_DONE),
        (LOG, SIXTEEN, SIXTEEN_DONE),
        (DELAYED, SIXTEEN, SIXTEEN_DONE),
    ];
    for (words, script, out) in rows {
        let seen = run_script(&rt, alloc, words, script, SECTORS, &[])?;
        assert_eq!(rt; seen.status, 0);
        assert_eq!(rt; seen.out.as_slice(), out);
    }
    // so many operations, and whether each image, and none, has the name
    let rows = [
        (DELAYED, STOPPED, STOPPED_DONE, 70, (false, true)),
        (LOG, STOPPED, STOPPED_DONE, 78, (true, false)),
        (DELAYED, TICKED, TICKED_DONE, 78, (true, false)),
        (DELAYED, RENAMED, TICKED_DONE, 78, (true, false)),
    ];
    for (words, script, out, ops, found) in rows {
        let seen = run_script(&rt, alloc, words, script, SECTORS, &[])?;
        assert_eq!(rt; (seen.status, seen.dev.ops()), (0, ops));
        assert_eq!(rt; seen.out.as_slice(), out);
        assert_eq!(rt; with_name(alloc, &seen.dev, ops)?, found);
    }
    Ok(())
}

// ---- ends

const NO_LINES: &[u8] = b"sessions 1\n";

const NOTHING_DONE: &[u8] = b"done calls=0 moves=0 from=0 to=0\n";

/// A command that is not built yet.
const A_FSYNC: &[u8] = b"sessions 1\n0 create /a 644\n0 fsync 1\n";

const BAD_LINE: &[u8] = b"refused 3 BadLine 3\n";

/// One session too many.
const SEVENTEEN: &[u8] = b"sessions 17\n";

const BAD_SESSIONS: &[u8] = b"refused 3 BadLine 1\n";

const TOO_SMALL: &[u8] = b"refused 2 DeviceTooSmall 9219 9220\n";

const UNREAD: &[u8] = b"refused 7 ScriptFault\n";

const DISABLED: &[u8] =
    b"0 1 no 20 WriteFault\n0 2 no 21 Disabled 1\ndisabled calls=2 moves=0 from=0 to=0\n";

const CUT_OFF: &[u8] = b"0 1 ";

/// A number of no operation and no read.
const NEVER: u64 = 1_000_000;

#[test]
fn ends(rt: HostRuntime) -> Result<(), Fail> {
    let alloc = rt.alloc();
    let rows = [
        (NO_LINES, SECTORS, NEVER, NEVER, 4096, 0, 72, NOTHING_DONE),
        (A_FSYNC, SECTORS - 1, NEVER, NEVER, 4096, 3, 0, BAD_LINE),
        (SEVENTEEN, SECTORS, NEVER, NEVER, 4096, 3, 0, BAD_SESSIONS),
        (ONE_CREATE, SECTORS - 1, NEVER, NEVER, 4096, 2, 0, TOO_SMALL),
        (ONE_CREATE, SECTORS, NEVER, 2, 4096, 7, 0, UNREAD),
        (ONE_CREATE, SECTORS, 77, NEVER, 4096, 4, 77, DISABLED),
        (ONE_CREATE, SECTORS, NEVER, NEVER, 4, 5, 87, CUT_OFF),
    ];
    for (script, sectors, failing_write, failing_read, room, status, ops, out) in rows {
        let dev = disk(alloc, sectors, &[failing_write])?;
        let seen = run_on(&rt, alloc, LOG, script, &[failing_read], room, dev)?;
        assert_eq!(rt; (seen.status, seen.dev.ops()), (status, ops));
        assert_eq!(rt; seen.out.as_slice(), out);
    }
    let dev = FuseDev::new(disk(alloc, SECTORS, &[])?, 77);
    let seen = run_on(&rt, alloc, LOG, ONE_CREATE, &[], 4096, dev)?;
    assert_eq!(rt; (seen.status, seen.dev.ops()), (4, 77));
    assert_eq!(rt; seen.out.as_slice(), DISABLED);
    Ok(())
}

// ---- crashes

/// Whether each of the seeds 0 to 9 gives an image at this moment that has the name, or has it not.
fn with_name(alloc: Global, dev: &MemDisk, moment: u64) -> Result<(bool, bool), Fail> {
    let mut there = false;
    let mut absent = false;
    for seed in 0..10 {
        if moment <= dev.ops() {
            if names_in(&pick_image(alloc, dev, moment, seed)?) & letter(b'a') != 0 {
                there = true;
            } else {
                absent = true;
            }
        }
    }
    Ok((there, absent))
}

#[test]
fn a_create_is_there_from_its_return_on(rt: HostRuntime) -> Result<(), Fail> {
    let alloc = rt.alloc();
    let seen = run_script(&rt, alloc, LOG, ONE_CREATE, SECTORS, &[])?;
    for moment in FORMAT..77 {
        assert_eq!(rt; with_name(alloc, &seen.dev, moment)?, (false, true));
    }
    assert_eq!(rt; with_name(alloc, &seen.dev, 77)?, (true, true));
    for moment in 78..88 {
        assert_eq!(rt; with_name(alloc, &seen.dev, moment)?, (true, false));
    }
    Ok(())
}

/// What a crash may leave of a history of creates and renames, after so many operations.
#[derive(Drop)]
struct Front {
    /// The names behind so many of the calls.
    states: Vec<u32>,
    /// So many of these may be there, since the calls before them had begun.
    begun: usize,
    /// So many of these may not, since a call behind them had returned, and was committed before that.
    returned: usize,
}

/// The letter of a path below the root.
fn name_of(path: &Bytes) -> u32 {
    letter(path.as_slice().get(1).copied().unwrap_or(0))
}

/// The names behind one more call.
fn names_after(names: u32, call: &Call, reply: &Reply) -> u32 {
    match (call, reply) {
        (Call::Create { path, .. }, Reply::Made { .. }) => names | name_of(path),
        (Call::Rename { old, new }, Reply::Fine) => (names & !name_of(old)) | name_of(new),
        _ => names,
    }
}

/// Whether a call is committed before it returns.
fn is_committed(words: &[&str], call: &Call) -> bool {
    match call {
        Call::Create { .. } => words.len() == LOG.len(),
        Call::Rename { .. } => true,
        _ => false,
    }
}

/// The front at this moment.
fn front_at(
    alloc: Global,
    words: &[&str],
    history: &History,
    moment: u64,
) -> Result<Front, AllocError> {
    let mut states = Vec::new(alloc);
    let mut committed = Vec::new(alloc);
    let mut names = 0;
    let mut begun = 1;
    let mut returned = 0;
    states.push(names)?;
    for (place, event) in history.as_slice().iter().enumerate() {
        match event {
            Event::Do {
                at,
                call,
                reply,
                ..
            } => {
                names = names_after(names, call, reply);
                if is_committed(words, call) {
                    committed.push((place as u64, states.len()))?;
                }
                states.push(names)?;
                if *at <= moment {
                    begun = states.len();
                }
            }
            Event::Ret {
                at,
                place,
                answer: Reply::Made { .. } | Reply::Fine,
            } if *at < moment => {
                for (begins, state) in &committed {
                    if *begins == *place && returned < *state {
                        returned = *state;
                    }
                }
            }
            _ => {}
        }
    }
    Ok(Front {
        states,
        begun,
        returned,
    })
}

/// Whether the images of so many seeds at this moment have the names that they may.
fn is_allowed(
    alloc: Global,
    words: &[&str],
    seen: &Seen<MemDisk>,
    moment: u64,
    seeds: u64,
) -> Result<bool, Fail> {
    let front = front_at(alloc, words, &seen.history, moment)?;
    for seed in 0..seeds {
        if moment <= seen.dev.ops() {
            let names = names_in(&pick_image(alloc, &seen.dev, moment, seed)?);
            let mut allowed = front.states.iter().take(front.begun).skip(front.returned);
            if !allowed.any(|state| *state == names) {
                return Ok(false);
            }
        }
    }
    Ok(true)
}

#[test]
fn each_image_is_of_a_beginning(rt: HostRuntime) -> Result<(), Fail> {
    let alloc = rt.alloc();
    for words in [LOG, DELAYED] {
        let whole = run_script(&rt, alloc, words, TWO_SESSIONS, SECTORS, &[])?;
        assert_eq!(rt; whole.status, 0);
        for moment in FORMAT..=whole.dev.ops() {
            assert!(rt; is_allowed(alloc, words, &whole, moment, 10)?);
        }
    }
    Ok(())
}

#[test]
fn each_operation_may_fail(rt: HostRuntime) -> Result<(), Fail> {
    let alloc = rt.alloc();
    for words in [LOG, DELAYED] {
        let whole = run_script(&rt, alloc, words, TWO_SESSIONS, SECTORS, &[])?;
        for failing in FORMAT + 1..=whole.dev.ops() {
            let seen = run_script(&rt, alloc, words, TWO_SESSIONS, SECTORS, &[failing])?;
            assert_eq!(rt; seen.status, 4);
            for moment in failing.saturating_sub(1)..=seen.dev.ops() {
                assert!(rt; is_allowed(alloc, words, &seen, moment, 2)?);
            }
        }
    }
    Ok(())
}

// ---- mounts

/// A disk that begins with what another one leaves at this moment, and fails these reads.
fn left(alloc: Global, dev: &MemDisk, moment: u64, fail_reads: &[u64]) -> Result<MemDisk, Fail> {
    let image = pick_image(alloc, dev, moment.min(dev.ops()), 0)?;
    let fail_reads = NumList::from_slice(alloc, fail_reads)?;
    Ok(MemDisk::new(alloc, image, ROOM, NumList::new(alloc), fail_reads)?)
}

const MORE: &[u8] = b"sessions 1\n0 list /\n0 mkdir /d 755\n0 rename /a /d/b\n0 create /c 600\n";

const MORE_DONE: &[u8] =
    b"0 1 ok 1 a\n0 2 ok 4\n0 3 ok\n0 4 ok 5\ndone calls=4 moves=0 from=0 to=0\n";

const LOOK: &[u8] = b"sessions 1\n0 list /\n0 list /d\n0 stat /d/b\n";

const LOOK_DONE: &[u8] =
    b"0 1 ok 2 c d\n0 2 ok 1 b\n0 3 ok file 3 0644 1 0\ndone calls=3 moves=0 from=0 to=0\n";

#[test]
fn what_was_left_is_mounted_again(rt: HostRuntime) -> Result<(), Fail> {
    let alloc = rt.alloc();
    let first = run_script(&rt, alloc, LOG, EXAMPLE, SECTORS, &[])?;
    let again = left(alloc, &first.dev, 87, &[])?;
    let second = run_on(&rt, alloc, MOUNT, MORE, &[], 4096, again)?;
    assert_eq!(rt; second.status, 0);
    assert_eq!(rt; second.out.as_slice(), MORE_DONE);
    let again = left(alloc, &second.dev, second.dev.ops(), &[])?;
    let third = run_on(&rt, alloc, MOUNT_LOG, LOOK, &[], 4096, again)?;
    assert_eq!(rt; (third.status, third.dev.ops()), (0, 5));
    assert_eq!(rt; third.out.as_slice(), LOOK_DONE);
    Ok(())
}

#[test]
fn images_that_are_not_mounted(rt: HostRuntime) -> Result<(), Fail> {
    let alloc = rt.alloc();
    let run = run_script(&rt, alloc, LOG, EXAMPLE, SECTORS, &[])?;
    let rows = [
        (78, NEVER, 2, b"refused 2 NotClean 0 5\n".as_slice()),
        (70, NEVER, 2, b"refused 2 NotClean 0 0\n".as_slice()),
        (0, NEVER, 2, b"refused 2 BadSuper 1\n".as_slice()),
        (87, 1, 8, b"refused 8 ReadFault\n".as_slice()),
    ];
    for (moment, failing_read, status, out) in rows {
        let dev = left(alloc, &run.dev, moment, &[failing_read])?;
        let seen = run_on(&rt, alloc, MOUNT, NO_LINES, &[], 4096, dev)?;
        assert_eq!(rt; (seen.status, seen.dev.ops()), (status, 0));
        assert_eq!(rt; seen.out.as_slice(), out);
    }
    Ok(())
}

/// The log's positions begin anew before they are used up.
#[test]
fn the_last_position_of_a_log(rt: HostRuntime) -> Result<(), Fail> {
    let alloc = rt.alloc();
    let run = run_script(&rt, alloc, LOG, NO_LINES, SECTORS, &[])?;
    let mut dev = left(alloc, &run.dev, 72, &[])?;
    let last = 1u64 << 62;
    assert!(rt; dev.sectors() == SECTORS);
    dev.write(2, &head_sector(7, last, last))?;
    let dev = left(alloc, &dev, 1, &[])?;
    let seen = run_on(&rt, alloc, MOUNT_LOG, ONE_CREATE, &[], 4096, dev)?;
    assert_eq!(rt; seen.status, 0);
    assert!(rt; seen.out.as_slice().starts_with(b"0 1 ok 3\n".as_slice()));
    let head = sector(seen.dev.image(), 2);
    assert_eq!(rt; number(&head, 16, 8), number(&head, 24, 8));
    assert!(rt; number(&head, 16, 8) < last);
    Ok(())
}

#[test]
fn a_file_system_of_two_units_is_mounted(rt: HostRuntime) -> Result<(), Fail> {
    let alloc = rt.alloc();
    let mut dev = disk(alloc, 16_900, &[])?;
    let sizes = Super {
        log_blocks: 256,
        units: 2,
        clean: true,
    };
    assert!(rt; dev.sectors() == 16_900);
    make(&mut dev, &sizes)?;
    let dev = left(alloc, &dev, dev.ops(), &[])?;
    let mut script = Vec::new(alloc);
    script.extend_from_slice(b"sessions 1\n")?;
    for number in 0..130u8 {
        numbered_line(&mut script, number)?;
    }
    let seen = run_on(&rt, alloc, MOUNT, &script, &[], 65_536, dev)?;
    assert_eq!(rt; seen.status, 0);
    let dev = left(alloc, &seen.dev, seen.dev.ops(), &[])?;
    let seen = run_on(&rt, alloc, MOUNT, b"sessions 1\n0 stat /\n", &[], 4096, dev)?;
    assert_eq!(rt;
        seen.out.as_slice(),
        b"0 1 ok dir 2 0755 130\ndone calls=1 moves=0 from=0 to=0\n".as_slice()
    );
    Ok(())
}
