use crate::commands::call_of;
use crate::keywords::CommandName;
use crate::why::LineFault;
use crate::words::words_of_line;
use crate::{ScriptRefusal, Why, parse};
use std::alloc::{AllocError, Global};
use std::test::Fail;
use vx_base::{Call, ExtAttrs, Flag, Payload, Tunable};

#[test]
fn reads_a_script(rt: HostRuntime) -> Result<(), Fail> {
    let text =
        b"# \\ any \xff byte\n\n   \n  sessions   2  \nschedule 1 0\n#\nschedule 1\n 0  tick\n1 after 0 1\n0 st\\x61t \\x2fa\\x20\\x5cb\n1 stop\n0 sync\n0 create /a 644";
    let Ok(script) = parse(rt.alloc(), text) else {
        return Err(Fail::from("refused"));
    };
    assert!(rt; script.sessions == 2);
    assert!(rt;
        matches!(&script.schedule, Some(actors) if actors.as_slice() == [1u8, 0, 1].as_slice())
    );
    let lines = &script.lines;
    assert!(rt; lines.len() == 2 && lines.count(0) == 4 && lines.count(1) == 2);
    assert!(rt; matches!(lines.get(0, 0), Some(Call::Tick)));
    assert!(rt;
        matches!(lines.get(0, 1), Some(Call::Stat { path }) if path.as_slice() == b"/a \\b".as_slice())
    );
    assert!(rt; matches!(lines.get(0, 2), Some(Call::Sync)));
    assert!(rt;
        matches!(lines.get(0, 3), Some(Call::Create { path, mode: 0o644 }) if path.as_slice() == b"/a".as_slice())
    );
    assert!(rt;
        matches!(
            lines.get(1, 0),
            Some(Call::After {
                session: 0,
                lines: 1
            })
        )
    );
    assert!(rt; matches!(lines.get(1, 1), Some(Call::Stop)));
    Ok(())
}

/// Why a script is refused, if it is.
fn refusal_of(alloc: Global, text: &[u8]) -> Option<ScriptRefusal> {
    match parse(alloc, text) {
        Ok(_) => None,
        Err(why) => Some(why),
    }
}

const BAD_LINES: [(&[u8], u32, Why); 27] = [
    (b"", 1, Why::Sessions),
    (b"# a\n\n", 3, Why::Sessions),
    (b"sessions 17", 1, Why::Sessions),
    (b"sessions 01", 1, Why::Sessions),
    (b"0 list /", 1, Why::Sessions),
    (b"\t\nsessions 1", 1, Why::Sessions),
    (b"sessions 1\n0 list /\nschedule 0", 3, Why::Sessions),
    (b"sessions 1\n1 frob \\", 2, Why::Sessions),
    (b"\n# a\n\nsessions 1\n\n0 frob", 6, Why::Unknown),
    (b"sessions 1\n0", 2, Why::Unknown),
    (b"sessions 1\n0 list\t/", 2, Why::Unknown),
    (b"sessions 1\n0 fsync\n0 create /a 9", 2, Why::Unknown),
    (b"sessions 1\n0 unlink", 2, Why::Words),
    (b"sessions 1\n0 mkdir \\ 9 9", 2, Why::Words),
    (b"sessions 1\n0 stop 1", 2, Why::Words),
    (b"sessions 1\nschedule", 2, Why::Words),
    (b"sessions 2\nschedule 0 1\nschedule 2", 3, Why::Number),
    (b"sessions 1\n0 after 1 0", 2, Why::Number),
    (b"sessions 1\n0 create \\ 8", 2, Why::Number),
    (b"sessions 1\n0 create /a 00644", 2, Why::Number),
    (b"sessions 1\n0 chmod /a 7\r\n", 2, Why::Number),
    (b"sessions 1\n0 rmdir /a\r\n", 2, Why::Escape),
    (b"sessions 1\n0 stat /\\x2F", 2, Why::Escape),
    (b"sessions 1\n0 link /a /\\x2", 2, Why::Escape),
    (b"sessions 1\n0 rename /a\x7f /b", 2, Why::Escape),
    (
        b"sessions 2\n0 after 1 1\n1 after 0 1\n1 frob",
        4,
        Why::Unknown,
    ),
    (b"sessions 16\n15 sync\n16 sync", 3, Why::Sessions),
];

#[test]
fn refuses_the_first_bad_line(rt: HostRuntime) {
    for (text, line, why) in BAD_LINES {
        let refusal = Some(ScriptRefusal::BadLine { line, why });
        assert!(rt; refusal_of(rt.alloc(), text) == refusal);
    }
}

const ORDERS: [(&[u8], Option<u32>); 6] = [
    // Two that wait for each other.
    (b"sessions 2\n0 after 1 1\n1 after 0 1", Some(2)),
    // Three in a ring, behind one line each that can begin.
    (
        b"sessions 3\n0 tick\n1 sync\n2 after 0 0\n2 after 0 2\n1 after 2 2\n0 after 1 2",
        Some(5),
    ),
    // A line that waits for itself behind a stop, and one that waits behind it.
    (b"sessions 1\n0 stop\n0 after 0 2\n0 tick", Some(3)),
    // More lines than there are.
    (
        b"sessions 2\n1 tick\n0 after 1 99999999999999999999",
        Some(3),
    ),
    // In turns, and none is stuck.
    (
        b"sessions 2\nschedule 0\n0 after 1 1\n0 after 1 2\n1 after 0 0\n1 after 0 1",
        None,
    ),
    (b"sessions 1\nschedule 0\n0 sync", None),
];

#[test]
fn finds_the_lowest_line_that_never_begins(rt: HostRuntime) {
    for (text, stuck) in ORDERS {
        let refusal = match stuck {
            Some(line) => Some(ScriptRefusal::BadOrder { line }),
            None => None,
        };
        assert!(rt; refusal_of(rt.alloc(), text) == refusal);
    }
}

/// What a command with these words asks for in a script of two sessions, or why it is bad; nothing where memory is short.
fn asked(alloc: Global, command: CommandName, words: &[u8]) -> Result<Call, LineFault> {
    let words = words_of_line(alloc, words)?;
    call_of(alloc, 2, command, words.as_slice())
}

fn asks_for(alloc: Global, command: CommandName, words: &[u8], call: Call) -> bool {
    match asked(alloc, command, words) {
        Ok(read) => read == call,
        Err(_) => false,
    }
}

fn is_open(call: &Result<Call, LineFault>) -> bool {
    matches!(call, Ok(Call::OpenFile { handle: 1, path, flag: Flag::Unbuffered }) if path.as_slice() == b"/a".as_slice())
}

fn is_write(call: &Result<Call, LineFault>) -> bool {
    matches!(call, Ok(Call::Write { handle: 1, offset: 5, payload: Payload::Given(bytes) }) if bytes.as_slice() == b"\x00\xff".as_slice())
}

fn is_setext(call: &Result<Call, LineFault>) -> bool {
    matches!(call, Ok(Call::Setext { path, attrs: ExtAttrs { fixed: 8, reserve: 16, flags: 33 } }) if path.as_slice() == b"/a".as_slice())
}

fn is_report(call: &Result<Call, LineFault>) -> bool {
    matches!(call, Ok(Call::ExtReport { path }) if path.as_slice() == b"/a".as_slice())
}

#[test]
fn reads_words(rt: HostRuntime) {
    let alloc = rt.alloc();
    assert!(rt;
        asks_for(
            alloc,
            CommandName::Fsync,
            b"255",
            Call::Fsync { handle: 255 }
        )
    );
    assert!(rt;
        asks_for(
            alloc,
            CommandName::Read,
            b"1 0 65536",
            Call::Read {
                handle: 1,
                offset: 0,
                len: 65536
            }
        )
    );
    assert!(rt;
        asks_for(
            alloc,
            CommandName::Write,
            b"1 1099511627776 fill a0 1",
            Call::Write {
                handle: 1,
                offset: 1_099_511_627_776,
                payload: Payload::Fill { byte: 160, len: 1 }
            }
        )
    );
    assert!(rt;
        asks_for(
            alloc,
            CommandName::Truncate,
            b"1 0",
            Call::Truncate { handle: 1, size: 0 }
        )
    );
    assert!(rt;
        asks_for(
            alloc,
            CommandName::Tune,
            b"delay_ticks 4294967295",
            Call::Tune {
                name: Tunable::DelayTicks,
                value: 4_294_967_295
            }
        )
    );
    assert!(rt;
        asks_for(
            alloc,
            CommandName::Fsadm,
            b"-b 64",
            Call::Resize { units: 64 }
        )
    );
    assert!(rt; is_open(&asked(alloc, CommandName::Open, b"1 /a unbuffered")));
    assert!(rt; is_write(&asked(alloc, CommandName::Write, b"1 5 hex 00ff")));
    assert!(rt; is_write(&asked(alloc, CommandName::Write, b"1 5 text \\x00\\xff")));
    assert!(rt; is_setext(&asked(alloc, CommandName::Setext, b"/a 8 16 chgsize,align")));
    assert!(rt; is_report(&asked(alloc, CommandName::Fsadm, b"-E /a")));
}

const BAD_WORDS: [(CommandName, &[u8], Why); 18] = [
    (CommandName::Open, b"256 \\ sunk", Why::Words),
    (CommandName::Open, b"256 \\ sync", Why::Number),
    (CommandName::Open, b"255 \\ sync", Why::Escape),
    (CommandName::Close, b"01", Why::Number),
    (CommandName::Read, b"0 1099511627777 1", Why::Number),
    (CommandName::Read, b"0 0 0", Why::Number),
    (CommandName::Read, b"0 0 65537", Why::Number),
    (CommandName::Write, b"0 0 hex 61 1", Why::Words),
    (CommandName::Write, b"0 0 fill 61", Why::Words),
    (CommandName::Write, b"0 0 hex 6", Why::Number),
    (CommandName::Write, b"0 0 hex 6A", Why::Number),
    (CommandName::Write, b"0 0 fill 6 1", Why::Number),
    (CommandName::Write, b"0 0 text \\", Why::Escape),
    (CommandName::Setext, b"/a 0 0 align,align", Why::Words),
    (CommandName::Setext, b"/a 0 0 align,", Why::Words),
    (CommandName::Setext, b"/a 4294967296 0 -", Why::Number),
    (CommandName::Tune, b"ticks 1", Why::Words),
    (CommandName::Fsadm, b"-b 65", Why::Number),
];

#[test]
fn refuses_bad_words(rt: HostRuntime) {
    for (command, words, why) in BAD_WORDS {
        assert!(rt;
            matches!(asked(rt.alloc(), command, words), Err(LineFault::Bad(read)) if read == why)
        );
    }
}

/// A script of one session with so many more lines.
fn script_of(alloc: Global, line: &[u8], count: u32) -> Result<Vec<u8>, AllocError> {
    let mut text = Vec::from_slice(alloc, b"sessions 1\n")?;
    for _ in 0..count {
        text.extend_from_slice(line)?;
    }
    Ok(text)
}

/// Why a script of so many lines is refused, if it is.
fn refusal_of_many(alloc: Global, line: &[u8], count: u32) -> Option<ScriptRefusal> {
    match script_of(alloc, line, count) {
        Ok(text) => refusal_of(alloc, text.as_slice()),
        Err(_) => Some(ScriptRefusal::NoMemory),
    }
}

const LIMITS: [(&[u8], u32, Option<ScriptRefusal>); 5] = [
    (b"0 stat /\n", 65_535, None),
    (
        b"0 stat /\n",
        65_536,
        Some(ScriptRefusal::BadLine {
            line: 65_537,
            why: Why::TooManyLines,
        }),
    ),
    (b"0 list /\n", 1_024, None),
    (
        b"0 list /\n",
        1_025,
        Some(ScriptRefusal::BadLine {
            line: 1_026,
            why: Why::Lists,
        }),
    ),
    (b"#aa\n", 1_048_574, Some(ScriptRefusal::TooLong)),
];

#[test]
fn keeps_the_limits(rt: HostRuntime) {
    for (line, count, refusal) in LIMITS {
        assert!(rt; refusal_of_many(rt.alloc(), line, count) == refusal);
    }
}
