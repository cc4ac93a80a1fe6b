use crate::{ScriptRefusal, StartRefusal, Why, render, render_refusal};
use std::alloc::{AllocError, Global};
use std::process::Abort;
use std::test::Fail;
use vx_base::{
    Bytes, Call, Event, ExtAttrs, Ino, MemSink, Name, Names, NumList, Refusal, Reply, SinkFault,
};
use vx_modes::{OptionName, OptionRefusal};

fn asked(alloc: Global, session: u8, line: u32, reply: Reply) -> Result<Event, AllocError> {
    Ok(Event::Do {
        at: 0,
        session,
        line,
        call: Call::List {
            path: Bytes::from_slice(alloc, b"/")?,
        },
        reply,
    })
}

fn answered(place: u64, answer: Reply) -> Event {
    Event::Ret {
        at: 0,
        place,
        answer,
    }
}

fn listing(alloc: Global) -> Result<Reply, AllocError> {
    let mut names = Names::new(alloc);
    names.push(Name::from_slice(alloc, b"a")?)?;
    Ok(Reply::Listing { names })
}

fn history(alloc: Global) -> Result<Vec<Event>, AllocError> {
    let made = Reply::Made { ino: Ino::new(3) };
    let exist = Reply::Refused(Refusal::Exist);
    let mut events = Vec::new(alloc);
    events.push(asked(alloc, 0, 1, made.clone()?)?)?;
    events.push(answered(0, made))?;
    events.push(asked(alloc, 0, 2, listing(alloc)?)?)?;
    events.push(answered(2, listing(alloc)?))?;
    events.push(asked(alloc, 0, 3, exist.clone()?)?)?;
    events.push(answered(4, exist))?;
    events.push(Event::Unmounted { at: 0 })?;
    Ok(events)
}

#[test]
fn renders_history(rt: HostRuntime) -> Result<(), Fail> {
    let alloc = rt.alloc();
    let events = history(alloc)?;
    let mut sink = MemSink::new(alloc, 1000, NumList::new(alloc))?;
    assert!(rt; events.len() < 8);
    assert!(rt; render(events.as_slice(), &mut sink).is_ok());
    let text = b"0 1 ok 3\n0 2 ok 1 a\n0 3 no 2 Exist\ndone calls=3 moves=0 from=0 to=0\n";
    assert!(rt; sink.as_slice() == text.as_slice());
    Ok(())
}

/// The sessions 15 and 0 have a call done each, and are answered in the other order; then session 15 is answered once more.
#[test]
fn renders_sessions_in_order(rt: HostRuntime) -> Result<(), Fail> {
    let alloc = rt.alloc();
    let mut events = Vec::new(alloc);
    events.push(asked(alloc, 15, 1, Reply::Fine)?)?;
    events.push(asked(alloc, 0, 1, Reply::Fine)?)?;
    events.push(answered(1, Reply::Fine))?;
    events.push(answered(0, Reply::Made { ino: Ino::new(3) }))?;
    events.push(asked(alloc, 15, 2, Reply::Fine)?)?;
    events.push(answered(4, Reply::Fine))?;
    let mut sink = MemSink::new(alloc, 1000, NumList::new(alloc))?;
    assert!(rt; events.len() < 8);
    assert!(rt; render(events.as_slice(), &mut sink).is_ok());
    let text = b"0 1 ok\n15 1 ok 3\n15 2 ok\ndisabled calls=3 moves=0 from=0 to=0\n";
    assert!(rt; sink.as_slice() == text.as_slice());
    Ok(())
}

#[test]
fn renders_a_stop(rt: HostRuntime) -> Result<(), Fail> {
    let alloc = rt.alloc();
    let made = Reply::Made { ino: Ino::new(3) };
    let mut events = Vec::new(alloc);
    events.push(asked(alloc, 0, 1, Reply::Made { ino: Ino::new(3) })?)?;
    events.push(answered(0, made))?;
    events.push(asked(alloc, 0, 2, Reply::Fine)?)?;
    events.push(answered(2, Reply::Fine))?;
    events.push(Event::Stopped { at: 0 })?;
    let mut sink = MemSink::new(alloc, 1000, NumList::new(alloc))?;
    assert!(rt; events.len() < 8);
    assert!(rt; render(events.as_slice(), &mut sink).is_ok());
    let text = b"0 1 ok 3\n0 2 ok\nstopped calls=2 moves=0 from=0 to=0\n";
    assert!(rt; sink.as_slice() == text.as_slice());
    Ok(())
}

#[test]
fn breaks_off_at_a_fault(rt: HostRuntime) -> Result<(), Fail> {
    let alloc = rt.alloc();
    let events = history(alloc)?;
    let mut sink = MemSink::new(alloc, 12, NumList::new(alloc))?;
    assert!(rt; events.len() < 8);
    assert!(rt; render(events.as_slice(), &mut sink) == Err(SinkFault));
    assert!(rt; sink.as_slice() == b"0 1 ok 3\n0 2".as_slice());
    Ok(())
}

fn expect_answer(
    rt: &(impl Abort + AllocGlobal),
    answer: Reply,
    text: &[u8],
) -> Result<(), AllocError> {
    let alloc = rt.alloc();
    let mut events = Vec::new(alloc);
    events.push(asked(alloc, 0, 12, Reply::Begun)?)?;
    events.push(answered(0, answer))?;
    events.push(Event::MoveSwitch {
        at: 0,
        place: 0,
        ino: Ino::new(3),
        from: 5,
        to: 1,
    })?;
    events.push(Event::Stopped { at: 0 })?;
    let mut sink = MemSink::new(alloc, 1000, NumList::new(alloc))?;
    assert!(rt; events.len() < 8);
    assert!(rt; render(events.as_slice(), &mut sink).is_ok());
    assert!(rt; sink.as_slice() == text);
    Ok(())
}

#[test]
fn renders_answers(rt: HostRuntime) -> Result<(), Fail> {
    let alloc = rt.alloc();
    let ino = Ino::new(7);
    let mut names = Names::new(alloc);
    names.push(Name::from_slice(alloc, b"a b\\\xff")?)?;
    names.push(Name::from_slice(alloc, b"~!")?)?;
    let attrs = ExtAttrs {
        fixed: 0,
        reserve: 8,
        flags: 6,
    };
    let stat = Reply::FileStat {
        ino,
        mode: 0o644,
        nlink: 1,
        size: 1024,
    };
    expect_answer(
        &rt,
        stat,
        b"0 12 ok file 7 0644 1 1024\nstopped calls=1 moves=1 from=5 to=1\n",
    )?;
    expect_answer(
        &rt,
        Reply::DirStat {
            ino,
            mode: 0o1755,
            entries: 3,
        },
        b"0 12 ok dir 7 1755 3\nstopped calls=1 moves=1 from=5 to=1\n",
    )?;
    expect_answer(
        &rt,
        Reply::Fine,
        b"0 12 ok\nstopped calls=1 moves=1 from=5 to=1\n",
    )?;
    expect_answer(
        &rt,
        Reply::Listing { names },
        b"0 12 ok 2 a\\x20b\\x5c\\xff ~!\nstopped calls=1 moves=1 from=5 to=1\n",
    )?;
    expect_answer(
        &rt,
        Reply::Ext { attrs },
        b"0 12 ok 0 8 contig,noextend\nstopped calls=1 moves=1 from=5 to=1\n",
    )?;
    expect_answer(
        &rt,
        Reply::Got {
            bytes: Bytes::from_slice(alloc, b"A\xf0")?,
        },
        b"0 12 ok 2 41f0\nstopped calls=1 moves=1 from=5 to=1\n",
    )?;
    Ok(())
}

fn expect_refusal(
    rt: &(impl Abort + AllocGlobal),
    why: StartRefusal,
    text: &[u8],
) -> Result<(), AllocError> {
    let mut sink = MemSink::new(rt.alloc(), 100, NumList::new(rt.alloc()))?;
    assert!(rt; render_refusal(&why, &mut sink).is_ok());
    assert!(rt; sink.as_slice() == text);
    Ok(())
}

#[test]
fn renders_refusals(rt: HostRuntime) -> Result<(), Fail> {
    expect_refusal(&rt, StartRefusal::BadWords, b"refused 1 BadWords\n")?;
    expect_refusal(
        &rt,
        StartRefusal::from(OptionRefusal::Twice(OptionName::Logging)),
        b"refused 1 Twice logging\n",
    )?;
    expect_refusal(
        &rt,
        StartRefusal::from(OptionRefusal::BadOption { at: 1 }),
        b"refused 1 BadOption 1\n",
    )?;
    expect_refusal(
        &rt,
        StartRefusal::DeviceTooSmall {
            have: 9219,
            want: 9220,
        },
        b"refused 2 DeviceTooSmall 9219 9220\n",
    )?;
    let why = Why::Words;
    expect_refusal(
        &rt,
        StartRefusal::from(ScriptRefusal::BadLine { line: 2, why }),
        b"refused 3 BadLine 2\n",
    )?;
    expect_refusal(
        &rt,
        StartRefusal::from(ScriptRefusal::BadOrder { line: 7 }),
        b"refused 3 BadOrder 7\n",
    )?;
    expect_refusal(&rt, StartRefusal::NoMemory, b"")?;
    Ok(())
}
