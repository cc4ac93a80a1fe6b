//! The output of a mount.
ghost use Rattle.std.specs.Prelude.{◌≡◌, ◌<◌, ◌≤◌, ◌^◌, [], length, OnOk, OnErr, count_by, sum_by, option_copied};
ghost use Rattle.std.specs.Io.KnownBytes.{Appends};
ghost use Rattle.std.specs.List.{list_any};
ghost use Rattle.vx_base.specs.Faults.{HasCause};
ghost use Rattle.vx_script.specs.Puts.{AppendsPrefix, Puts};
ghost use Rattle.vx_script.specs.Output.{line_text, answer_text, event_text, session_text, sessions_text, is_return, is_switch, is_stop, moved_from, moved_to, ending_text, count_text, summary_text, output_of};

use crate::replies::put_reply;
use crate::text_buffer::{TextBuffer, flush, put};
use crate::words::{Word, put_number, put_spaced};
use vx_base::{Event, Reply, Sink, SinkFault};

const SESSIONS: u8 = 16;

/// Writes the lines of each session, and then how the mount ended. At a fault the sink took a first part of them.
pub fn render<K: Sink>(history: &[Event], out: &mut K) -> Result<(), SinkFault>
    requires { length history.now < 2 ^ 32 }
    ensures ok { OnOk result (Appends (K.taken out.old) (K.taken out.new) (output_of history.now)) }
    ensures err { OnErr result (AppendsPrefix (K.taken out.old) (K.taken out.new) (output_of history.now)) }
    ensures cause { HasCause (K.fault_count out.old) (K.fault_count out.new) result }
{
    let mut buffer = TextBuffer::new();
    put_output(out, &mut buffer, history)
}

/// Puts the output, and hands it all to the sink.
fn put_output<K: Sink>(
    out: &mut K,
    buffer: &mut TextBuffer,
    history: &[Event],
) -> Result<(), SinkFault>
    requires { length history.now < 2 ^ 32 }
    ensures puts { Puts K.taken K.fault_count out.old out.new buffer.old buffer.new result
        (output_of history.now) }
    ensures empty { OnOk result (buffer.new ≡ []) }
{
    put_lines(out, buffer, history)?;
    flush(out, buffer)
}

#[tactic(auto, unfolding(crate::specs::Output::output_of))]
fn put_lines<K: Sink>(
    out: &mut K,
    buffer: &mut TextBuffer,
    history: &[Event],
) -> Result<(), SinkFault>
    requires { length history.now < 2 ^ 32 }
    ensures { Puts K.taken K.fault_count out.old out.new buffer.old buffer.new result
        (output_of history.now) }
{
    put_sessions(out, buffer, history)?;
    put_summary(out, buffer, history)
}

fn put_sessions<K: Sink>(
    out: &mut K,
    buffer: &mut TextBuffer,
    history: &[Event],
) -> Result<(), SinkFault>
    ensures { Puts K.taken K.fault_count out.old out.new buffer.old buffer.new result
        (sessions_text history.now 16) }
{
    for session in 0..SESSIONS {
        put_session(out, buffer, history, session)?;
    }
    Ok(())
}

fn put_session<K: Sink>(
    out: &mut K,
    buffer: &mut TextBuffer,
    history: &[Event],
    session: u8,
) -> Result<(), SinkFault>
    ensures { Puts K.taken K.fault_count out.old out.new buffer.old buffer.new result
        (session_text history.now session) }
{
    for event in history {
        put_event(out, buffer, history, session, event)?;
    }
    Ok(())
}

/// Puts the line of an event that is an answer to a call of this session.
fn put_event<K: Sink>(
    out: &mut K,
    buffer: &mut TextBuffer,
    history: &[Event],
    session: u8,
    event: &Event,
) -> Result<(), SinkFault>
    ensures { Puts K.taken K.fault_count out.old out.new buffer.old buffer.new result
        (event_text history.now session event.now) }
{
    match event {
        Event::Ret {
            at: _,
            place,
            answer,
        } => put_answer(out, buffer, session, history.get(*place as usize), answer),
        _ => Ok(()),
    }
}

fn put_answer<K: Sink>(
    out: &mut K,
    buffer: &mut TextBuffer,
    session: u8,
    call: Option<&Event>,
    answer: &Reply,
) -> Result<(), SinkFault>
    ensures { Puts K.taken K.fault_count out.old out.new buffer.old buffer.new result
        (answer_text session (option_copied call.entry) answer.now) }
{
    match call {
        Some(
            Event::Do {
                at: _,
                session: caller,
                line,
                call: _,
                reply: _,
            },
        ) if *caller == session => put_line(out, buffer, session, *line, answer),
        _ => Ok(()),
    }
}

fn put_line<K: Sink>(
    out: &mut K,
    buffer: &mut TextBuffer,
    session: u8,
    line: u32,
    answer: &Reply,
) -> Result<(), SinkFault>
    ensures { Puts K.taken K.fault_count out.old out.new buffer.old buffer.new result
        (line_text session line answer.now) }
{
    put_number(out, buffer, session as u64)?;
    put_spaced(out, buffer, &Word::Number(line as u64))?;
    put_reply(out, buffer, answer)?;
    put(out, buffer, b"\n")
}

fn put_summary<K: Sink>(
    out: &mut K,
    buffer: &mut TextBuffer,
    history: &[Event],
) -> Result<(), SinkFault>
    requires { length history.now < 2 ^ 32 }
    ensures { Puts K.taken K.fault_count out.old out.new buffer.old buffer.new result
        (summary_text history.now) }
{
    put(out, buffer, ending(history))?;
    put_count(out, buffer, b" calls=", return_count(history))?;
    put_count(out, buffer, b" moves=", switch_count(history))?;
    put_count(out, buffer, b" from=", from_sum(history))?;
    put_count(out, buffer, b" to=", to_sum(history))?;
    put(out, buffer, b"\n")
}

fn put_count<K: Sink>(
    out: &mut K,
    buffer: &mut TextBuffer,
    label: &[u8],
    n: u64,
) -> Result<(), SinkFault>
    ensures { Puts K.taken K.fault_count out.old out.new buffer.old buffer.new result
        (count_text label.now n) }
{
    put(out, buffer, label)?;
    put_number(out, buffer, n)
}

/// How the mount ended.
fn ending(history: &[Event]) -> &'static [u8]
    ensures { result.now ≡ ending_text history.now }
{
    match history.last() {
        Some(Event::Unmounted { at: _ }) => b"done",
        _ if has_stop(history) => b"stopped",
        _ => b"disabled",
    }
}

fn has_stop(history: &[Event]) -> bool
    ensures { result ≡ list_any is_stop history.now }
{
    history
        .iter()
        .any(|event| matches!(event, Event::Stopped { at: _ }))
}

fn return_count(history: &[Event]) -> u64
    ensures { result ≡ count_by is_return history.now }
{
    let mut count = 0;
    for event in history {
        if is_return_event(event) {
            count += 1;
        }
    }
    count
}

fn is_return_event(event: &Event) -> bool
    ensures { result ≡ is_return event.now }
{
    matches!(
        event,
        Event::Ret {
            at: _,
            place: _,
            answer: _
        }
    )
}

fn switch_count(history: &[Event]) -> u64
    ensures { result ≡ count_by is_switch history.now }
{
    let mut count = 0;
    for event in history {
        if is_switch_event(event) {
            count += 1;
        }
    }
    count
}

fn is_switch_event(event: &Event) -> bool
    ensures { result ≡ is_switch event.now }
{
    matches!(
        event,
        Event::MoveSwitch {
            at: _,
            place: _,
            ino: _,
            from: _,
            to: _
        }
    )
}

fn from_sum(history: &[Event]) -> u64
    requires { length history.now < 2 ^ 32 }
    ensures { result ≡ sum_by moved_from history.now }
{
    let mut sum = 0;
    for event in history {
        sum += move_numbers(event).0 as u64;
    }
    sum
}

fn to_sum(history: &[Event]) -> u64
    requires { length history.now < 2 ^ 32 }
    ensures { result ≡ sum_by moved_to history.now }
{
    let mut sum = 0;
    for event in history {
        sum += move_numbers(event).1 as u64;
    }
    sum
}

/// What a move found and what it left; nothing for another event.
fn move_numbers(event: &Event) -> (u32, u32)
    ensures from { result.0 ≡ moved_from event.now }
    ensures to { result.1 ≡ moved_to event.now }
{
    match event {
        Event::MoveSwitch {
            at: _,
            place: _,
            ino: _,
            from,
            to,
        } => (*from, *to),
        _ => (0, 0),
    }
}
