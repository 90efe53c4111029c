// The trace of an activation in a finished run.
ghost use Rattle.std.specs.Prelude.{◌≡◌, ◌+◌, ◌≤◌, length, MatchResult};
ghost use Rattle.store_calls.specs.Below.{flat_map};
ghost use Rattle.store_calls.specs.New.{EndsAs, PutsIn};
ghost use Rattle.store_calls.specs.Traced.{IsOfTrace, IsTraced, IsUntraced, TracedBy, TracesFrom, status_of_trace, steps_line, touch_line, trace_lines};

use super::bundle_parts::open_bundle;
use call_status::{MOST_OF_BUNDLE, Status, read_text};
use outside::{Failed, Outside, Source};
use serial_audit::{Touch, Trace, TraceFault, trace};
use std::alloc::Global;
use text_line::TextLine;

/// Prints which lines an activation of the source's bundle touched.
pub fn trace_source<S: Source, W: Outside>(
    alloc: Global,
    source: &mut S,
    activation: u32,
    outside: &mut W,
) -> Status
    ensures { TracesFrom S.Source W.Outside activation
        source.old source.new outside.old outside.new result }
{
    match read_text(alloc, source, MOST_OF_BUNDLE) {
        Ok(text) => trace_text(alloc, &text, activation, outside),
        Err(fault) => Status::from(fault),
    }
}

/// Prints which lines an activation of a bundle touched.
fn trace_text<W: Outside>(alloc: Global, bytes: &[u8], activation: u32, outside: &mut W) -> Status
    requires { length bytes.now ≤ 33554432 }
    ensures traced { TracedBy W.Outside bytes.now activation outside.old outside.new result }
    ensures ends { EndsAs W.Outside IsOfTrace outside.old outside.new result }
{
    match trace_in(alloc, bytes, activation) {
        Ok(trace) => match put_trace(activation, &trace, outside) {
            Ok(()) => Status::Done,
            Err(Failed) => Status::PutFault,
        },
        Err(status) => status,
    }
}

/// The trace of an activation of a bundle.
fn trace_in(alloc: Global, bytes: &[u8], activation: u32) -> Result<Trace, Status>
    requires { length bytes.now ≤ 33554432 }
    ensures { MatchResult result (IsTraced bytes.now activation) (IsUntraced bytes.now activation) }
{
    let opened = open_bundle(alloc, bytes)?;
    match trace(
        alloc,
        &opened.job,
        &opened.report,
        &opened.opening,
        activation,
    ) {
        Ok(trace) => Ok(trace),
        Err(fault) => Err(status_of_trace(fault)),
    }
}

/// The status of a trace that isn't had.
fn status_of_trace(fault: TraceFault) -> Status
    ensures { result ≡ status_of_trace fault }
{
    match fault {
        TraceFault::NoCommit => Status::NoCommit,
        TraceFault::NotSerial(place) => Status::NotSerial(u64::from(place)),
        TraceFault::Memory => Status::NoMemory,
    }
}

/// Puts the lines of a trace.
fn put_trace<W: Outside>(activation: u32, trace: &Trace, outside: &mut W) -> Result<(), Failed>
    ensures { PutsIn W.Outside (trace_lines activation trace.now) (length trace.now.touches.items + 1) outside.old outside.new result }
{
    put_touches(&trace.touches, outside)?;
    put_steps(activation, trace.steps, outside)
}

/// Puts the lines of touches.
fn put_touches<W: Outside>(touches: &[Touch], outside: &mut W) -> Result<(), Failed>
    ensures { PutsIn W.Outside (flat_map touch_line touches.now) (length touches.now) outside.old outside.new result }
{
    let mut text = TextLine::new();
    for touch in touches {
        put_touch(&mut text, touch, outside)?;
    }
    Ok(())
}

/// Puts the line of one touch.
fn put_touch<W: Outside>(text: &mut TextLine, touch: &Touch, outside: &mut W) -> Result<(), Failed>
    ensures { PutsIn W.Outside (touch_line touch.now) 1 outside.old outside.new result }
{
    text.begin(b"step");
    text.number(touch.step);
    if touch.store {
        text.part(b"w", u64::from(touch.line));
    } else {
        text.part(b"r", u64::from(touch.line));
    }
    text.end();
    outside.put(text.as_slice())
}

/// Puts the last line.
fn put_steps<W: Outside>(activation: u32, steps: u64, outside: &mut W) -> Result<(), Failed>
    ensures { PutsIn W.Outside (steps_line activation steps) 1 outside.old outside.new result }
{
    let mut text = TextLine::new();
    text.begin(b"trace");
    text.number(u64::from(activation));
    text.part(b"steps", steps);
    text.end();
    outside.put(text.as_slice())
}
