// The events of a schedule, one after another, and their report.
ghost use Rattle.std.specs.Prelude.{◌≡◌, [], ◌∷◌, All};
ghost use Rattle.schedule_replay.specs.Below.{stored_closes, turn_closes};
ghost use Rattle.desk.specs.Seen.{IsUnbroken};
ghost use Rattle.desk.specs.declared.event.Event.TheVariants as event;
ghost use Rattle.job_text.specs.Written.{texts_of};
ghost use Rattle.schedule_replay.specs.Answered.{CanReplay, MayBeAsked, way_of};
ghost use Rattle.schedule_replay.specs.Runs.{span};
ghost use Rattle.schedule_replay.specs.Replays.{HasPutEvents, HasReported, PutsClosing, WentBy, going_if, going_begun, going_by};

use super::answer_lines::{
    Unended, put_begun, put_each_and, put_one, put_reopened, put_stored, put_turn,
};
use desk::{Begun, Event, Reopened, Stored, Supervisor, TurnEnd};
use job_text::Name;
use outside::{Failed, Outside};
use report_text::{Line, Reporter};

/// How the events went.
#[derive(Clone, Copy)]
pub enum Replayed {
    /// All of them.
    Ended,
    /// To the one that closed the desk.
    Closed,
    /// To a crash after which the bytes of the store had a fault at this offset.
    Damaged(u64),
    /// To the one in whose report a put failed.
    PutFault,
}

/// Whether the desk goes on after an event.
#[derive(Clone, Copy)]
enum Going {
    On,
    Closed,
    Damaged(u64),
}

/// Runs the events from a desk that has just opened, and puts the lines of their report. It takes no memory.
pub fn replay<S: Supervisor, W: Outside>(
    desk: &mut S,
    names: &[Name],
    events: &[Event],
    outside: &mut W,
) -> Replayed
    requires { CanReplay S.Supervisor W.Outside names.now events.now desk.old outside.old }
    ensures { HasReported S.Supervisor W.Outside (texts_of names.now) events.now
        desk.old desk.new outside.old outside.new (way_of result) }
{
    match put_report(desk, names, events, outside) {
        Err(Failed) => Replayed::PutFault,
        Ok(Going::Closed) => Replayed::Closed,
        Ok(Going::Damaged(offset)) => Replayed::Damaged(offset),
        Ok(Going::On) => Replayed::Ended,
    }
}

/// The lines of the report.
fn put_report<S: Supervisor, W: Outside>(
    desk: &mut S,
    names: &[Name],
    events: &[Event],
    outside: &mut W,
) -> Result<Going, Failed>
    requires { CanReplay S.Supervisor W.Outside names.now events.now desk.old outside.old }
    ensures { HasReported S.Supervisor W.Outside (texts_of names.now) events.now
        desk.old desk.new outside.old outside.new result }
{
    let mut reporter = Reporter::new();
    put_one(&Line::Open(desk.number()), &mut reporter, outside)?;
    match put_events(desk, names, events, &mut reporter, outside)? {
        Going::On => {
            put_closing(desk, &mut reporter, outside)?;
            Ok(Going::On)
        }
        going => Ok(going),
    }
}

/// The lines of the end, where the desk is open.
fn put_closing<S: Supervisor, W: Outside>(
    desk: &S,
    reporter: &mut Reporter,
    outside: &mut W,
) -> Result<(), Failed>
    ensures { PutsClosing S.Supervisor W.Outside desk.now outside.old outside.new result }
{
    let left = desk.active();
    let end = Line::End(desk.number());
    put_each_and(Unended::Left, left.as_slice(), &end, reporter, outside)
}

/// The events and their lines, to the one that closed the desk.
fn put_events<S: Supervisor, W: Outside>(
    desk: &mut S,
    names: &[Name],
    events: &[Event],
    reporter: &mut Reporter,
    outside: &mut W,
) -> Result<Going, Failed>
    requires { CanReplay S.Supervisor W.Outside names.now events.now desk.old outside.old }
    ensures { HasPutEvents S.Supervisor W.Outside (texts_of names.now) events.now
        desk.old desk.new outside.old outside.new result }
{
    for event in events {
        match answer(desk, names, *event, reporter, outside)? {
            Going::On => {}
            going => return Ok(going),
        }
    }
    Ok(Going::On)
}

/// One event and its lines. Those that a crash ends are asked for before it, and their lines put after it.
fn answer<S: Supervisor, W: Outside>(
    desk: &mut S,
    names: &[Name],
    event: Event,
    reporter: &mut Reporter,
    outside: &mut W,
) -> Result<Going, Failed>
    requires { CanReplay S.Supervisor W.Outside names.now (event ∷ []) desk.old outside.old }
    ensures { WentBy S.Supervisor W.Outside (texts_of names.now) event
        desk.old desk.new (span outside.old outside.new) result }
{
    match event {
        Event::Begin { program, args } => {
            let begun = desk.begin(program, args);
            let put = put_begun(begun, program, names, reporter, outside);
            put.and(Ok(going_after_begin(begun)))
        }
        Event::Turn { activation, limit } => {
            answer_turn(desk, names, activation, limit, reporter, outside)
        }
        Event::Checkpoint => {
            let stored = desk.checkpoint(outside);
            let put = put_stored(stored, reporter, outside);
            put.and(Ok(going_after_checkpoint(stored)))
        }
        Event::Crash => {
            let lost = desk.active();
            let reopened = desk.forget(outside);
            let put = put_reopened(reopened, lost.as_slice(), reporter, outside);
            put.and(Ok(going_after_crash(reopened)))
        }
    }
}

/// A turn and its lines. It is a call, so that the room for what a turn came to is cleared for turns alone.
#[inline(never)]
fn answer_turn<S: Supervisor, W: Outside>(
    desk: &mut S,
    names: &[Name],
    activation: u32,
    limit: u32,
    reporter: &mut Reporter,
    outside: &mut W,
) -> Result<Going, Failed>
    requires ready { MayBeAsked S.Supervisor W.Outside (event.Turn activation limit ∷ []) desk.old outside.old }
    requires unbroken { All (λ name. IsUnbroken name.items) names.now }
    ensures { WentBy S.Supervisor W.Outside (texts_of names.now) (event.Turn activation limit)
        desk.old desk.new (span outside.old outside.new) result }
{
    let turn = desk.turn(outside, activation, limit);
    let put = put_turn(&turn, activation, desk.printed(), reporter, outside);
    put.and(Ok(going_after_turn(&turn.end)))
}

/// Whether the desk goes on after a begin.
fn going_after_begin(begun: Begun) -> Going
    ensures { result ≡ going_begun begun }
{
    match begun {
        Begun::Shut => Going::Closed,
        _ => Going::On,
    }
}

/// Whether the desk goes on after a turn that ended so.
fn going_after_turn(end: &TurnEnd) -> Going
    ensures { result ≡ going_if (turn_closes end.now) }
{
    match end {
        TurnEnd::Closed { .. } | TurnEnd::Shut => Going::Closed,
        _ => Going::On,
    }
}

/// Whether the desk goes on after a checkpoint.
fn going_after_checkpoint(stored: Stored) -> Going
    ensures { result ≡ going_if (stored_closes stored) }
{
    match stored {
        Stored::Number(_) => Going::On,
        Stored::Closed | Stored::Shut => Going::Closed,
    }
}

/// Whether the desk goes on after a crash.
fn going_after_crash(reopened: Reopened) -> Going
    ensures { result ≡ going_by reopened }
{
    match reopened {
        Reopened::Number(_) => Going::On,
        Reopened::Damaged(offset) => Going::Damaged(offset),
        Reopened::DiskFault | Reopened::Shut => Going::Closed,
    }
}
