// The events of a schedule, one after another, without a report.
ghost use Rattle.std.specs.Prelude.{◌≡◌, ◌≤◌, [], ◌∷◌, All, length};
ghost use Rattle.schedule_replay.specs.Answered.{MayBeAsked};
ghost use Rattle.schedule_replay.specs.Quiet.{HasGoneQuietly, HasRunQuietly, IsLasting, last_by, tally_begun, tally_by, tally_stored};

use arrayvec::ArrayVec;
use desk::{Begun, Event, Stored, Supervisor, Turn, TurnEnd};
use outside::Outside;

/// What an activation has printed.
pub type LastPrinted = ArrayVec<u8, 4096>;

/// How events went without a report.
#[derive(Clone, Copy)]
pub enum Quiet {
    /// All of them, with so many commits and so many rollbacks.
    Ended { commits: u32, rollbacks: u32 },
    /// To the one that closed the desk.
    Closed,
}

/// How many commits and rollbacks there were.
#[derive(Clone, Copy)]
struct QuietTally {
    commits: u32,
    rollbacks: u32,
}

/// Nothing was committed or rolled back.
const NOTHING: QuietTally = QuietTally {
    commits: 0,
    rollbacks: 0,
};

/// Runs the events and puts nothing; what the last commit printed is left in the room for it. It takes no memory.
///
/// A rollback is that of a victim, of an activation that a check ends, of one whose record has no room, and of one whose
/// page can't be read.
pub fn run_quiet<S: Supervisor, W: Outside>(
    desk: &mut S,
    events: &[Event],
    last: &mut LastPrinted,
    outside: &mut W,
) -> Quiet
    requires ready { MayBeAsked S.Supervisor W.Outside events.now desk.old outside.old }
    requires few { length events.now ≤ 10000 }
    requires lasting { All IsLasting events.now }
    ensures { HasRunQuietly S.Supervisor W.Outside desk.old desk.new outside.old outside.new
        events.now last.new.items result }
{
    let mut commits = 0;
    let mut rollbacks = 0;
    last.clear();
    for event in events {
        match answer(desk, *event, last, outside) {
            Some(tally) => {
                commits += tally.commits;
                rollbacks += tally.rollbacks;
            }
            None => return Quiet::Closed,
        }
    }
    Quiet::Ended { commits, rollbacks }
}

/// One event; none where it closed the desk.
fn answer<S: Supervisor, W: Outside>(
    desk: &mut S,
    event: Event,
    last: &mut LastPrinted,
    outside: &mut W,
) -> Option<QuietTally>
    requires ready { MayBeAsked S.Supervisor W.Outside (event ∷ []) desk.old outside.old }
    requires lasting { IsLasting event }
    ensures { HasGoneQuietly S.Supervisor W.Outside desk.old desk.new outside.old outside.new
        event last.old.items last.new.items result }
{
    match event {
        Event::Begin { program, args } => tally_of_begin(desk.begin(program, args)),
        Event::Turn { activation, limit } => {
            let turn = desk.turn(outside, activation, limit);
            keep_printed(desk, &turn.end, last);
            tally_of_turn(&turn)
        }
        Event::Checkpoint => tally_of_checkpoint(desk.checkpoint(outside)),
        Event::Crash => unreachable!(),
    }
}

/// What an activation printed that has just committed, in place of what the one before did.
fn keep_printed<S: Supervisor>(desk: &S, end: &TurnEnd, last: &mut LastPrinted)
    ensures { last.new.items ≡ last_by end.now (S.told desk.now).printed last.old.items }
{
    if let TurnEnd::Committed(..) = end {
        last.clear();
        let _ = last.try_extend_from_slice(desk.printed());
    }
}

/// The tally of a begin; none where the desk is closed.
fn tally_of_begin(begun: Begun) -> Option<QuietTally>
    ensures { result ≡ tally_begun begun }
{
    match begun {
        Begun::Shut => None,
        _ => Some(NOTHING),
    }
}

/// The tally of a turn; none where the desk is closed.
fn tally_of_turn(turn: &Turn) -> Option<QuietTally>
    ensures { result ≡ tally_by turn.now.end (length turn.now.cycles.items) }
{
    let victims = turn.cycles.len() as u32;
    match turn.end {
        TurnEnd::Idle => Some(NOTHING),
        TurnEnd::Limit | TurnEnd::Waits(..) | TurnEnd::Victim => Some(QuietTally {
            commits: 0,
            rollbacks: victims,
        }),
        TurnEnd::Committed(..) => Some(QuietTally {
            commits: 1,
            rollbacks: victims,
        }),
        TurnEnd::Checked(..) | TurnEnd::Journal(..) | TurnEnd::Disk => Some(QuietTally {
            commits: 0,
            rollbacks: victims + 1,
        }),
        TurnEnd::Closed { .. } | TurnEnd::Shut => None,
    }
}

/// The tally of a checkpoint; none where the desk is closed.
fn tally_of_checkpoint(stored: Stored) -> Option<QuietTally>
    ensures { result ≡ tally_stored stored }
{
    match stored {
        Stored::Number(_) => Some(NOTHING),
        Stored::Closed | Stored::Shut => None,
    }
}
