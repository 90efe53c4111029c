// The lines of one answer, put one after another.
ghost use Rattle.std.specs.Prelude.{◌≡◌, ◌<◌, ◌≤◌, ℕ, List, [], ◌∷◌, ◌++◌, length, map};
ghost use Rattle.schedule_replay.specs.Below.{begun_told, Closed, cycle_lines, ending_lines, ending_told, flat_map, happening_lines, reopened_told, stored_told, turn_told};
ghost use Rattle.lines.specs.Waits.{victim_of};
ghost use Rattle.report_text.specs.Line.{line_told, IsShort};
ghost use Rattle.desk.specs.ReportLines.{Doubt};
ghost use Rattle.schedule_replay.specs.LinesPut.{Puts, end_number, stored_number, reopened_number, counted_lines, unended_told};

use desk::{Begun, Cycle, Reopened, Stored, Turn, TurnEnd};
use job_text::Name;
use outside::{Failed, Outside};
use report_text::{Line, Reporter};

/// One line.
pub fn put_one<W: Outside>(
    line: &Line,
    reporter: &mut Reporter,
    outside: &mut W,
) -> Result<(), Failed>
    requires { IsShort line.now }
    ensures { Puts W.Outside (line_told line.now ∷ []) outside.old outside.new result }
{
    reporter.put(line, outside)
}

/// The line of a begin of the program with this place.
pub fn put_begun<W: Outside>(
    begun: Begun,
    program: u16,
    names: &[Name],
    reporter: &mut Reporter,
    outside: &mut W,
) -> Result<(), Failed>
    requires { program < length names.now }
    ensures { (number : ℕ) → Puts W.Outside (happening_lines (map (λ name. name.items) names.now) number (begun_told program begun)) outside.old outside.new result }
{
    let name = names[usize::from(program)].as_slice();
    match begun {
        Begun::Started(activation) => put_one(&Line::Begin(activation, name), reporter, outside),
        Begun::Busy(activation) => put_one(&Line::Busy(activation, name), reporter, outside),
        Begun::NoSegment(activation, segment) => {
            let line = Line::NoSegment(activation, name, u32::from(segment));
            put_one(&line, reporter, outside)
        }
        Begun::Shut => Ok(()),
    }
}

/// The lines of a turn; one of a desk that was closed before has none.
pub fn put_turn<W: Outside>(
    turn: &Turn,
    activation: u32,
    printed: &[u8],
    reporter: &mut Reporter,
    outside: &mut W,
) -> Result<(), Failed>
    requires { length printed.now ≤ 4096 }
    ensures { (names : List (List ℕ)) → Puts W.Outside (happening_lines names (end_number turn.now.end) (turn_told activation turn.now printed.now)) outside.old outside.new result }
{
    match turn.end {
        TurnEnd::Idle => put_one(&Line::Idle(activation), reporter, outside),
        TurnEnd::Shut => Ok(()),
        _ => put_counted(turn, activation, printed, reporter, outside),
    }
}

/// The lines of a turn that had an instruction to attempt: its counts, the rollbacks and its end.
fn put_counted<W: Outside>(
    turn: &Turn,
    activation: u32,
    printed: &[u8],
    reporter: &mut Reporter,
    outside: &mut W,
) -> Result<(), Failed>
    requires { length printed.now ≤ 4096 }
    ensures { Puts W.Outside (counted_lines activation turn.now printed.now) outside.old outside.new result }
{
    let counts = Line::Turn {
        activation,
        ran: turn.ran,
        pages: turn.pages,
        locks: turn.locks,
    };
    put_one(&counts, reporter, outside)?;
    put_cycles(turn.cycles.as_slice(), reporter, outside)?;
    put_end(&turn.end, activation, printed, reporter, outside)
}

/// The lines of rollbacks, one cycle after another.
fn put_cycles<W: Outside>(
    cycles: &[Cycle],
    reporter: &mut Reporter,
    outside: &mut W,
) -> Result<(), Failed>
    ensures { Puts W.Outside (flat_map cycle_lines (map (λ cycle. cycle.members.items) cycles.now)) outside.old outside.new result }
{
    for cycle in cycles {
        put_cycle(cycle.members.as_slice(), reporter, outside)?;
    }
    Ok(())
}

/// The lines of a cycle, whose victim is its greatest member.
fn put_cycle<W: Outside>(
    members: &[u32],
    reporter: &mut Reporter,
    outside: &mut W,
) -> Result<(), Failed>
    requires { length members.now ≤ 17 }
    ensures { Puts W.Outside (cycle_lines members.now) outside.old outside.new result }
{
    put_one(&Line::Cycle(members), reporter, outside)?;
    put_one(&Line::Victim(greatest(members)), reporter, outside)
}

/// The greatest member of a cycle.
fn greatest(members: &[u32]) -> u32
    ensures { result ≡ victim_of members.now }
{
    members.iter().fold(0, |most, member| most.max(*member))
}

/// The lines of a turn's end.
fn put_end<W: Outside>(
    end: &TurnEnd,
    activation: u32,
    printed: &[u8],
    reporter: &mut Reporter,
    outside: &mut W,
) -> Result<(), Failed>
    requires { length printed.now ≤ 4096 }
    ensures { Puts W.Outside (ending_lines (end_number end.now) activation (ending_told end.now printed.now)) outside.old outside.new result }
{
    match end {
        TurnEnd::Idle | TurnEnd::Limit | TurnEnd::Victim | TurnEnd::Shut => Ok(()),
        TurnEnd::Committed(number, steps) => {
            let commit = Line::Commit {
                activation,
                number: *number,
                steps: *steps,
                out: printed,
            };
            put_one(&commit, reporter, outside)
        }
        TurnEnd::Checked(code, iar) => {
            let check = Line::Check {
                activation,
                code: u32::from(*code),
                iar: *iar,
            };
            put_one(&check, reporter, outside)
        }
        TurnEnd::Waits(_, holders) => {
            put_one(
                &Line::Wait(activation, holders.as_slice()),
                reporter,
                outside,
            )
        }
        TurnEnd::Journal(lines, limit) => {
            let journal = Line::Journal {
                activation,
                lines: *lines,
                limit: *limit,
            };
            put_one(&journal, reporter, outside)
        }
        TurnEnd::Disk => put_one(&Line::Disk(activation), reporter, outside),
        TurnEnd::Closed { doubt: None, .. } => put_one(&Line::Closed, reporter, outside),
        TurnEnd::Closed {
            doubt: Some(_),
            number,
        } => put_doubt(activation, *number, reporter, outside),
    }
}

/// The lines of a commit that is in doubt: the desk is closed.
fn put_doubt<W: Outside>(
    activation: u32,
    number: u64,
    reporter: &mut Reporter,
    outside: &mut W,
) -> Result<(), Failed>
    ensures { Puts W.Outside (Doubt activation number ∷ Closed ∷ []) outside.old outside.new result }
{
    put_one(&Line::Doubt(activation, number), reporter, outside)?;
    put_one(&Line::Closed, reporter, outside)
}

/// How an activation ended that has no end of its own.
#[derive(Clone, Copy)]
pub enum Unended {
    /// It was active at the end.
    Left,
    /// A crash ended it.
    Lost,
}

/// The line of an activation that has no end of its own.
fn unended_line<'a>(unended: Unended, activation: u32) -> Line<'a>
    ensures line { line_told result ≡ unended_told unended activation }
    ensures short { IsShort result }
{
    match unended {
        Unended::Left => Line::Left(activation),
        Unended::Lost => Line::Lost(activation),
    }
}

/// A line for each activation that has no end of its own.
fn put_each<W: Outside>(
    unended: Unended,
    activations: &[u32],
    reporter: &mut Reporter,
    outside: &mut W,
) -> Result<(), Failed>
    ensures { Puts W.Outside (map (unended_told unended) activations.now) outside.old outside.new result }
{
    for activation in activations {
        put_one(&unended_line(unended, *activation), reporter, outside)?;
    }
    Ok(())
}

/// A line for each activation that has no end of its own, and one more.
pub fn put_each_and<W: Outside>(
    unended: Unended,
    activations: &[u32],
    last: &Line,
    reporter: &mut Reporter,
    outside: &mut W,
) -> Result<(), Failed>
    requires { IsShort last.now }
    ensures { Puts W.Outside (map (unended_told unended) activations.now ++ line_told last.now ∷ []) outside.old outside.new result }
{
    put_each(unended, activations, reporter, outside)?;
    put_one(last, reporter, outside)
}

/// The line of a checkpoint; one of a desk that was closed before has none.
pub fn put_stored<W: Outside>(
    stored: Stored,
    reporter: &mut Reporter,
    outside: &mut W,
) -> Result<(), Failed>
    ensures { (names : List (List ℕ)) → Puts W.Outside (happening_lines names (stored_number stored) (stored_told stored)) outside.old outside.new result }
{
    match stored {
        Stored::Number(number) => put_one(&Line::Stored(number), reporter, outside),
        Stored::Closed => put_one(&Line::Closed, reporter, outside),
        Stored::Shut => Ok(()),
    }
}

/// The lines of a crash: those that it ended, and the store that is open again, or closed; one of a desk that was closed
/// before has none.
pub fn put_reopened<W: Outside>(
    reopened: Reopened,
    lost: &[u32],
    reporter: &mut Reporter,
    outside: &mut W,
) -> Result<(), Failed>
    ensures { (names : List (List ℕ)) → Puts W.Outside (happening_lines names (reopened_number reopened) (reopened_told lost.now reopened)) outside.old outside.new result }
{
    match reopened {
        Reopened::Shut => Ok(()),
        Reopened::Number(number) => put_each_and(
            Unended::Lost,
            lost,
            &Line::Open(number),
            reporter,
            outside,
        ),
        Reopened::Damaged(_) | Reopened::DiskFault => put_each_and(
            Unended::Lost,
            lost,
            &Line::Closed,
            reporter,
            outside,
        ),
    }
}
