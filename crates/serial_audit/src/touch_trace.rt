ghost use Rattle.std.specs.Prelude.{◌≡◌, ◌-◌, ◌<◌, ◌^◌, List, length, map, take, IfOk, MatchOption};
ghost use Rattle.serial_audit.specs.Below.{byte_count, Contains, Job};
ghost use Rattle.serial_audit.specs.declared.auditing.KeptStore.{KeptStore};
ghost use Rattle.serial_audit.specs.Audit.{IsLineSound, ToldLine, report_told, line_claim};
ghost use Rattle.serial_audit.specs.Progress.{Stands};
ghost use Rattle.serial_audit.specs.Trace.{AreTouches, IsTraceAnswer, IsFirstOf, CommitsNever, Traces, IsFirstAt};

use super::answer::{Trace, TraceFault};
use super::auditing::{KeptStore, Progress, audit_lines};
use super::touch::Touch;
use super::traced_run::run_traced;
use job_text::Job;
use lines::Directory;
use report_text::CommitLine;
use std::alloc::{AllocError, Global};

/// The lines that an activation touches up to its first commit line, as it runs after the commits before it (docs/MODEL.md,
/// "A trace").
///
/// Each of these programs runs once from its start, on the store that those before it left.
///
/// # Errors
///
/// As [`TraceFault`] says.
pub fn trace(
    alloc: Global,
    job: &Job,
    report: &[CommitLine],
    opening: &KeptStore,
    activation: u32,
) -> Result<Trace, TraceFault>
    requires store { length opening.now.store.items ≡ byte_count opening.now.directory }
    requires few { length report.now < 2 ^ 32 - 1 }
    ensures { IsTraceAnswer job.now opening.now (report_told report.now) activation result }
{
    let (before, commit) = match first_commit(report, activation) {
        Some(found) => found,
        None => return Err(TraceFault::NoCommit),
    };
    let progress = match audit_lines(alloc, job, &report[..before], opening)? {
        Ok(progress) => progress,
        Err(place) => return Err(TraceFault::NotSerial(place)),
    };
    let place = progress.next_place();
    match touches_of(alloc, &opening.directory, progress, commit)? {
        Some(touches) => Ok(Trace {
            steps: commit.steps,
            touches,
        }),
        None => Err(TraceFault::NotSerial(place)),
    }
}

/// The first commit line of an activation, and how many lines are before it.
fn first_commit(report: &[CommitLine], activation: u32) -> Option<(usize, &CommitLine)>
    ensures { MatchOption result (CommitsNever report.now activation) (λ found. IsFirstAt report.now activation found.0 found.1.now) }
{
    for (place, commit) in report.iter().enumerate() {
        if commit.activation == activation {
            return Some((place, commit));
        }
    }
    None
}

/// The touches of a commit line after others, if it is sound. Its program runs on the store of the check itself.
fn touches_of(
    alloc: Global,
    directory: &Directory,
    progress: Progress,
    commit: &CommitLine,
) -> Result<Option<Vec<Touch>>, AllocError>
    requires { length progress.store ≡ byte_count directory.now }
    ensures { IfOk result (Traces directory.now progress.entry (line_claim commit.now)) }
{
    let entry = match progress.entry_for(commit) {
        Some(entry) => entry,
        None => return Ok(None),
    };
    let store = progress.store;
    match run_traced(
        alloc,
        entry.program,
        entry.args,
        directory,
        store,
        commit.steps,
    )? {
        Some((state, touches)) => {
            if state.out.as_slice() == commit.out.as_slice() {
                Ok(Some(touches))
            } else {
                Ok(None)
            }
        }
        None => Ok(None),
    }
}
