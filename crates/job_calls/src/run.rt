// A job that runs on the store of a disk.
ghost use Rattle.std.specs.Prelude.{◌≡◌, ◌≤◌, [], length, vec_capacity};
ghost use Rattle.job_calls.specs.Below.{begins_in, IsReady};
ghost use Rattle.job_calls.specs.Causes.{status_of_replay};
ghost use Rattle.job_calls.specs.Headline.{HasRunJob, RunsSource};

use super::ended::Ended;
use call_status::{Status, job_from};
use desk::{Committed, Event, Supervisor};
use job_text::Job;
use outside::{Outside, Source};
use schedule_replay::{Replayed, replay};
use session::Session;
use std::alloc::Global;

/// Runs the job of a source on the disk's store, and puts its report, a line at a time.
pub fn run_source<S: Source, W: Outside>(alloc: Global, source: &mut S, outside: &mut W) -> Ended
    ensures { RunsSource S.Source W.Outside source.old source.new outside.old outside.new result }
{
    match job_from(alloc, source) {
        Err(status) => Ended::without_events(alloc, status),
        Ok(job) => try_job(alloc, job, outside),
    }
}

/// The store is opened, and the events of the job run. All memory is taken before the first of them.
pub fn try_job<W: Outside>(alloc: Global, job: Job, outside: &mut W) -> Ended
    requires { IsReady job }
    ensures { HasRunJob W.Outside job outside.old outside.new result }
{
    let begins = begins_in(&job.events);
    match Vec::with_capacity(alloc, begins as usize) {
        Ok(order) => run_job(alloc, job, begins, order, outside),
        Err(error) => Ended::without_events(alloc, Status::from(error)),
    }
}

/// The same, with room in the order for so many begins.
fn run_job<W: Outside>(
    alloc: Global,
    job: Job,
    begins: u32,
    order: Vec<Committed>,
    outside: &mut W,
) -> Ended
    requires ready { IsReady job }
    requires begins { begins ≡ begins_in job.events.items }
    requires none { order.items ≡ [] }
    requires room { begins ≤ vec_capacity order }
    ensures { HasRunJob W.Outside job outside.old outside.new result }
{
    let mut session = match Session::open(alloc, outside, job.programs, job.frames, begins) {
        Ok(session) => session,
        Err(fault) => return Ended::without_events(alloc, Status::from(fault)),
    };
    let replayed = replay(&mut session, &job.names, &job.events, outside);
    Ended {
        status: status_of_replay(replayed),
        order: filled(order, session.order()),
        session: Some(session),
    }
}

/// A list with no commits, and room for these, filled with them. It takes no memory.
pub fn filled(mut order: Vec<Committed>, commits: &[Committed]) -> Vec<Committed>
    requires none { order.items ≡ [] }
    requires room { length commits.now ≤ vec_capacity order }
    ensures { result.items ≡ commits.now }
{
    let _ = order.extend_from_slice(commits);
    order
}

/// How many of the events are begins.
pub fn begins_in(events: &[Event]) -> u32
    requires { length events.now ≤ 10000 }
    ensures { result ≡ begins_in events.now }
{
    events
        .iter()
        .filter(|event| matches!(event, Event::Begin { .. }))
        .count() as u32
}

/// The status of a replay.
fn status_of_replay(replayed: Replayed) -> Status
    ensures { result ≡ status_of_replay replayed }
{
    match replayed {
        Replayed::Ended => Status::Done,
        Replayed::Closed => Status::DiskFault,
        Replayed::Damaged(offset) => Status::Store(offset),
        Replayed::PutFault => Status::PutFault,
    }
}
