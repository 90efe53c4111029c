// A load with waits and victims, run without a report.
ghost use Rattle.std.specs.Prelude.{◌≡◌, ◌≤◌, [], ◌∷◌, ◌++◌, length, vec_capacity};
ghost use Rattle.job_calls.specs.Below.{begins_in, IsBigJob, IsReady, PrintsBytes, PutsTimes, call};
ghost use Rattle.job_calls.specs.Big.{EndsLoad, IsToldBy, big_line};

use super::ended::Ended;
use super::run::{begins_in, filled};
use call_status::Status;
use desk::{Committed, Supervisor};
use job_text::{Job, big_job};
use outside::{Failed, Outside};
use schedule_replay::{LastPrinted, Quiet, run_quiet};
use session::Session;
use std::alloc::Global;
use text_line::TextLine;

/// Runs a load of so many transfers on the disk's store, and prints its one line.
pub fn run_load<W: Outside>(alloc: Global, transfers: u32, outside: &mut W) -> Ended
    requires { transfers ≤ 512 }
    ensures { EndsLoad W.Outside transfers outside.old outside.new result }
{
    match big_job(alloc, transfers) {
        Ok(job) => run_with_order(alloc, transfers, job, outside),
        Err(error) => Ended::without_events(alloc, Status::from(error)),
    }
}

/// The same, with the job of the load. All memory is taken before the first of its events.
fn run_with_order<W: Outside>(alloc: Global, transfers: u32, job: Job, outside: &mut W) -> Ended
    requires load { IsBigJob transfers job }
    requires ready { IsReady job }
    ensures { EndsLoad W.Outside transfers outside.old outside.new result }
{
    let begins = begins_in(&job.events);
    match Vec::with_capacity(alloc, begins as usize) {
        Ok(order) => open_and_run(alloc, transfers, job, begins, order, outside),
        Err(error) => Ended::without_events(alloc, Status::from(error)),
    }
}

/// The same, with room in the order for so many begins.
fn open_and_run<W: Outside>(
    alloc: Global,
    transfers: u32,
    job: Job,
    begins: u32,
    order: Vec<Committed>,
    outside: &mut W,
) -> Ended
    requires load { IsBigJob transfers job }
    requires ready { IsReady job }
    requires begins { begins ≡ begins_in job.events.items }
    requires none { order.items ≡ [] }
    requires room { begins ≤ vec_capacity order }
    ensures { EndsLoad W.Outside transfers outside.old outside.new result }
{
    let mut session = match Session::open(alloc, outside, job.programs, job.frames, begins) {
        Ok(session) => session,
        Err(fault) => return Ended::without_events(alloc, Status::from(fault)),
    };
    let mut last = LastPrinted::new();
    let quiet = run_quiet(&mut session, &job.events, &mut last, outside);
    Ended {
        status: tell(transfers, quiet, last.as_slice(), outside),
        order: filled(order, session.order()),
        session: Some(session),
    }
}

/// Puts the line of a run that ended; nothing of one that closed the desk.
fn tell<W: Outside>(transfers: u32, quiet: Quiet, last: &[u8], outside: &mut W) -> Status
    requires { length last.now ≤ 4096 }
    ensures { IsToldBy W.Outside transfers quiet last.now (call outside.old outside.new [] result) }
{
    match quiet {
        Quiet::Closed => Status::DiskFault,
        Quiet::Ended { commits, rollbacks } => {
            match put_told(transfers, commits, rollbacks, last, outside) {
                Ok(()) => Status::Done,
                Err(Failed) => Status::PutFault,
            }
        }
    }
}

/// Puts the line of a load.
fn put_told<W: Outside>(
    transfers: u32,
    commits: u32,
    rollbacks: u32,
    last: &[u8],
    outside: &mut W,
) -> Result<(), Failed>
    requires { length last.now ≤ 4096 }
    ensures puts { PrintsBytes W.Outside (big_line transfers commits rollbacks last.now) outside.old outside.new result }
    ensures times { PutsTimes W.Outside 1 outside.old outside.new result }
{
    let mut text = TextLine::new();
    fill(&mut text, transfers, commits, rollbacks, last);
    text.end();
    outside.put(text.as_slice())
}

/// The text of the line, without its line feed.
fn fill(text: &mut TextLine, transfers: u32, commits: u32, rollbacks: u32, out: &[u8])
    requires { length out.now ≤ 4096 }
    ensures text { text.new ++ 10 ∷ [] ≡ big_line transfers commits rollbacks out.now }
    ensures room { length text.new ≤ 8300 }
{
    text.begin(b"big");
    text.number(u64::from(transfers));
    text.part(b"commits", u64::from(commits));
    text.part(b"rollbacks", u64::from(rollbacks));
    text.word(b"out");
    match out {
        [] => text.word(b"-"),
        _ => text.hex(out),
    }
}
