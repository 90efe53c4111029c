// A job that runs on a disk in memory until the disk stops.
ghost use Rattle.std.specs.Prelude.{◌≡◌, ◌*◌, ◌≤◌, IfOk};
ghost use Rattle.drills.specs.Below.{commits_seen, IsReady, IsStanding};
ghost use Rattle.drills.specs.Drill.{DrillsStop, HasRunCopy, IsTold};

use super::job_copy::copy_of;
use super::stopping_disk::StoppingDisk;
use call_status::Status;
use desk::Committed;
use job_calls::{Ended, try_job};
use job_text::Job;
use outside::{Joint, MemoryScreen, Outside};
use std::alloc::{AllocError, Global};

/// What a job left on a disk that stops at a write.
#[derive(Drop)]
pub struct Stop {
    /// Whether the run came to that write.
    pub reached: bool,
    /// How many commit lines were put whole.
    pub seen: u64,
    /// The commits whose gate write began, in order.
    pub order: Vec<Committed>,
    /// What the disk held at the end, which is one of its crash images.
    pub image: Vec<u8>,
}

/// Runs a job on a disk in memory that holds these bytes and stops at the write with this number, counted from 1. The outcome
/// is what that write leaves at the front of its range (docs/MODEL.md, "A drill").
///
/// # Errors
///
/// Only where there is no memory.
pub fn drill_stop(
    alloc: Global,
    job: &Job,
    image: Vec<u8>,
    write: u32,
    outcome: Vec<u8>,
) -> Result<Stop, AllocError>
    requires ready { IsReady job.now }
    requires write { 1 ≤ write }
    requires stands { IsStanding image.items }
    ensures { DrillsStop job.now image.items write outcome.items result }
{
    let disk = StoppingDisk::new(alloc, image, write, outcome);
    let mut outside = Joint::new(disk, MemoryScreen::new(alloc, Vec::new(alloc)));
    let ended = run_copy(alloc, job, &mut outside)?;
    let (disk, screen) = outside.into_parts();
    told(ended, disk, &screen)
}

/// Runs a job, and keeps it.
fn run_copy<W: Outside>(alloc: Global, job: &Job, outside: &mut W) -> Result<Ended, AllocError>
    requires { IsReady job.now }
    ensures { IfOk result (HasRunCopy W.Outside job.now outside.old outside.new) }
{
    Ok(try_job(alloc, copy_of(alloc, job)?, outside))
}

/// What a run told, over a disk that is to stop and a screen.
fn told(ended: Ended, disk: StoppingDisk, screen: &MemoryScreen) -> Result<Stop, AllocError>
    ensures { IfOk result (IsTold ended disk screen.now) }
{
    if disk.memory().starved() || screen.starved() {
        return Err(AllocError);
    }
    match ended.status {
        Status::Done | Status::DiskFault => Ok(Stop {
            reached: disk.memory().faults() > 0,
            seen: commits_in(screen.printed()),
            order: ended.order,
            image: disk.into_image(),
        }),
        _ => Err(AllocError),
    }
}

/// How many whole commit lines stand in these bytes.
fn commits_in(printed: &[u8]) -> u64
    ensures { result ≡ commits_seen printed.now }
{
    let mut count = 0;
    let mut start = 0;
    for (index, byte) in printed.iter().enumerate() {
        if *byte == b'\n' {
            if printed[start..index].starts_with(b"commit ") {
                count += 1;
            }
            start = index + 1;
        }
    }
    count
}
