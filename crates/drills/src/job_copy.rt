// A job once more, for a run of its own.
ghost use Rattle.std.specs.Prelude.{◌≡◌, IfOk};
ghost use Rattle.drills.specs.Below.{IsReady, names_of};

use flat_machine::Program;
use job_text::Job;
use lines::OwnedList;
use std::alloc::{AllocError, Global};

/// The same job, in memory of its own.
///
/// # Errors
///
/// Only where there is no memory.
pub fn copy_of(alloc: Global, job: &Job) -> Result<Job, AllocError>
    requires { IsReady job.now }
    ensures ready { IfOk result IsReady }
    ensures frames { IfOk result (λ copy. copy.frames ≡ job.now.frames) }
    ensures names { IfOk result (λ copy. names_of copy ≡ names_of job.now) }
    ensures programs { IfOk result (λ copy. copy.programs.items ≡ job.now.programs.items) }
    ensures events { IfOk result (λ copy. copy.events.items ≡ job.now.events.items) }
{
    Ok(Job {
        frames: job.frames,
        names: job.names.to_vec(alloc)?,
        programs: programs_of(alloc, &job.programs)?,
        events: job.events.to_vec(alloc)?,
    })
}

/// The same programs.
fn programs_of(alloc: Global, programs: &[Program]) -> Result<Vec<Program>, AllocError>
    ensures { IfOk result (λ copies. copies.items ≡ programs.now) }
{
    let mut copies = Vec::with_capacity(alloc, programs.len())?;
    for program in programs {
        copies.push(program_of(alloc, program)?)?;
    }
    Ok(copies)
}

/// The same program.
fn program_of(alloc: Global, program: &Program) -> Result<Program, AllocError>
    ensures { IfOk result (λ copy. copy ≡ program.now) }
{
    Ok(Program {
        image: OwnedList::from_vec(program.image.as_slice().to_vec(alloc)?),
        entry: program.entry,
        windows: program.windows,
    })
}
