// The listing of a job's programs.
ghost use Rattle.std.specs.Prelude.{◌≡◌, length};
ghost use Rattle.console.specs.Below.{content_of, PrintsBytes, PutsTimes};
ghost use Rattle.console.specs.Listed.{ListsFrom, listings_of, lines_listed};

use call_status::{Status, job_from};
use job_text::Job;
use listing::put_program;
use outside::{Failed, Outside, Source};
use std::alloc::Global;

/// Lists the programs of a source's job, in its order.
pub fn list_source<S: Source, W: Outside>(alloc: Global, source: &mut S, outside: &mut W) -> Status
    ensures { ListsFrom S.Source W.Outside source.old source.new outside.old outside.new result }
{
    match job_from(alloc, source) {
        Err(status) => status,
        Ok(job) => match put_programs(&job, outside) {
            Ok(()) => Status::Done,
            Err(Failed) => Status::PutFault,
        },
    }
}

/// Puts the listings of a job's programs, one after another.
fn put_programs<W: Outside>(job: &Job, outside: &mut W) -> Result<(), Failed>
    requires { length job.now.names.items ≡ length job.now.programs.items }
    ensures puts { PrintsBytes W.Outside (listings_of (content_of job.now)) outside.old outside.new result }
    ensures times { PutsTimes W.Outside (lines_listed (content_of job.now)) outside.old outside.new result }
{
    for (index, program) in job.programs.iter().enumerate() {
        put_program(job.names[index].as_slice(), program, outside)?;
    }
    Ok(())
}
