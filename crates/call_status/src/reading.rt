// The job of a source.
ghost use Rattle.std.specs.Prelude.{◌≡◌, ℕ, List, IfErr, IfOk, OnOk, Ok};
ghost use Rattle.job_text.specs.Grammar.{job_of, content_of};
ghost use Rattle.job_text.specs.Ready.{IsReady};
ghost use Rattle.call_status.specs.Call.{given};
ghost use Rattle.call_status.specs.Reading.{ReadsBy};
ghost use Rattle.call_status.specs.SourceText.{IsWholeText};
ghost use Rattle.call_status.specs.Statuses.{IsOfReading, status_of};

use super::source_text::{MOST_OF_JOB, read_text};
use super::status::Status;
use job_text::{Job, read_job};
use outside::Source;
use std::alloc::Global;

/// The job whose text a source has left (docs/FORMATS.md, "Job").
///
/// # Errors
///
/// The status with which a call ends that finds no job there.
pub fn job_from<S: Source>(alloc: Global, source: &mut S) -> Result<Job, Status>
    ensures read { ReadsBy (given S.Source source.old source.new) (status_of result) }
    ensures unfailed { OnOk result (S.faults source.new ≡ S.faults source.old) }
    ensures only { IfErr result IsOfReading }
    ensures means { IfOk result (λ job. (text : List ℕ) × IsWholeText (S.left source.old) (S.left source.new) text × (job_of text ≡ Ok (content_of job))) }
    ensures ready { IfOk result IsReady }
{
    let text = read_text(alloc, source, MOST_OF_JOB)?;
    Ok(read_job(alloc, &text)?)
}
