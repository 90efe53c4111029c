// Reading the text of a job to its end (docs/FORMATS.md, "Job").
ghost use Rattle.std.specs.Prelude.{◌≡◌, ◌<◌, ◌^◌, [], ◌∷◌, length, IfOk, MatchOption};
ghost use Rattle.asm_parse.specs.Text.{text_lines};
ghost use Rattle.job_text.specs.Grammar.{job_of, last_part};
ghost use Rattle.job_text.specs.JobAnswers.{IsJobAnswer};
ghost use Rattle.job_text.specs.Reader.{reading_of, IsCut};
ghost use Rattle.job_text.specs.Ready.{IsReady};

use super::job::{Job, JobFault};
use super::reader::{FORM, Reader};
use super::stage::Stage;
use asm_parse::first_line;
use std::alloc::Global;

/// The job that a text is.
///
/// # Errors
///
/// [`JobFault::Fault`] with the first line from the top that has a fault, and its kind; [`JobFault::Memory`] where there
/// is no memory.
pub fn read_job(alloc: Global, text: &[u8]) -> Result<Job, JobFault>
    requires { length text.now < 2 ^ 30 }
    ensures answer { IsJobAnswer result (job_of text.now) }
    ensures ready { IfOk result IsReady }
{
    let mut reader = Reader::new(alloc);
    let mut room = Vec::new(alloc);
    let mut number: u32 = 1;
    let mut left = text;
    while let Some((line, behind)) = next_line(left) {
        match reader.line(alloc, &mut room, number, line) {
            Ok(()) => {}
            Err(fault) => return Err(fault),
        }
        number += 1;
        left = behind;
    }
    finish(reader, number, left)
}

/// The first line, and what comes after its line feed; none where there is no line feed.
fn next_line(left: &[u8]) -> Option<(&[u8], &[u8])>
    ensures { MatchOption result (text_lines left.now ≡ left.now ∷ []) (λ found. IsCut left.now found.0.now found.1.now) }
{
    let (line, rest) = first_line(left);
    match rest {
        Some(behind) => Some((line, behind)),
        None => None,
    }
}

/// The job that was read, at what comes after the last line feed.
fn finish(reader: Reader, number: u32, left: &[u8]) -> Result<Job, JobFault>
    ensures { IsJobAnswer result (last_part (reading_of reader) number left.now) }
{
    if !left.is_empty() || reader.stage != Stage::Ended {
        return Err(JobFault::Fault {
            line: number,
            kind: FORM,
        });
    }
    let Reader {
        stage: _,
        frames,
        names,
        programs,
        sources: _,
        statements: _,
        events,
        begins: _,
    } = reader;
    Ok(Job {
        frames,
        names,
        programs,
        events,
    })
}
