// A bundle and its parts.
ghost use Rattle.std.specs.Prelude.{◌≡◌, ◌⊎◌, ◌-◌, ◌≤◌, ◌<◌, ◌^◌, ℕ, length, IfOk, MatchResult};
ghost use Rattle.store_calls.specs.Below.{AreCommitsOf, IsFaultAt, IsFirstBadLine};
ghost use Rattle.store_calls.specs.Bundled.{AreBundleParts, IsBundleShut, bundle_part, StandsForKept};

use super::kept::{KeptFault, kept_store};
use call_status::Status;
use job_text::{Job, read_job};
use report_text::{CommitLine, LinesFault, read_commits};
use serial_audit::{Bundle, KeptStore, Span, split_bundle};
use std::alloc::Global;

/// The numbers of the parts that a status names.
const REPORT: u8 = 2;

const OPENING: u8 = 3;

/// The parts of a bundle that every check of it reads.
#[derive(Drop)]
pub struct Opened {
    pub bundle: Bundle,
    pub job: Job,
    pub report: Vec<CommitLine>,
    pub opening: KeptStore,
}

/// The parts of the bundle that these bytes are (docs/FORMATS.md, "Bundle").
///
/// # Errors
///
/// The status of the first part that is wrong.
pub fn open_bundle(alloc: Global, bytes: &[u8]) -> Result<Opened, Status>
    requires { length bytes.now ≤ 33554432 }
    ensures opened { MatchResult result (λ opened. AreBundleParts bytes.now opened.bundle opened.job opened.report.items opened.opening) (IsBundleShut bytes.now) }
    ensures few { IfOk result (λ opened. length opened.report.items < 2 ^ 32 - 1) }
{
    let bundle = match split_bundle(bytes) {
        Ok(bundle) => bundle,
        Err(part) => return Err(Status::Bundle(part, 0)),
    };
    let job = read_job(alloc, part(bytes, bundle.job))?;
    let report = report_in(alloc, part(bytes, bundle.report))?;
    let opening = store_in(alloc, part(bytes, bundle.opening), OPENING)?;
    Ok(Opened {
        bundle,
        job,
        report,
        opening,
    })
}

/// The bytes of a part.
pub fn part(bytes: &[u8], span: Span) -> &[u8]
    requires first { span.from ≤ span.to }
    requires inside { span.to ≤ length bytes.now }
    ensures { result.now ≡ bundle_part bytes.now span }
{
    &bytes[span.from as usize..span.to as usize]
}

/// The commit lines of a report.
fn report_in(alloc: Global, text: &[u8]) -> Result<Vec<CommitLine>, Status>
    requires { length text.now ≤ 33554432 }
    ensures read { MatchResult result (λ commits. AreCommitsOf text.now commits.items)
        (λ status. ((number : ℕ) × (status ≡ Status.Bundle 2 number) × IsFirstBadLine text.now number) ⊎ (status ≡ Status.NoMemory)) }
    ensures few { IfOk result (λ commits. length commits.items ≤ length text.now) }
{
    match read_commits(alloc, text) {
        Ok(commits) => Ok(commits),
        Err(LinesFault::Bad(number)) => Err(Status::Bundle(REPORT, u64::from(number))),
        Err(LinesFault::Memory) => Err(Status::NoMemory),
    }
}

/// The store that the part with this number is.
pub fn store_in(alloc: Global, bytes: &[u8], number: u8) -> Result<KeptStore, Status>
    ensures { MatchResult result (StandsForKept bytes.now)
        (λ status. ((offset : ℕ) × (status ≡ Status.Bundle number offset) × IsFaultAt bytes.now offset) ⊎ (status ≡ Status.NoMemory)) }
{
    match kept_store(alloc, bytes) {
        Ok(store) => Ok(store),
        Err(KeptFault::At(offset)) => Err(Status::Bundle(number, offset)),
        Err(KeptFault::Memory) => Err(Status::NoMemory),
    }
}
