// The audit of a finished run.
ghost use Rattle.std.specs.Prelude.{◌≡◌, ◌≤◌, ◌<◌, ℕ, length, MatchResult};
ghost use Rattle.store_calls.specs.New.{EndsAs, PutsIn};
ghost use Rattle.store_calls.specs.Audited.{AuditedBy, AuditsFrom, IsChecked, IsOfAudit, IsUnchecked, verdict_line};

use super::bundle_parts::{open_bundle, part, store_in};
use call_status::{MOST_OF_BUNDLE, Status, read_text};
use outside::{Failed, Outside, Source};
use serial_audit::{Verdict, audit};
use std::alloc::Global;
use text_line::TextLine;

/// The number of the closing store among the parts.
const CLOSING: u8 = 4;

/// What an audit found: how many commit lines the report has, and the verdict on them.
#[derive(Clone, Copy)]
pub struct Audit {
    pub commits: u32,
    pub verdict: Verdict,
}

/// Audits the bundle of a source, and prints its verdict.
pub fn audit_source<S: Source, W: Outside>(alloc: Global, source: &mut S, outside: &mut W) -> Status
    ensures { AuditsFrom S.Source W.Outside source.old source.new outside.old outside.new result }
{
    match read_text(alloc, source, MOST_OF_BUNDLE) {
        Ok(text) => audit_text(alloc, &text, outside),
        Err(fault) => Status::from(fault),
    }
}

/// Audits a bundle, and prints its verdict.
fn audit_text<W: Outside>(alloc: Global, bytes: &[u8], outside: &mut W) -> Status
    requires { length bytes.now ≤ 33554432 }
    ensures audited { AuditedBy W.Outside bytes.now outside.old outside.new result }
    ensures ends { EndsAs W.Outside IsOfAudit outside.old outside.new result }
{
    match checked(alloc, bytes) {
        Ok(found) => match put_verdict(&found, outside) {
            Ok(()) => Status::Done,
            Err(Failed) => Status::PutFault,
        },
        Err(status) => status,
    }
}

/// The verdict on a bundle.
fn checked(alloc: Global, bytes: &[u8]) -> Result<Audit, Status>
    requires { length bytes.now ≤ 33554432 }
    ensures { MatchResult result (λ found. IsChecked bytes.now found.commits found.verdict) (IsUnchecked bytes.now) }
{
    let opened = open_bundle(alloc, bytes)?;
    let closing = store_in(alloc, part(bytes, opened.bundle.closing), CLOSING)?;
    let verdict = audit(
        alloc,
        &opened.job,
        &opened.report,
        &opened.opening,
        &closing,
    )?;
    Ok(Audit {
        commits: opened.report.as_slice().len() as u32,
        verdict,
    })
}

/// Puts the line of a verdict.
fn put_verdict<W: Outside>(found: &Audit, outside: &mut W) -> Result<(), Failed>
    ensures { PutsIn W.Outside (verdict_line found.now.commits found.now.verdict) 1 outside.old outside.new result }
{
    let text = match found.verdict {
        Verdict::Serial => serial_text(found.commits),
        Verdict::NotSerial(place) => unsound_text(place),
    };
    outside.put(text.as_slice())
}

/// The line of a report that is serial.
fn serial_text(commits: u32) -> TextLine
    ensures { result ≡ verdict_line commits Verdict.Serial }
{
    let mut text = TextLine::new();
    text.begin(b"audit yes");
    text.part(b"commits", u64::from(commits));
    text.end();
    text
}

/// The line of a report that isn't, with the first place where it is not.
fn unsound_text(place: u32) -> TextLine
    ensures { (commits : ℕ) → result ≡ verdict_line commits (Verdict.NotSerial place) }
{
    let mut text = TextLine::new();
    text.begin(b"audit");
    text.part(b"no", u64::from(place));
    text.end();
    text
}
