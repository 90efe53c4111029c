ghost use Rattle.std.specs.Prelude.{◌≡◌, ◌+◌, ◌-◌, ◌<◌, ◌≤◌, ◌^◌, ◌↔◌, IsTrue, List, [], length, IfOk, IfSome, MatchOption, MatchResult};
ghost use Rattle.serial_audit.specs.Below.{Activation, byte_count, Job};
ghost use Rattle.serial_audit.specs.declared.auditing.KeptStore.{KeptStore};
ghost use Rattle.serial_audit.specs.Audit.{AreSound, IsFirstUnsound, IsVerdict, ToldLine, report_told, line_claim};
ghost use Rattle.serial_audit.specs.Progress.{IsAllowanceOf, activation_in, IsTaken, MayFollow, Stands, HaveSameSegments, IsEntryFor, IsAt, ChecksLine, IfFound, IsProgress, IsWithin};

use super::index::{Allowance, index_of, mark, place_among};
use super::run_again::replayed;
use job_text::Job;
use lines::{Directory, OwnedList};
use report_text::CommitLine;
use std::alloc::{AllocError, Global};

/// A store as it is kept: its segments, its number and its bytes.
#[derive(Drop)]
pub struct KeptStore {
    pub directory: Directory,
    pub number: u64,
    pub store: Vec<u8>,
}

/// The answer of an audit.
#[derive(Clone, Copy)]
pub enum Verdict {
    /// The report is serial.
    Serial,
    /// The first commit line that isn't sound, counted from 1; or the number of commit lines and one more, where all are
    /// sound and the closing store isn't the one that they leave.
    NotSerial(u32),
}

/// Whether a report is serial between two stores (docs/MODEL.md, "An audit").
///
/// Each committed program runs once from its start, on the store that those before it left, of which there is one copy.
///
/// # Errors
///
/// [`AllocError`] where there is no memory.
pub fn audit(
    alloc: Global,
    job: &Job,
    report: &[CommitLine],
    opening: &KeptStore,
    closing: &KeptStore,
) -> Result<Verdict, AllocError>
    requires store { length opening.now.store.items ≡ byte_count opening.now.directory }
    requires few { length report.now < 2 ^ 32 - 1 }
    ensures { IfOk result (IsVerdict job.now opening.now closing.now (report_told report.now)) }
{
    match audit_lines(alloc, job, report, opening)? {
        Err(place) => Ok(Verdict::NotSerial(place)),
        Ok(progress) => {
            if progress.is_at(&opening.directory, closing) {
                Ok(Verdict::Serial)
            } else {
                Ok(Verdict::NotSerial(progress.next_place()))
            }
        }
    }
}

/// How far a check comes on an opening store where all these commit lines are sound, or else the number of the first
/// that isn't, counted from 1 (docs/MODEL.md, "An audit").
///
/// # Errors
///
/// [`AllocError`] where there is no memory.
pub fn audit_lines<'j>(
    alloc: Global,
    job: &'j Job,
    lines: &[CommitLine],
    opening: &KeptStore,
) -> Result<Result<Progress<'j>, u32>, AllocError>
    requires store { length opening.now.store.items ≡ byte_count opening.now.directory }
    requires few { length lines.now < 2 ^ 32 - 1 }
    ensures sound { IfOk result (IsProgress job.now opening.now (report_told lines.now)) }
    ensures bounds { IfOk result (λ found. IfOk found (IsWithin opening.now.directory (length lines.now))) }
{
    let mut progress = Progress::new(alloc, job, opening)?;
    for commit in lines {
        let place = progress.next_place();
        match progress.take(alloc, &opening.directory, commit)? {
            Some(next) => progress = next,
            None => return Ok(Err(place)),
        }
    }
    Ok(Ok(progress))
}

/// How far a check has come: the last number and how many commit lines there were, what the job says of each activation and
/// which of them have committed, and the bytes of the store that the commits leave (docs/MODEL.md, "An audit").
#[derive(Drop)]
pub struct Progress<'j> {
    pub number: u64,
    pub commits: u32,
    pub entries: Vec<Allowance<'j>>,
    pub store: OwnedList<u8>,
}

impl<'j> Progress<'j> {
    /// Before the first commit line, on a copy of an opening store.
    fn new(alloc: Global, job: &'j Job, opening: &KeptStore) -> Result<Self, AllocError>
        ensures stands { IfOk result (λ progress. Stands job.now opening.now [] progress) }
        ensures none { IfOk result (λ progress. progress.commits ≡ 0) }
        ensures same { IfOk result (λ progress. length progress.store ≡ length opening.now.store.items) }
    {
        let number = opening.number;
        Ok(Progress {
            number,
            commits: 0,
            entries: index_of(alloc, job)?,
            store: OwnedList::from_vec(Vec::from_slice(alloc, opening.store.as_slice())?),
        })
    }

    /// After one commit line more, if it is sound. Its program runs on the store itself, so where it isn't sound there is no
    /// way back to where the check stood.
    fn take(
        self,
        alloc: Global,
        directory: &Directory,
        commit: &CommitLine,
    ) -> Result<Option<Self>, AllocError>
        requires whole { length self.store ≡ byte_count directory.now }
        requires few { self.commits < 2 ^ 32 - 1 }
        ensures taken { IfOk result (ChecksLine directory.now self.entry (line_claim commit.now)) }
        ensures one { IfFound result (λ progress. progress.commits ≡ self.entry.commits + 1) }
        ensures whole { IfFound result (λ progress. length progress.store ≡ byte_count directory.now) }
    {
        let entry = match self.entry_for(commit) {
            Some(entry) => entry,
            None => return Ok(None),
        };
        let Progress {
            number: _,
            commits,
            mut entries,
            store,
        } = self;
        match replayed(alloc, commit, entry.program, entry.args, directory, store)? {
            Some(store) => {
                mark(&mut entries, commit.activation);
                Ok(Some(Progress {
                    number: commit.number,
                    commits: commits + 1,
                    entries,
                    store,
                }))
            }
            None => Ok(None),
        }
    }

    /// The entry of a commit line's activation, if the line may be the next one: it has the number that follows, is the first of
    /// its activation, and tells no more steps than the activation's turns allow; none too where the job begins no such
    /// activation (docs/MODEL.md, "An audit").
    pub fn entry_for(&self, commit: &CommitLine) -> Option<Allowance<'j>>
        ensures { IsEntryFor self.now commit.now result }
    {
        let place = match place_among(self.entries.len(), commit.activation) {
            Some(place) => place,
            None => return None,
        };
        let entry = self.entries[place];
        if commit.number == self.number.wrapping_add(1)
            && !entry.committed
            && commit.steps <= entry.steps
        {
            Some(entry)
        } else {
            None
        }
    }

    /// The number of the next commit line, counted from 1 (docs/MODEL.md, "An audit").
    pub fn next_place(&self) -> u32
        requires { self.now.commits < 2 ^ 32 - 1 }
        ensures { result ≡ self.now.commits + 1 }
    {
        self.commits + 1
    }

    /// Whether a store is the one that the commits so far leave, under their number.
    fn is_at(&self, directory: &Directory, closing: &KeptStore) -> bool
        ensures { IsTrue result ↔ IsAt directory.now self.now closing.now }
    {
        is_same(&closing.directory, directory)
            && closing.number == self.number
            && closing.store.as_slice() == self.store.as_slice()
    }
}

/// Whether two directories are the same.
fn is_same(one: &Directory, other: &Directory) -> bool
    ensures { IsTrue result ↔ (one.now ≡ other.now) }
{
    are_alike(one, other) && one.fine() == other.fine()
}

/// Whether two directories have the same pages and segments, with whatever flags.
fn are_alike(one: &Directory, other: &Directory) -> bool
    ensures { IsTrue result ↔ HaveSameSegments one.now other.now }
{
    one.page() == other.page() && one.segments() == other.segments()
}
