// How a call ends.
ghost use Rattle.std.specs.Prelude.{◌≡◌, ◌+◌, ◌≤◌, ◌++◌, length, decimal};
ghost use Rattle.call_status.specs.declared.status.Status.TheVariants.{NoMemory};
ghost use Rattle.call_status.specs.Statuses.{status_of_job, status_of_text, status_of_open, status_number, error_text};

use super::source_text::TextFault;
use arrayvec::ArrayString;
use itoa::Buffer;
use job_text::JobFault;
use std::alloc::AllocError;
use store::OpenFault;

/// How a call ended (docs/FORMATS.md, "Statuses").
#[derive(Debug, Clone, Copy, PartialEq, Eq)]
pub enum Status {
    /// The command went to its end.
    Done,
    /// The words are none of the command's forms.
    Usage,
    /// The store's bytes don't stand, at this offset.
    Store(u64),
    /// The job's text is no job, at this line and for a reason of this kind.
    Job(u32, u8),
    /// The source failed.
    SourceFault,
    /// The disk failed.
    DiskFault,
    /// The screen failed.
    PutFault,
    /// There is no memory.
    NoMemory,
    /// The source gave more than 1,048,576 bytes, 4,194,304 of a store, or 33,554,432 of a bundle.
    TooBig,
    /// There is a store already.
    Exists,
    /// The range isn't in the store.
    NoRange,
    /// The bundle is none: the part with this number is wrong, at this place.
    Bundle(u8, u64),
    /// The records that are asked for aren't kept: the bank's base and the store's number, or the first and the last number of a
    /// ship text.
    NotKept(u64, u64),
    /// The ship text can't be followed: at this line it is none, its store is another one, or the record with this number is too
    /// long, by the kind (docs/FORMATS.md, "Statuses").
    Stream(u64, u8),
    /// No commit line is the activation's.
    NoCommit,
    /// The commit line with this number isn't sound.
    NotSerial(u64),
}

impl Status {
    /// The number with which the program ends (docs/FORMATS.md, "Statuses").
    pub fn number(&self) -> u8
        ensures value { result ≡ status_number self.now }
    {
        match self {
            Status::Done => 0,
            Status::Usage => 1,
            Status::Store(_) => 2,
            Status::Job(..) => 3,
            Status::SourceFault => 4,
            Status::DiskFault => 5,
            Status::PutFault => 6,
            Status::NoMemory => 7,
            Status::TooBig => 8,
            Status::Exists => 9,
            Status::NoRange => 10,
            Status::Bundle(..) => 11,
            Status::NotKept(..) => 12,
            Status::Stream(..) => 13,
            Status::NoCommit => 14,
            Status::NotSerial(_) => 15,
        }
    }
}

/// The text of a status, which the program prints on standard error (docs/FORMATS.md, "Statuses").
pub fn status_text(status: &Status) -> ArrayString<64>
    ensures text { result.bytes ≡ error_text status.now }
{
    let mut text = ArrayString::new();
    match status {
        Status::Done => {}
        Status::Usage => push(&mut text, "usage"),
        Status::Store(offset) => push_with(&mut text, "store ", *offset),
        Status::Job(line, kind) => {
            push_with(&mut text, "job ", u64::from(*line));
            push_with(&mut text, " ", u64::from(*kind));
        }
        Status::SourceFault => push(&mut text, "source"),
        Status::DiskFault => push(&mut text, "disk"),
        Status::PutFault => push(&mut text, "screen"),
        Status::NoMemory => push(&mut text, "memory"),
        Status::TooBig => push(&mut text, "big"),
        Status::Exists => push(&mut text, "exists"),
        Status::NoRange => push(&mut text, "range"),
        Status::Bundle(part, at) => {
            push_with(&mut text, "bundle ", u64::from(*part));
            push_with(&mut text, " ", *at);
        }
        Status::NotKept(base, number) => {
            push_with(&mut text, "kept ", *base);
            push_with(&mut text, " ", *number);
        }
        Status::Stream(place, kind) => {
            push_with(&mut text, "stream ", *place);
            push_with(&mut text, " ", u64::from(*kind));
        }
        Status::NoCommit => push(&mut text, "commit"),
        Status::NotSerial(place) => push_with(&mut text, "serial ", *place),
    }
    text
}

/// Adds a word, for which there is room.
fn push(text: &mut ArrayString<64>, word: &str)
    requires fits { length text.old.bytes + length word.now ≤ 64 }
    ensures bytes { text.new.bytes ≡ text.old.bytes ++ word.now }
{
    let _ = text.try_push_str(word);
}

/// Adds a word and a number, for which there is room.
fn push_with(text: &mut ArrayString<64>, word: &str, number: u64)
    requires fits { length text.old.bytes + length word.now + 20 ≤ 64 }
    ensures bytes { text.new.bytes ≡ text.old.bytes ++ (word.now ++ decimal number) }
    ensures few { length text.new.bytes ≤ length text.old.bytes + length word.now + 20 }
{
    push(text, word);
    push(text, Buffer::new().format(number));
}

impl From<AllocError> for Status {
    ghost from_gives = { λ _ status. status ≡ NoMemory };

    fn from(_error: AllocError) -> Self {
        Status::NoMemory
    }
}

impl From<JobFault> for Status {
    ghost from_gives = { λ fault status. status ≡ status_of_job fault };

    fn from(fault: JobFault) -> Self {
        match fault {
            JobFault::Fault { line, kind } => Status::Job(line, kind),
            JobFault::Memory => Status::NoMemory,
        }
    }
}

impl From<TextFault> for Status {
    ghost from_gives = { λ fault status. status ≡ status_of_text fault };

    fn from(fault: TextFault) -> Self {
        match fault {
            TextFault::Source => Status::SourceFault,
            TextFault::TooBig => Status::TooBig,
            TextFault::Memory => Status::NoMemory,
        }
    }
}

impl From<OpenFault> for Status {
    ghost from_gives = { λ fault status. status ≡ status_of_open fault };

    fn from(fault: OpenFault) -> Self {
        match fault {
            OpenFault::NotAStore(offset) | OpenFault::Damaged(offset) => Status::Store(offset),
            OpenFault::DiskFault => Status::DiskFault,
            OpenFault::Memory => Status::NoMemory,
        }
    }
}
