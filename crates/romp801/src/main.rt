//! The program: it makes the real parts, calls the console once, and ends with the status's number.
#![tactic(auto)]

ghost use Rattle.std.specs.Prelude.{◌≡◌, ◌++◌, ◌⊎◌, [], ◌∷◌, ℕ, take, IfErr, IfOk, OnOk, OnErr};
ghost use Rattle.std.specs.Process.{exit_status};
ghost use Rattle.console.specs.Words.{IsForm};
ghost use Rattle.console.specs.Wants.{source_for};
ghost use Rattle.console.specs.declared.command_words.Command.{Command};
ghost use Rattle.call_status.specs.Statuses.{status_number, error_text};
ghost use Rattle.call_status.specs.declared.status.Status.TheVariants.{NoMemory, Usage};
ghost use Rattle.real_files.specs.Deeds as deed;
ghost use Rattle.real_files.specs.Found.{IsReadFrom};
ghost use Rattle.std.specs.declared.io.ErrorKind.TheVariants.{OutOfMemory};
ghost use Rattle.real_files.specs.Shown.{printed_of};

use console::{DiskKind, Ended, Status, disk_of, path_of, reads_source, status_text};
use file_runs::run_words;
use outside::Failed;
use real_files::{RawScreen, ReadSource, StdOpener, StdOut, may_spoil};
use std::alloc::{AllocError, Global};
use std::env;
use std::io::{ErrorKind, Read};
use std::process::ExitCode;

fn main(rt: HostRuntime) -> ExitCode {
    let status = match words_of(&rt) {
        Ok(words) => {
            let status = status_of(&rt, &words);
            if status != Status::Done && may_tell(&rt, &words) {
                let _ = tell(&status, &mut StdOut::new(rt.stderr()));
            }
            status
        }
        Err(status) => {
            let _ = tell(&status, &mut StdOut::new(rt.stderr()));
            status
        }
    };
    code_of(&status)
}

/// Whether a status may be told: not where its text may go into the file that the words name.
fn may_tell(rt: &HostRuntime, words: &[String]) -> bool {
    match disk_of(words) {
        DiskKind::Looked | DiskKind::Changed | DiskKind::Made => !may_spoil(rt, path_of(words)),
        DiskKind::OfTry | DiskKind::Empty => true,
    }
}

/// Tells a status: its text and a line feed are handed to the screen, or a first part of them where a put fails.
fn tell<R: RawScreen>(status: &Status, screen: &mut R) -> Result<(), Failed>
    ensures done { OnOk result (R.puts screen.new ≡ R.puts screen.old ++ deed.Wrote 0 (error_text status.now) ∷ deed.Wrote 0 (10 ∷ []) ∷ []) }
    ensures failed { OnErr result ((count : ℕ) × (printed_of (R.puts screen.new) ≡ printed_of (R.puts screen.old) ++ take count (error_text status.now ++ 10 ∷ []))) }
{
    screen.put(status_text(status).as_str().as_bytes(), 0)?;
    screen.put(b"\n", 0)
}

/// How a call with this status ends the program: with its number.
fn code_of(status: &Status) -> ExitCode
    ensures { exit_status result ≡ status_number status.now }
{
    ExitCode::from(status.number())
}

/// What these words end with.
fn status_of(rt: &HostRuntime, words: &[String]) -> Status {
    match run(rt, words) {
        Ok(ended) => ended.status,
        Err(_) => Status::NoMemory,
    }
}

/// The console on the real source, files and screen.
fn run(rt: &HostRuntime, words: &[String]) -> Result<Ended, AllocError> {
    // The source comes first: until it is read, another may have the file.
    let mut job = source_of(rt.alloc(), rt.stdin(), words)?;
    let mut files = StdOpener::new(rt.clone()?);
    let screen = StdOut::new(rt.clone()?);
    let (ended, _, _) = run_words(rt.alloc(), words, &mut job, &mut files, screen)?;
    Ok(ended)
}

/// An input as far as the words read it, and no further: it is read first.
fn source_of<I: Read + Drop>(
    alloc: Global,
    input: I,
    words: &[String],
) -> Result<ReadSource, AllocError>
    ensures { IfOk result (λ source. (form : Command) → IsForm form words.now → IsReadFrom (source_for form) (I.remaining input) source.bytes.items source.is_cut) }
{
    ReadSource::read(alloc, input, reads_source(words))
}

/// The words of the command line, without the program's name: no command line where one is not UTF-8.
fn words_of(rt: &HostRuntime) -> Result<Vec<String>, Status>
    ensures { IfErr result (λ why. (why ≡ Usage) ⊎ (why ≡ NoMemory)) }
{
    let args = env::args(rt).map_err(|error| without_words(error.kind()))?;
    let mut words = Vec::new(rt.alloc());
    for word in args.skip(1) {
        if words.push(word).is_err() {
            return Err(Status::NoMemory);
        }
    }
    Ok(words)
}

/// What the program ends with where it has no words, for this reason.
fn without_words(why: ErrorKind) -> Status
    ensures memory { why ≡ OutOfMemory → result ≡ NoMemory }
    ensures other { (¬ (why ≡ OutOfMemory)) → result ≡ Usage }
{
    match why {
        ErrorKind::OutOfMemory => Status::NoMemory,
        _ => Status::Usage,
    }
}
