//! The console on a file in memory, which counts the calls on it and may fail one.
ghost use Rattle.std.specs.Prelude.{◌≡◌, []};
ghost use Rattle.console.specs.Words.{IsForm};
ghost use Rattle.console.specs.declared.command_words.Command.{Command};
ghost use Rattle.file_runs.specs.FileWords.{IsOnFile};
ghost use Rattle.real_files.specs.Found.{found_by};

use call_status::Status;
use console::{DiskKind, disk_of};
use file_runs::console_on_file;
use outside::Failed;
use real_files::{FileTrace, RawFile, RawScreen, ReadSource};
use std::alloc::{AllocError, Global};
use std::test::Fail;
use store_calls::try_store;

/// A file in memory, and how many calls it had; the one with the number `fails_at` fails.
#[derive(Drop)]
struct CountedFile {
    held: Vec<u8>,
    calls: u32,
    fails_at: u32,
    found: FileTrace,
    trace: FileTrace,
}

impl CountedFile {
    /// A file that gives these bytes.
    fn new(held: Vec<u8>, fails_at: u32, bytes: &[u8]) -> CountedFile
        ensures first { ⟦<CountedFile as RawFile>⟧.first result ≡ bytes.now }
        ensures deeds { ⟦<CountedFile as RawFile>⟧.deeds result ≡ [] }
    {
        let mut found = FileTrace::new();
        found.note(&[0, 0], bytes);
        CountedFile {
            held,
            calls: 0,
            fails_at,
            found,
            trace: FileTrace::new(),
        }
    }
}

/// Counts a call, and says whether it is the one that fails.
fn fails(calls: &mut u32, fails_at: u32) -> bool {
    *calls = calls.saturating_add(1);
    *calls == fails_at
}

/// Lays bytes over those that are held, and past the end.
fn lay(held: &mut Vec<u8>, at: u64, bytes: &[u8]) -> Result<(), AllocError> {
    let start = at as usize;
    let end = start.saturating_add(bytes.len());
    if held.len() < end {
        held.resize(end, 0)?;
    }
    held[start..end].copy_from_slice(bytes);
    Ok(())
}

impl RawFile for CountedFile {
    ghost first = { λ file. found_by file.found.deeds };

    ghost deeds = { λ file. file.trace.deeds };

    fn write_at(&mut self, at: u64, bytes: &[u8]) -> Result<(), Failed> {
        if fails(&mut self.calls, self.fails_at) || lay(&mut self.held, at, bytes).is_err() {
            self.trace.note(&[1, at], bytes);
            return Err(Failed);
        }
        self.trace.note(&[0, at], bytes);
        Ok(())
    }

    fn sync(&mut self) -> Result<(), Failed> {
        if fails(&mut self.calls, self.fails_at) {
            self.trace.note(&[3, 0], &[]);
            return Err(Failed);
        }
        self.trace.note(&[2, 0], &[]);
        Ok(())
    }
}

/// A screen in memory.
#[derive(Drop)]
struct KeptScreen {
    text: Vec<u8>,
    trace: FileTrace,
}

impl RawScreen for KeptScreen {
    ghost puts = { λ screen. screen.trace.deeds };

    fn put(&mut self, bytes: &[u8], at: u64) -> Result<(), Failed> {
        if self.text.extend_from_slice(bytes).is_err() {
            self.trace.note(&[1, at], &[]);
            return Err(Failed);
        }
        self.trace.note(&[0, at], bytes);
        Ok(())
    }
}

/// A job with one commit, and what it prints.
const ADD: &str =
    "frames 2\nprogram add5\n.window 1, 1, rw\ncau r6, r0, 0x1000\nl r3, 0(r6)\nai r3, r3, 5\nst r3, 0(r6)\nsvc 0\nend\nschedule\nbegin add5\nturn 1 100\nend\n";

const NOTHING: &str = "frames 2\nschedule\nend\n";

/// Words, the input, whether the file is a store at the start, the call that fails, and what it comes to: the status, what is
/// printed, and how many calls the file had.
struct Row {
    words: &'static [&'static str],
    job: &'static str,
    is_store: bool,
    fails_at: u32,
    status: Status,
    printed: &'static str,
    calls: u32,
}

const RUN: [&str; 2] = ["run", "q"];

const NEW: [&str; 5] = ["new", "q", "4096", "1", "2"];

const ROWS: [Row; 5] = [
    Row {
        words: &NEW,
        job: "",
        is_store: false,
        fails_at: 0,
        status: Status::Done,
        printed: "new 12560\n",
        calls: 6,
    },
    Row {
        words: &NEW,
        job: "",
        is_store: false,
        fails_at: 2,
        status: Status::DiskFault,
        printed: "",
        calls: 2,
    },
    Row {
        words: &NEW,
        job: "",
        is_store: true,
        fails_at: 0,
        status: Status::Exists,
        printed: "",
        calls: 0,
    },
    Row {
        words: &RUN,
        job: ADD,
        is_store: true,
        fails_at: 0,
        status: Status::Done,
        printed: "open 0\nbegin 1 add5\nturn 1 ran 5 page 1 lock 2\ncommit 1 number 1 steps 5 out -\nend 1\n",
        calls: 5,
    },
    Row {
        words: &RUN,
        job: ADD,
        is_store: true,
        fails_at: 5,
        status: Status::DiskFault,
        printed: "open 0\nbegin 1 add5\nturn 1 ran 4 page 1 lock 2\ndoubt 1 number 1\nclosed\n",
        calls: 5,
    },
];

/// What a call left: its status, what was printed, and the file.
#[derive(Drop)]
struct Left {
    status: Status,
    printed: Vec<u8>,
    file: CountedFile,
}

/// The console on a file with these bytes, by words that want one; by others none is called.
fn call(alloc: Global, row: &Row, job: &str, held: &[u8]) -> Result<Left, AllocError> {
    let mut words = Vec::new(alloc);
    for word in row.words {
        words.push(String::from_str(alloc, word)?)?;
    }
    match disk_of(&words) {
        DiskKind::Changed | DiskKind::Made => call_on_file(alloc, &words, row.fails_at, job, held),
        _ => Err(AllocError),
    }
}

/// The console on a file with these bytes, whose call of that number fails.
fn call_on_file(
    alloc: Global,
    words: &[String],
    fails_at: u32,
    job: &str,
    held: &[u8],
) -> Result<Left, AllocError>
    requires { (form : Command) → IsForm form words.now → IsOnFile form }
{
    let mut source = ReadSource::new(Vec::from_slice(alloc, job.as_bytes())?, false);
    let file = CountedFile::new(Vec::from_slice(alloc, held)?, fails_at, held);
    let bytes = Vec::from_slice(alloc, held)?;
    let screen = KeptScreen {
        text: Vec::new(alloc),
        trace: FileTrace::new(),
    };
    let (ended, file, screen, _) = console_on_file(alloc, words, &mut source, file, bytes, screen);
    Ok(Left {
        status: ended.status,
        printed: screen.text,
        file,
    })
}

#[test]
fn a_file_is_asked_nothing_behind_a_call_that_failed(rt: HostRuntime) -> Result<(), Fail> {
    let alloc = rt.alloc();
    let store = try_store(alloc)?;
    for row in &ROWS {
        let held = if row.is_store { store.as_slice() } else { &[] };
        let left = call(alloc, row, row.job, held)?;
        assert_eq!(rt; left.status, row.status, "{}", row.printed);
        assert!(rt;
            left.printed.as_slice() == row.printed.as_bytes(),
            "{}",
            row.printed
        );
        assert_eq!(rt; left.file.calls, row.calls, "{}", row.printed);
    }
    Ok(())
}

#[test]
fn a_commit_on_a_file_is_found_again(rt: HostRuntime) -> Result<(), Fail> {
    let alloc = rt.alloc();
    let store = try_store(alloc)?;
    let left = call(alloc, &ROWS[3], ADD, store.as_slice())?;
    let again = call(alloc, &ROWS[3], NOTHING, left.file.held.as_slice())?;
    assert!(rt; again.printed.as_slice() == b"open 1\nend 1\n".as_slice());
    Ok(())
}
