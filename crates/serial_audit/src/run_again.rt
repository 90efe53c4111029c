// One committed program run again.
ghost use Rattle.std.specs.Prelude.{◌≡◌, ◌≢◌, ℕ, List, length, IfOk, IfSome, MatchOption};
ghost use Rattle.serial_audit.specs.Below.{before_commit, byte_count};
ghost use Rattle.serial_audit.specs.Audit.{line_claim};
ghost use Rattle.serial_audit.specs.Progress.{ReplaysLine, IsLeftBy, ComesToCommit, IfFound, RunsAgain};

use flat_machine::{Plain, Program, Went};
use lines::{Directory, OwnedList};
use report_text::CommitLine;
use std::alloc::{AllocError, Global};

/// What a program with these arguments leaves when it runs again on a store as a commit line tells; none where it doesn't.
pub(crate) fn replayed(
    alloc: Global,
    commit: &CommitLine,
    program: &Program,
    args: [u32; 4],
    directory: &Directory,
    store: OwnedList<u8>,
) -> Result<Option<OwnedList<u8>>, AllocError>
    requires { length store ≡ byte_count directory.now }
    ensures value { IfOk result (RunsAgain program.now args directory.now store (line_claim commit.now)) }
    ensures whole { IfFound result (λ bytes. length bytes ≡ byte_count directory.now) }
{
    match run_to_commit(alloc, program, args, directory, store, commit.steps)? {
        Some(state) => Ok(left_by(state, commit.out.as_slice())),
        None => Ok(None),
    }
}

/// The store of a state that printed just these bytes.
fn left_by(state: Plain, out: &[u8]) -> Option<OwnedList<u8>>
    ensures { IsLeftBy state out.now result }
{
    let Plain {
        regs: _,
        cs: _,
        iar: _,
        private: _,
        store,
        out: printed,
    } = state;
    if printed.as_slice() == out {
        Some(store)
    } else {
        None
    }
}

/// A program as it comes to the commit call as its step with this number; none where it doesn't.
fn run_to_commit(
    alloc: Global,
    program: &Program,
    args: [u32; 4],
    directory: &Directory,
    store: OwnedList<u8>,
    steps: u64,
) -> Result<Option<Plain>, AllocError>
    requires { length store ≡ byte_count directory.now }
    ensures value { IfOk result (ComesToCommit program.now args steps directory.now store) }
    ensures whole { IfFound result (λ state. length state.store ≡ byte_count directory.now) }
{
    if steps == 0 {
        return Ok(None);
    }
    let mut plain = Plain::start_on(alloc, program, args, store)?;
    for _row in 1..steps {
        match plain.step(program, directory) {
            Went::On => {}
            _ => return Ok(None),
        }
    }
    match plain.step(program, directory) {
        Went::Commit => Ok(Some(plain)),
        _ => Ok(None),
    }
}
