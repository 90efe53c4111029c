// One program run again, with the lines that it touches.
ghost use Rattle.std.specs.Prelude.{◌≡◌, ◌++◌, length, IfOk, MatchOption, OnOk};
ghost use Rattle.serial_audit.specs.Below.{before_commit, byte_count};
ghost use Rattle.flat_machine.specs.Touched.{touched};
ghost use Rattle.serial_audit.specs.Trace.{touches, touches_of_step, IsTracedRun, AddsNextTouches};

use super::touch::{Touch, next_lines};
use flat_machine::{Plain, Program, Went};
use lines::{Directory, OwnedList};
use std::alloc::{AllocError, Global};

/// A program as it comes to the commit call as its step with this number, with the touches of its steps; none where it
/// doesn't.
pub(super) fn run_traced(
    alloc: Global,
    program: &Program,
    args: [u32; 4],
    directory: &Directory,
    store: OwnedList<u8>,
    steps: u64,
) -> Result<Option<(Plain, Vec<Touch>)>, AllocError>
    requires { length store ≡ byte_count directory.now }
    ensures { IfOk result (IsTracedRun program.now args steps directory.now store) }
{
    if steps == 0 {
        return Ok(None);
    }
    let mut plain = Plain::start_on(alloc, program, args, store)?;
    let mut touches = Vec::new(alloc);
    for step in 1..steps {
        tell_next(program, directory, &plain, step, &mut touches)?;
        match plain.step(program, directory) {
            Went::On => {}
            _ => return Ok(None),
        }
    }
    tell_next(program, directory, &plain, steps, &mut touches)?;
    match plain.step(program, directory) {
        Went::Commit => Ok(Some((plain, touches))),
        _ => Ok(None),
    }
}

/// Tells the lines that the next row of a program touches, as those of a step.
fn tell_next(
    program: &Program,
    directory: &Directory,
    plain: &Plain,
    step: u64,
    touches: &mut Vec<Touch>,
) -> Result<(), AllocError>
    requires { length plain.now.private ≡ 16384 }
    ensures { OnOk result (AddsNextTouches program.now directory.now plain.now step touches.old touches.new) }
{
    match next_lines(program, directory, plain) {
        Some(stretch) => stretch.tell(step, touches),
        None => Ok(()),
    }
}
