// The lines that one row touches.
ghost use Rattle.std.specs.Prelude.{◌≡◌, ◌≢◌, ◌+◌, ◌≤◌, ◌<◌, ◌^◌, ◌++◌, ℕ, length, IfOk, IfSome, MatchOption, OnOk};
ghost use Rattle.flat_machine.specs.Access.{IsAccess};
ghost use Rattle.flat_machine.specs.Row.{located};
ghost use Rattle.flat_machine.specs.Touched.{lines_at, lines_of_act, touched};
ghost use Rattle.serial_audit.specs.Trace.{lines_if, stretch_lines, touches_of_step, AreLinesAt, AddsTouches};

use flat_machine::{Act, Located, Pending, Plain, Program, locate, start_row};
use lines::Directory;
use std::alloc::AllocError;

/// A line that a step reads, or writes; steps are counted from 1.
#[derive(Clone, Copy)]
pub struct Touch {
    pub step: u64,
    pub line: u32,
    pub store: bool,
}

/// Lines that follow each other, and whether they are written.
#[derive(Clone, Copy)]
pub(super) struct Stretch {
    pub first: u32,
    pub count: u32,
    pub store: bool,
}

impl Stretch {
    /// Tells each of the lines as one that a step touches.
    pub fn tell(self, step: u64, touches: &mut Vec<Touch>) -> Result<(), AllocError>
        requires { self.first + self.count < 2 ^ 32 }
        ensures { OnOk result (AddsTouches step (stretch_lines (Some self)) touches.old touches.new) }
    {
        for line in self.first..self.first + self.count {
            touches.push(Touch {
                step,
                line,
                store: self.store,
            })?;
        }
        Ok(())
    }
}

/// The lines that the next row of a program touches, if it touches some.
pub(super) fn next_lines(program: &Program, directory: &Directory, plain: &Plain) -> Option<Stretch>
    requires { length plain.now.private ≡ 16384 }
    ensures lines { touched program.now directory.now plain.now ≡ stretch_lines result }
    ensures small { IfSome result (λ stretch. stretch.first + stretch.count < 2 ^ 32) }
{
    let mut regs = plain.regs;
    let mut cs = plain.cs.again();
    match start_row(plain, &mut regs, &mut cs, plain.iar) {
        Pending::Does {
            act,
            next: _,
            link: _,
        } => lines_of_act(program, directory, act),
        Pending::Fails(_) => None,
    }
}

/// The lines of what a row does.
fn lines_of_act(program: &Program, directory: &Directory, act: Act) -> Option<Stretch>
    requires { IsAccess act }
    ensures lines { lines_of_act program.now directory.now act ≡ stretch_lines result }
    ensures small { IfSome result (λ stretch. stretch.first + stretch.count < 2 ^ 32) }
{
    match act {
        Act::Load {
            address,
            bytes,
            to: _,
            sign: _,
        } => access(program, directory, address, bytes, false),
        Act::Store {
            address,
            bytes,
            from: _,
        } => access(program, directory, address, bytes, true),
        _ => None,
    }
}

/// The lines of an access to these bytes.
fn access(
    program: &Program,
    directory: &Directory,
    address: u32,
    bytes: u8,
    store: bool,
) -> Option<Stretch>
    requires { 0 < bytes }
    ensures lines { AreLinesAt program.now directory.now address bytes store (stretch_lines result) }
    ensures small { IfSome result (λ stretch. stretch.first + stretch.count < 2 ^ 32) }
{
    let Located::Shared(at) = locate(program, directory, address, bytes, store) else {
        return None;
    };
    let first = directory.line_of(at);
    let last = directory.line_of(at + u32::from(bytes) - 1);
    Some(Stretch {
        first,
        count: last + 1 - first,
        store,
    })
}
