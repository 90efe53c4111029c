ghost use Rattle.std.specs.Prelude.{◌≡◌, ◌≤◌, ◌-◌, ◌++◌, replicate, length, IfOk};
ghost use Rattle.lines.specs.Directory.{Layout, byte_count};
ghost use Rattle.flat_machine.specs.After.{start, first_registers, IsStarted};

use super::machine::{Cs, Plain, Program};
use super::printed::Printed;
use lines::{Directory, OwnedList};
use std::alloc::{AllocError, Global};

impl Plain {
    /// A program as it begins on these bytes of the store, with four values in registers 2 to 5. It takes the room for
    /// all that the program will do, 4,096 printed bytes too, or fails for want of memory (docs/MODEL.md).
    pub fn start(
        alloc: Global,
        program: &Program,
        args: [u32; 4],
        directory: &Directory,
        store: &[u8],
    ) -> Result<Plain, AllocError>
        requires { length store.now ≡ byte_count directory.now }
        ensures { IfOk result (IsStarted program.now args store.now) }
    {
        let copied = OwnedList::from_vec(Vec::from_slice(alloc, store)?);
        Plain::start_on(alloc, program, args, copied)
    }

    /// The same on a store that the program is given: it is taken as it is, and not copied. Whoever wants it back finds it in
    /// the state (docs/MODEL.md).
    ///
    /// # Errors
    ///
    /// [`AllocError`] where there is no memory for the rest of the state; the store is let go then.
    pub fn start_on(
        alloc: Global,
        program: &Program,
        args: [u32; 4],
        store: OwnedList<u8>,
    ) -> Result<Plain, AllocError>
        ensures { IfOk result (IsStarted program.now args store) }
    {
        Ok(Plain {
            regs: first_registers(args),
            cs: Cs::CLEAR,
            iar: u32::from(program.entry),
            private: padded(alloc, program.image.as_slice(), 16384)?,
            store,
            out: Printed::new(alloc)?,
        })
    }
}

/// The registers of a program that begins, with four values in registers 2 to 5 (docs/MODEL.md).
pub fn first_registers(args: [u32; 4]) -> [u32; 16]
    ensures { result ≡ first_registers args }
{
    let [a, b, c, d] = args;
    [0, 0, a, b, c, d, 0, 0, 0, 0, 0, 0, 0, 0, 0, 0]
}

/// Bytes and zeros after them, so many in all.
fn padded(alloc: Global, bytes: &[u8], size: usize) -> Result<OwnedList<u8>, AllocError>
    requires { length bytes.now ≤ size }
    ensures value { IfOk result (λ list. list ≡ bytes.now ++ replicate (size - length bytes.now) 0) }
    ensures len { IfOk result (λ list. length list ≡ size) }
{
    let mut list = Vec::from_slice(alloc, bytes)?;
    list.resize(size, 0)?;
    Ok(OwnedList::from_vec(list))
}
