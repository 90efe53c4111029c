ghost use Rattle.std.specs.Prelude.{◌≡◌};
ghost use Rattle.romp_cpu.specs.Segments.{register_of_window, registers_of_program};

use arrayvec::ArrayVec;
use flat_machine::{Program, Window};
use lines::Directory;
use page_table::{SegmentRegister, SegmentRegs};

/// The segment registers of a program over a store with this directory: a private segment of 16,384 bytes under register
/// 0, and under registers 1 to 15 the windows, each with its segment's bytes. Nothing stands under a register without a
/// window, or whose segment the store lacks (docs/MODEL.md).
pub fn registers_of(program: &Program, directory: &Directory, private: u16) -> SegmentRegs
    ensures { result ≡ registers_of_program program.now directory.now private }
{
    let windows: &[Option<Window>] = &program.windows;
    let mut present: ArrayVec<(u8, u16, u32, bool), 15> = ArrayVec::new();
    for (place, window) in windows.iter().enumerate() {
        if let Some(under) = register_of_window(directory, *window) {
            let register = place as u8 + 1;
            present.push((register, under.segment, under.bytes, under.write));
        }
    }
    SegmentRegs::new(directory.page(), private, &present)
}

/// What stands under the register of a window, if anything does.
fn register_of_window(directory: &Directory, window: Option<Window>) -> Option<SegmentRegister>
    ensures { result ≡ register_of_window directory.now window }
{
    let Window { segment, write } = window?;
    let bytes = directory.length_of(segment)?;
    Some(SegmentRegister {
        segment,
        bytes,
        write,
    })
}
