// What an activation has beside its seat.
ghost use Rattle.std.specs.Prelude.{◌≡◌, IfOk};
ghost use Rattle.activations.specs.Activity.{first_live, nothing_over};

use flat_machine::{Cs, Printed, Program, first_registers};
use lines::PageSize;
use page_table::SegmentRegs;
use romp_cpu::Cpu;
use std::alloc::{AllocError, Global};

/// What runs in a seat: its processor, what it reaches through its segment registers, and what it has printed.
#[derive(Drop)]
pub struct Live {
    pub cpu: Cpu,
    pub registers: SegmentRegs,
    pub out: Printed,
}

impl Live {
    /// A seat in which nothing runs yet, over pages of a size, with the room for what will be printed in it.
    ///
    /// # Errors
    ///
    /// There is no memory.
    pub fn new(alloc: Global, page: PageSize) -> Result<Live, AllocError>
        ensures { IfOk result (λ live. live ≡ nothing_over page) }
    {
        Ok(Live {
            cpu: Cpu {
                regs: [0; 16],
                cs: Cs::CLEAR,
                iar: 0,
                printed: 0,
            },
            registers: SegmentRegs::none(page),
            out: Printed::new(alloc)?,
        })
    }

    /// A program begins in the seat with four values in registers 2 to 5, and these windows.
    pub fn start(&mut self, program: &Program, args: [u32; 4], registers: SegmentRegs)
        ensures { self.new ≡ first_live program.now.entry args registers }
    {
        self.cpu = Cpu {
            regs: first_registers(args),
            cs: Cs::CLEAR,
            iar: u32::from(program.entry),
            printed: 0,
        };
        self.registers = registers;
        self.out.clear();
    }
}
