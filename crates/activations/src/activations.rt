// Who runs, what each has, and the storage that they share.
ghost use Rattle.std.specs.Prelude.{◌≡◌, true, ◌-◌, ◌^◌, ◌≤◌, length, IfOk, ◌<◌};
ghost use Rattle.activations.specs.Below.{absent_segment, has};

use super::live::Live;
use desk::Begun;
use flat_machine::{Program, Window};
use lines::Directory;
use romp_cpu::registers_of;
use seats::Seats;
use std::alloc::{AllocError, Global};
use std::marker::Model;
use storage_unit::{PRIVATE, Unit};
use store_format::Header;

/// Sixteen seats, what runs in each, and the frames, entries and locks that they share. All memory is taken when it is made.
#[derive(Drop)]
pub struct Activations {
    pub(super) programs: Vec<Program>,
    pub(super) most_lines: u32,
    pub(super) next: u32,
    pub(super) seats: Seats,
    pub(super) live: Vec<Live>,
    pub(super) unit: Unit,
}

impl Model for Activations {
    ghost use Rattle.activations.specs.Activity.{Activity};

    ghost Value = { Activity };

    ghost use Rattle.activations.specs.Fields.{activity_of};
    ghost use Rattle.activations.specs.Follows.{IsActivitySound};

    ghost view = { activity_of };

    ghost invariant = { λ a. IsActivitySound (activity_of a) };
}

impl Activations {
    ghost use Rattle.activations.specs.Words.{AlwaysHolds, BeginsSo, HasNobody};

    /// Nobody runs, over a store with this header and so many frames for its pages. Any of these programs may begin. It
    /// takes all the memory that it will need.
    ///
    /// # Errors
    ///
    /// There is no memory.
    pub fn new(
        alloc: Global,
        header: &Header,
        frames: u16,
        programs: Vec<Program>,
    ) -> Result<Activations, AllocError>
        requires some { 2 ≤ frames }
        requires few { frames ≤ 1024 }
        ensures { IfOk result (λ a. HasNobody a programs.items header.now frames) }
    {
        let directory = *header.directory();
        let mut live = Vec::with_capacity(alloc, 16)?;
        for _ in 0..16_u8 {
            live.push(Live::new(alloc, directory.page())?)?;
        }
        Ok(Activations {
            programs,
            most_lines: header.most_lines(),
            next: 1,
            seats: Seats::new(alloc, directory.pages())?,
            live,
            unit: Unit::new(alloc, header, frames)?,
        })
    }

    /// What holds of those that run, and of their frames, at every moment. This call says so, and does nothing.
    #[inline(always)]
    pub fn sound(&self)
        ensures { AlwaysHolds self.now }
    {
        let _ = &self.next;
    }

    /// A taken seat is one of the sixteen. This call says so, and does nothing.
    #[inline(always)]
    pub(super) fn is_seat(&self, seat: u8)
        requires { has self.now.seating.taken seat ≡ true }
        ensures { seat < 16 }
    {
        let _ = &self.next;
    }

    /// A program begins with four values. It takes the next number also where it is refused (docs/MODEL.md, "The desk").
    pub fn begin(&mut self, program: u16, args: [u32; 4]) -> Begun
        requires known { program < length self.old.programs }
        requires room { self.old.next < 2 ^ 32 - 1 }
        ensures { BeginsSo self.old program args result self.new }
    {
        let number = self.next;
        self.next += 1;
        if self.seats.taken().len() == 16 {
            return Begun::Busy(number);
        }
        let code = &self.programs[usize::from(program)];
        let directory = self.unit.directory();
        if let Some(segment) = absent_segment(directory, &code.windows) {
            return Begun::NoSegment(number, segment);
        }
        let Some(seat) = self.seats.sit(number, program, args) else {
            return Begun::Busy(number);
        };
        let registers = registers_of(code, directory, PRIVATE + u16::from(seat));
        self.unit.begin(seat, code.image.as_slice());
        self.live[usize::from(seat)].start(code, args, registers);
        Begun::Started(number)
    }
}

/// The segment of the first window whose segment the directory lacks.
fn absent_segment(directory: &Directory, windows: &[Option<Window>]) -> Option<u16>
    ensures { result ≡ absent_segment directory.now windows.now }
{
    for window in windows {
        if let Some(Window { segment, .. }) = *window {
            if directory.length_of(segment).is_none() {
                return Some(segment);
            }
        }
    }
    None
}
