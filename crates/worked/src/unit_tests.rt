//! A page comes in, is loaded and stored, and leaves, as the buffer and the answers have it.
use flat_machine::{Program, Window};
use lines::{Directory, LineSet, OwnedList, PageSize};
use page_table::{Authority, Virtual};
use romp_cpu::{Access, Fault, Probe, Storage, registers_of};
use std::alloc::{AllocError, Global};
use std::convert::Infallible;
use std::process::Abort;
use std::test::Fail;
use storage_unit::{Pages, Unit};
use store_format::Header;

fn directory(rt: &impl Abort, page: PageSize) -> Directory {
    Directory::new(page, &[(1, 4), (2, 2)]).expect(rt, "a directory")
}

/// A program with segment 1 under register 1 to write, and segment 2 under register 2 to read.
fn program(rt: &impl Abort, alloc: Global, image: &[u8]) -> Result<Program, AllocError> {
    assert!(rt; image.len() <= 16384);
    let mut windows = [None; 15];
    windows[0] = Some(Window {
        segment: 1,
        write: true,
    });
    windows[1] = Some(Window {
        segment: 2,
        write: false,
    });
    Ok(Program {
        image: OwnedList::from_vec(Vec::from_slice(alloc, image)?),
        entry: 0,
        windows,
    })
}

/// A unit of two frames, with a program begun in seat 0, which is selected.
fn ready(
    rt: &impl Abort,
    alloc: Global,
    directory: Directory,
    program: &Program,
) -> Result<Unit, AllocError> {
    assert!(rt; program.image.len() <= 16384);
    let mut unit = Unit::new(alloc, &Header::new(directory, 65_536), 2)?;
    unit.begin(0, program.image.as_slice());
    unit.select(0, &registers_of(program, &directory, 3840));
    Ok(unit)
}

/// A store full of zeros.
struct Zeros;

impl Pages<()> for Zeros {
    ghost use Rattle.std.specs.Prelude.{⊤};

    type Failed = Infallible;

    ghost can_read = { λ _ _ _ _. ⊤ };

    ghost read = { λ _ _ _ _ _. ⊤ };

    ghost unread = { λ _ _. ⊤ };

    fn read_page(&self, _: &mut (), _: u16, into: &mut [u8]) -> Result<(), Infallible> {
        into.fill(0);
        Ok(())
    }
}

/// Brings in a page of a store of six, full of zeros, and lets the first seat at some of its lines.
fn bring(rt: &impl Abort, unit: &mut Unit, page: u16, reads: LineSet, writes: LineSet) -> u16 {
    assert!(rt; unit.directory().pages() == 6 && page < 6);
    assert!(rt; unit.pool().frame_of(page).is_none());
    let Ok(()) = unit.bring_in(&Zeros, &mut (), page, None);
    unit.set_authority(page, Authority::grant(1, reads, writes));
    unit.pool().frame_of(page).expect(rt, "it has come in")
}

const fn at(page: u32, byte: u16) -> Virtual {
    Virtual {
        segment: 1,
        page,
        byte,
    }
}

/// Four bytes of the first window.
fn word(offset: u16, store: bool) -> Access {
    Access {
        address: 0x1000_0000 + u32::from(offset),
        bytes: 4,
        store,
    }
}

/// The segment, page and frame of the pairs of class 0, the older first.
fn pairs(unit: &Unit) -> (Option<(u16, u32, u16)>, Option<(u16, u32, u16)>) {
    let pairs = unit.buffer().pairs(0);
    let mut pairs = pairs
        .as_slice()
        .iter()
        .map(|pair| (pair.segment, pair.page, pair.frame));
    (pairs.next(), pairs.next())
}

/// What the first page is asked, at its first and second line and over its end, before it comes in, in a frame, and after
/// it left.
fn asks_the_buffer(rt: &impl Abort, alloc: Global, page: PageSize) -> Result<(), AllocError> {
    let program = program(rt, alloc, &[0x12, 0x34])?;
    let mut unit = ready(rt, alloc, directory(rt, page), &program)?;
    let absent = Probe::Fault(Fault::Page(at(0, 0)));
    assert!(rt; unit.fetch(0) == Some(0x1234));
    assert!(rt; unit.probe(&word(0, false)) == absent);
    assert!(rt; pairs(&unit) == (None, None));
    let first = LineSet::from_bits(1);
    let frame = bring(rt, &mut unit, 0, first, LineSet::none());
    assert!(rt; pairs(&unit) == (Some((1, 0, frame)), None));
    assert!(rt; unit.probe(&word(0, false)) == Probe::Permitted);
    assert!(rt; unit.probe(&word(0, true)) == Probe::Fault(Fault::Lock(at(0, 0))));
    let line = page.line_bytes();
    let refused = Probe::Fault(Fault::Lock(at(0, line)));
    assert!(rt; unit.probe(&word(line - 2, false)) == refused);
    let next = Probe::Fault(Fault::Page(at(1, 0)));
    assert!(rt; unit.probe(&word(page.bytes() - 2, false)) == next);
    assert!(rt; pairs(&unit) == (Some((1, 0, frame)), None));
    assert!(rt; unit.directory().pages() == 6);
    unit.undo(0, LineSet::none());
    assert!(rt; pairs(&unit) == (None, None));
    assert!(rt; unit.probe(&word(0, false)) == absent);
    assert!(rt; pairs(&unit) == (None, None));
    unit.end(0);
    assert!(rt; unit.probe(&word(0, false)) == Probe::Check(2));
    assert!(rt; unit.fetch(0) == Some(0));
    Ok(())
}

#[test]
fn a_probe_asks_the_buffer(rt: HostRuntime) -> Result<(), Fail> {
    asks_the_buffer(&rt, rt.alloc(), PageSize::Two)?;
    asks_the_buffer(&rt, rt.alloc(), PageSize::Four)?;
    Ok(())
}
