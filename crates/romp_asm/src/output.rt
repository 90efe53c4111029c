ghost use Rattle.std.specs.Prelude.{◌≡◌, ◌≤◌, ◌<◌, ◌+◌, ◌%◌, ◌++◌, true, length, replicate, slice_get, unwrap_or, None, [], OnOk, MatchResult};
ghost use Rattle.asm_parse.specs.Answers.{IsFaultOf};
ghost use Rattle.romp_asm.specs.Value.{value_of};
ghost use Rattle.romp_asm.specs.Labels.{addresses_in};
ghost use Rattle.romp_asm.specs.Layout.{entry_by, is_entry, is_free, parts_of, piece_of, takes_window, entry_after, with_window};
ghost use Rattle.romp_asm.specs.Piece.{piece_bytes};

use super::encoding::{Piece, piece_of};
use super::field::{DUPLICATE, IMAGE_TOO_LONG, WINDOW, even_at_most};
use super::size::size_of;
use super::value::{Scope, value_of};
use asm_parse::{Body, Expr, LineFault};
use flat_machine::{Program, Window};
use lines::OwnedList;
use std::alloc::{AllocError, Global};

/// The most bytes of an image.
const MOST_IMAGE: u64 = 16_384;

/// What statements have made so far.
#[derive(Drop)]
pub(crate) struct Output {
    pub image: Vec<u8>,
    pub entry: Option<u16>,
    /// The windows under registers 1 to 15.
    pub windows: [Option<Window>; 15],
    ghost image_fits: { length image.items ≤ 16384 },
    ghost entry_fits: { unwrap_or entry 0 < 16384 },
    ghost entry_is_even: { unwrap_or entry 0 % 2 ≡ 0 },
}

impl Output {
    ghost use Rattle.romp_asm.specs.Laid.{AddsOne, IsNothingLaid, IsNoted, IsProgramOf};

    /// Nothing yet.
    pub fn new(alloc: Global) -> Self
        ensures { IsNothingLaid result }
    {
        Output {
            image: Vec::new(alloc),
            entry: None,
            windows: [None; 15],
        }
    }

    /// Lays a statement after the others. `repeated` says whether its label stood before.
    pub fn add<'a>(
        &mut self,
        scope: &Scope<'_, '_, 'a>,
        repeated: bool,
        body: &'a Body,
    ) -> Result<(), LineFault>
        ensures { AddsOne scope.now repeated body.now self.old self.new result }
    {
        if repeated || (is_entry(body) && self.entry.is_some()) {
            return Err(LineFault::Kind(DUPLICATE));
        }
        let piece = match piece_of(scope, self.image.len() as u32, body) {
            Ok(piece) => piece,
            Err(kind) => return Err(LineFault::Kind(kind)),
        };
        if self.image.len() as u64 + u64::from(size_of(body)) > MOST_IMAGE {
            return Err(LineFault::Kind(IMAGE_TOO_LONG));
        }
        if !takes_window(&self.windows, body) {
            return Err(LineFault::Kind(WINDOW));
        }
        lay(&mut self.image, piece)?;
        self.note(scope, body);
        Ok(())
    }

    /// Notes an entry address or a window.
    fn note<'a>(&mut self, scope: &Scope<'_, '_, 'a>, body: &'a Body)
        requires { takes_window self.old.windows body.now ≡ true }
        ensures { IsNoted scope.now body.now self.old self.new }
    {
        match body {
            Body::Entry(value) => self.entry = entry_in(scope, value),
            Body::Window(register, segment, write) => {
                self.windows[*register as usize - 1] = Some(Window {
                    segment: *segment as u16,
                    write: *write,
                });
            }
            _ => {}
        }
    }

    /// The program.
    pub fn finish(self) -> Program
        ensures { IsProgramOf self result }
    {
        let Output {
            image,
            entry,
            windows,
        } = self;
        Program {
            image: OwnedList::from_vec(image),
            entry: entry.unwrap_or(0),
            windows,
        }
    }
}

/// Appends the bytes of a piece.
fn lay(image: &mut Vec<u8>, piece: Piece) -> Result<(), AllocError>
    ensures value { OnOk result (image.new.items ≡ image.old.items ++ piece_bytes piece) }
    ensures short { length image.new.items ≤ length image.old.items + length (piece_bytes piece) }
{
    match piece {
        Piece::Bytes(bytes) => image.extend_from_slice(bytes.as_slice()),
        Piece::Zeros(count) => lay_zeros(image, count),
    }
}

/// Appends zeros.
fn lay_zeros(image: &mut Vec<u8>, count: u32) -> Result<(), AllocError>
    ensures value { OnOk result (image.new.items ≡ image.old.items ++ replicate count 0) }
    ensures short { length image.new.items ≤ length image.old.items + count }
{
    for _laid in 0..count {
        image.push(0)?;
    }
    Ok(())
}

/// Whether a statement is `.entry`.
fn is_entry(body: &Body) -> bool
    ensures { result ≡ is_entry body.now }
{
    matches!(body, Body::Entry(_))
}

/// The entry address that a value is.
fn entry_in<'a>(scope: &Scope<'_, '_, 'a>, value: &'a Expr) -> Option<u16>
    ensures value { result ≡ entry_by (value_of (addresses_in scope.now) value.now) }
    ensures legal { (unwrap_or result 0 < 16384) × (unwrap_or result 0 % 2 ≡ 0) }
{
    match value_of(scope, value) {
        Ok(number) => match even_at_most(16_382, number) {
            Some(entry) => Some(entry as u16),
            None => None,
        },
        Err(_) => None,
    }
}

/// Whether a statement may stand after these windows.
fn takes_window(windows: &[Option<Window>], body: &Body) -> bool
    ensures { result ≡ takes_window windows.now body.now }
{
    match body {
        Body::Window(register, segment, _) => {
            *register >= 1
                && is_free(windows, *register as usize - 1)
                && *segment >= 1
                && *segment <= 3839
        }
        _ => true,
    }
}

/// Whether a place of a window is there and free.
fn is_free(windows: &[Option<Window>], place: usize) -> bool
    ensures { result ≡ is_free (slice_get windows.now place) }
{
    match windows.get(place) {
        Some(window) => window.is_none(),
        None => false,
    }
}
