// Rows that need nobody else: an attempt, and a run of them.
ghost use Rattle.std.specs.Prelude.{◌≡◌, ◌≤◌, ◌<◌, true, Some, None};
ghost use Rattle.activations.specs.Kept.{WasAttempted, IsLineShut, IsAtStop, HasStrode, HasTried, RunsSomewhere, standing, StridesFrom, KeepsParts, IsSeatSelected, Strode, TriesFrom};
ghost use Rattle.activations.specs.Below.{has, reach_of};
ghost use Rattle.romp_cpu.specs.Tried.{how_went};

use super::activations::Activations;
use super::live::Live;
use romp_cpu::{Access, Attempt};
use storage_unit::Unit;

impl Activations {
    /// The processor in a seat, which is selected, attempts its next instruction; a byte that it prints is kept.
    #[inline(always)]
    pub fn execute(&mut self, seat: u8) -> Attempt
        requires taken { has self.old.seating.taken seat ≡ true }
        requires selected { IsSeatSelected self.old seat }
        ensures went { WasAttempted result self.old seat self.new }
    {
        attempt_on(&mut self.unit, &mut self.live[usize::from(seat)])
    }

    /// The next rows in a seat, at most so many, up to one that doesn't go on by itself, and the access of that one where it
    /// isn't permitted. They aren't counted yet.
    #[inline(never)]
    pub fn stride(&mut self, seat: u8, limit: u32) -> (u32, Option<Access>)
        requires taken { has self.old.seating.taken seat ≡ true }
        requires selected { IsSeatSelected self.old seat }
        ensures selected { IsSeatSelected self.new seat }
        ensures few { result.0 ≤ limit }
        ensures parts { KeepsParts self.old self.new 0 }
        ensures strode { Strode self.old seat result.0 self.new }
        ensures stopped { result.1 ≡ None → result.0 < limit → IsAtStop self.new seat }
        ensures shut { (access : Access) → result.1 ≡ Some access → IsLineShut self.new seat access }
    {
        stride_on(&mut self.unit, &mut self.live[usize::from(seat)], limit)
    }
}

/// The processor of what runs in a seat, which is selected, attempts its next instruction; a byte that it prints is kept.
#[inline(always)]
fn attempt_on(unit: &mut Unit, live: &mut Live) -> Attempt
    requires runs { RunsSomewhere (reach_of unit.old) live.old }
    ensures { HasTried result (reach_of unit.old) live.old (reach_of unit.new) live.new }
{
    let mut iar = live.cpu.iar;
    let mut went = Attempt::Went;
    let at_once = step_on(unit, live, &mut iar, &mut went);
    live.cpu.iar = iar;
    if at_once { Attempt::Went } else { went }
}

/// The same of the instruction at an address that the caller keeps. True: it went at once. Else `went` says how.
#[inline(always)]
fn step_on(unit: &mut Unit, live: &mut Live, iar: &mut u32, went: &mut Attempt) -> bool
    requires runs { RunsSomewhere (reach_of unit.old) (standing live.old iar.old) }
    ensures { TriesFrom (how_went result went.new) unit.old live.old iar.old unit.new live.new iar.new }
{
    if unit.step(&mut live.cpu, iar, went) {
        return true;
    }
    if let Attempt::Print(byte) = *went {
        live.out.push(byte);
    }
    false
}

/// The next rows of what runs in a seat, which is selected, at most so many.
#[inline(always)]
fn stride_on(unit: &mut Unit, live: &mut Live, limit: u32) -> (u32, Option<Access>)
    requires runs { RunsSomewhere (reach_of unit.old) live.old }
    ensures { HasStrode result limit (reach_of unit.old) live.old (reach_of unit.new) live.new }
{
    let mut iar = live.cpu.iar;
    let strode = stride_from(unit, live, &mut iar, limit);
    live.cpu.iar = iar;
    strode
}

/// The same from an address on. It stays in hand until a row doesn't go on by itself.
#[inline(always)]
fn stride_from(unit: &mut Unit, live: &mut Live, iar: &mut u32, limit: u32) -> (u32, Option<Access>)
    requires runs { RunsSomewhere (reach_of unit.old) (standing live.old iar.old) }
    ensures { StridesFrom result limit unit.old live.old iar.old unit.new live.new iar.new }
{
    let mut went = Attempt::Went;
    let mut ran = 0;
    while ran < limit {
        if step_on(unit, live, iar, &mut went) {
            ran += 1;
            continue;
        }
        match went {
            Attempt::Went | Attempt::Print(_) => ran += 1,
            Attempt::Fault(_, access) => return (ran, Some(access)),
            Attempt::Commit | Attempt::Check(_) => return (ran, None),
        }
    }
    (ran, None)
}
