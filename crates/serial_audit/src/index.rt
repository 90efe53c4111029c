// What a job says of each of its activations.
ghost use Rattle.std.specs.Prelude.{◌≡◌, ◌≢◌, ◌+◌, ◌<◌, ℕ, [], map, slice_get, option_map, IfOk, MatchOption};
ghost use Rattle.serial_audit.specs.Below.{All, begun};
ghost use Rattle.serial_audit.specs.Progress.{IsFresh, IsIndex, activation_in, marked_if, with_turns, IsPlaceOf, AreChanged, AreFresh};

use desk::Event;
use flat_machine::Program;
use job_text::Job;
use std::alloc::{AllocError, Global};

/// What an audit holds a commit line of an activation against: its program with its arguments, how many steps its turns allow
/// together (2^64 - 1 where it would be more), and whether one of the commit lines so far is its (docs/MODEL.md, "An audit").
#[derive(Clone, Copy)]
pub struct Allowance<'j> {
    pub program: &'j Program,
    pub args: [u32; 4],
    pub steps: u64,
    pub committed: bool,
}

/// An entry for each activation of a job, by its number, before the first commit line. It looks at each event twice, since a
/// turn may stand before the begin of its activation.
pub(super) fn index_of<'j>(alloc: Global, job: &'j Job) -> Result<Vec<Allowance<'j>>, AllocError>
    ensures { IfOk result (λ entries. IsIndex job.now [] entries.items) }
{
    let events = job.events.as_slice();
    let mut entries = begins(alloc, job.programs.as_slice(), events)?;
    allow_turns(&mut entries, events);
    Ok(entries)
}

/// The entries of the begins, as if there were no turns.
fn begins<'j>(
    alloc: Global,
    programs: &'j [Program],
    events: &[Event],
) -> Result<Vec<Allowance<'j>>, AllocError>
    ensures { IfOk result (λ entries. AreFresh programs.now events.now entries.items) }
{
    let mut entries = Vec::new(alloc);
    for event in events {
        if let Event::Begin { program, args } = event {
            match programs.get(usize::from(*program)) {
                Some(program) => entries.push(Allowance {
                    program,
                    args: *args,
                    steps: 0,
                    committed: false,
                })?,
                None => {}
            }
        }
    }
    Ok(entries)
}

/// Gives each activation the steps that its turns among these events allow.
fn allow_turns(entries: &mut [Allowance], events: &[Event])
    requires { All IsFresh entries.old }
    ensures { AreChanged (with_turns events.now) entries.old entries.new }
{
    for event in events {
        if let Event::Turn { activation, limit } = event {
            match place_among(entries.len(), *activation) {
                Some(place) => {
                    let entry = &mut entries[place];
                    entry.steps = entry.steps.saturating_add(u64::from(*limit));
                }
                None => {}
            }
        }
    }
}

/// Marks an activation as one that committed, if there is one with this number.
pub(super) fn mark(entries: &mut [Allowance], activation: u32)
    ensures { AreChanged (marked_if activation) entries.old entries.new }
{
    match place_among(entries.len(), activation) {
        Some(place) => entries[place].committed = true,
        None => {}
    }
}

/// The place of an activation among so many, which are counted from 1.
pub(super) fn place_among(count: usize, activation: u32) -> Option<usize>
    ensures { IsPlaceOf count activation result }
{
    let place = (activation as usize).checked_sub(1)?;
    if place < count { Some(place) } else { None }
}
