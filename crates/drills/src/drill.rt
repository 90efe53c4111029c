// A drill: a job that is stopped at its writes in turn.
ghost use Rattle.std.specs.Prelude.{◌≡◌, ◌⊎◌, ◌≤◌, length, MatchOption, IfOk};
ghost use Rattle.drills.specs.Below.{IsReady, IsStanding, PrintsBytes, PutsTimes};
ghost use Rattle.drills.specs.Drill.{OfStanding};
ghost use Rattle.drills.specs.Drilled.{DrilledTo, DrillsFrom, EndsBefore, FoundAt, IsPair, PutsStops, try_order, stop_line, pair_lines, last_line};

use super::stops::drill_stop;
use call_status::{Status, job_from};
use job_text::Job;
use outside::{Failed, Joint, MemoryDisk, MemoryScreen, Outside, Source};
use std::alloc::{AllocError, Global};
use store::Durable;
use store_calls::try_store;
use text_line::TextLine;

/// The most writes at which a drill stops.
const MOST_STOPS: u32 = 256;

/// The byte that a write leaves where it is torn.
const TORN: u8 = 0xA5;

/// What a stop came to: how many commit lines were seen, and the number that restart finds.
#[derive(Clone, Copy)]
pub struct Found {
    pub seen: u64,
    pub number: u64,
}

/// What the two stops at a write came to: where the write left nothing, and where it left one byte.
#[derive(Clone, Copy)]
pub struct StopPair {
    pub old: Found,
    pub torn: Found,
}

/// Stops the job of a source at its writes in turn, up to the 256th, each time on a store of `try` in memory of its own, and puts a line
/// for each stop and one for the run that isn't stopped (docs/FORMATS.md, "Drill"). The disk that is handed in isn't called.
pub fn drill_source<S: Source, W: Outside>(alloc: Global, source: &mut S, outside: &mut W) -> Status
    ensures { DrillsFrom S.Source W.Outside source.old source.new outside.old outside.new result }
{
    match job_from(alloc, source) {
        Err(status) => status,
        Ok(job) => drill(alloc, &job, outside),
    }
}

/// The lines of all stops, and the last line.
fn drill<W: Outside>(alloc: Global, job: &Job, outside: &mut W) -> Status
    requires { IsReady job.now }
    ensures did { DrilledTo W.Outside job.now outside.old outside.new result }
    ensures only { (result ≡ Status.Done) ⊎ (result ≡ Status.PutFault) ⊎ (result ≡ Status.NoMemory) }
{
    let mut text = TextLine::new();
    match put_stops(alloc, job, &mut text, outside) {
        Err(status) => status,
        Ok(stops) => match last_number(alloc, job) {
            Err(_) => Status::NoMemory,
            Ok(number) => match put_last(&mut text, stops, number, outside) {
                Ok(()) => Status::Done,
                Err(Failed) => Status::PutFault,
            },
        },
    }
}

/// The lines of all stops; how many writes there were.
fn put_stops<W: Outside>(
    alloc: Global,
    job: &Job,
    text: &mut TextLine,
    outside: &mut W,
) -> Result<u32, Status>
    requires { IsReady job.now }
    ensures { PutsStops W.Outside job.now outside.old outside.new result }
{
    for stops in 0..MOST_STOPS {
        match pair_at(alloc, job, stops + 1) {
            Err(_) => return Err(Status::NoMemory),
            Ok(None) => return Ok(stops),
            Ok(Some(pair)) => match put_pair(text, stops + 1, &pair, outside) {
                Ok(()) => {}
                Err(Failed) => return Err(Status::PutFault),
            },
        }
    }
    Ok(MOST_STOPS)
}

/// What the two stops at the write with this number come to, if the run has as many writes.
fn pair_at(alloc: Global, job: &Job, write: u32) -> Result<Option<StopPair>, AllocError>
    requires ready { IsReady job.now }
    requires write { 1 ≤ write }
    ensures { IfOk result (λ pair. MatchOption pair (EndsBefore job.now write) (IsPair job.now write)) }
{
    let Some(old) = found_at(alloc, job, write, Vec::new(alloc))? else {
        return Ok(None);
    };
    let mut outcome = Vec::new(alloc);
    outcome.push(TORN)?;
    let Some(torn) = found_at(alloc, job, write, outcome)? else {
        return Ok(None);
    };
    Ok(Some(StopPair { old, torn }))
}

/// What a stop at the write with this number comes to, with this outcome, if the run has as many writes.
fn found_at(
    alloc: Global,
    job: &Job,
    write: u32,
    outcome: Vec<u8>,
) -> Result<Option<Found>, AllocError>
    requires ready { IsReady job.now }
    requires write { 1 ≤ write }
    ensures { IfOk result (FoundAt job.now write outcome.items) }
{
    let stop = drill_stop(alloc, job, try_store(alloc)?, write, outcome)?;
    if stop.reached {
        let seen = stop.seen;
        let number = number_in(alloc, stop.image)?;
        Ok(Some(Found { seen, number }))
    } else {
        Ok(None)
    }
}

/// The number that restart finds in these bytes, which stand for a store.
fn number_in(alloc: Global, image: Vec<u8>) -> Result<u64, AllocError>
    requires { IsStanding image.items }
    ensures { OfStanding image.items (λ number store. IfOk result (λ found. found ≡ number)) }
{
    let disk = MemoryDisk::new(alloc, image, Vec::new(alloc));
    let screen = MemoryScreen::new(alloc, Vec::new(alloc));
    match Durable::open(alloc, &mut Joint::new(disk, screen)) {
        Ok(store) => Ok(store.number()),
        Err(_) => Err(AllocError),
    }
}

/// The number after a run that isn't stopped: no run makes as many writes as there are numbers.
fn last_number(alloc: Global, job: &Job) -> Result<u64, AllocError>
    requires { IsReady job.now }
    ensures { IfOk result (λ number. number ≡ length (try_order job.now)) }
{
    let whole = drill_stop(alloc, job, try_store(alloc)?, u32::MAX, Vec::new(alloc))?;
    if whole.reached {
        return Err(AllocError);
    }
    number_in(alloc, whole.image)
}

/// Puts the lines of the two stops at the write with this number.
fn put_pair<W: Outside>(
    text: &mut TextLine,
    write: u32,
    pair: &StopPair,
    outside: &mut W,
) -> Result<(), Failed>
    ensures puts { PrintsBytes W.Outside (pair_lines write pair.now) outside.old outside.new result }
    ensures times { PutsTimes W.Outside 2 outside.old outside.new result }
{
    put_stop(text, write, b"old", &pair.old, outside)?;
    put_stop(text, write, b"torn", &pair.torn, outside)
}

/// Puts the line of one stop.
fn put_stop<W: Outside>(
    text: &mut TextLine,
    write: u32,
    left: &[u8],
    found: &Found,
    outside: &mut W,
) -> Result<(), Failed>
    requires { length left.now ≤ 16 }
    ensures puts { PrintsBytes W.Outside (stop_line write left.now found.now) outside.old outside.new result }
    ensures times { PutsTimes W.Outside 1 outside.old outside.new result }
{
    text.begin(b"stop");
    text.number(u64::from(write));
    text.word(left);
    text.part(b"seen", found.seen);
    text.part(b"number", found.number);
    text.end();
    outside.put(text.as_slice())
}

/// Puts the last line.
fn put_last<W: Outside>(
    text: &mut TextLine,
    stops: u32,
    number: u64,
    outside: &mut W,
) -> Result<(), Failed>
    ensures puts { PrintsBytes W.Outside (last_line stops number) outside.old outside.new result }
    ensures times { PutsTimes W.Outside 1 outside.old outside.new result }
{
    text.begin(b"drill");
    text.number(u64::from(stops));
    text.part(b"number", number);
    text.end();
    outside.put(text.as_slice())
}
