// The job of `big TRANSFERS` (docs/FORMATS.md, "The big job").
ghost use Rattle.std.specs.Prelude.{◌≡◌, ◌+◌, ◌≤◌, ℕ, [], ◌++◌, length, Ok, IfOk, OnOk, map};
ghost use Rattle.std.specs.List.{flat_map, range_with_len};
ghost use Rattle.job_text.specs.Big.{IsBigJob, batch, batches, big_events, big_sources, transfer, turns_of};
ghost use Rattle.job_text.specs.Grammar.{content_of, job_of};
ghost use Rattle.job_text.specs.Ready.{IsReady};

use super::job::{Job, JobFault};
use super::job_reading::read_job;
use desk::Event;
use std::alloc::{AllocError, Global};

/// Its frames and programs: `fund` fills accounts, `move` transfers between two, and `tally` prints their sum.
const SOURCES: &str = "\
    frames 3\n\
    program fund\n.window 1, 1, rw\ncau r6, r0, 0x1000\nloop: st r2, 0(r6)\nai r6, r6, 32\nsis r3, 1\n\
    jnb eq, loop\nsvc 0\nend\n\
    program move\n.window 1, 1, rw\ncau r6, r0, 0x1000\ncas r7, r6, r2\ncas r8, r6, r3\nl r9, 0(r7)\ns r9, r4\n\
    jb lt, no\nst r9, 0(r7)\nl r9, 0(r8)\na r9, r4\nst r9, 0(r8)\nsvc 0\nno: svc 2\nend\n\
    program tally\n.window 1, 1, r\ncau r6, r0, 0x1000\nloop: l r7, 0(r6)\na r4, r7\nai r6, r6, 32\nsis r3, 1\n\
    jnb eq, loop\ncas r2, r4, r0\nsri16 r2, 8\nsvc 1\ncas r2, r4, r0\nsri16 r2, 0\nsvc 1\ncas r2, r4, r0\n\
    sri r2, 8\nsvc 1\ncas r2, r4, r0\nsvc 1\nsvc 0\nend\n\
    schedule\nend\n";

/// The places of the programs.
const FUND: u16 = 0;

const MOVE: u16 = 1;

const TALLY: u16 = 2;

/// The most transfers of a batch, so that all of it are active at once.
const MOST_AT_ONCE: u32 = 16;

/// The job of so many transfers, at most 512, between 256 accounts: it fills the accounts, transfers in batches in which
/// many wait for one another, and prints the sum of all accounts.
///
/// # Errors
///
/// [`AllocError`] where there is no memory.
pub fn big_job(alloc: Global, transfers: u32) -> Result<Job, AllocError>
    requires { transfers ≤ 512 }
    ensures job { IfOk result (IsBigJob transfers) }
    ensures ready { IfOk result IsReady }
{
    let mut job = without_events(alloc)?;
    put_events(&mut job.events, transfers)?;
    Ok(job)
}

/// The frames and programs of its sources.
fn without_events(alloc: Global) -> Result<Job, AllocError>
    ensures job { IfOk result (λ job. job_of big_sources ≡ Ok (content_of job)) }
    ensures empty { IfOk result (λ job. job.events.items ≡ []) }
    ensures three { IfOk result (λ job. length job.programs.items ≡ 3) }
    ensures ready { IfOk result IsReady }
{
    match read_job(alloc, SOURCES.as_bytes()) {
        Ok(job) => Ok(job),
        Err(JobFault::Memory) => Err(AllocError),
        Err(JobFault::Fault { .. }) => unreachable!(),
    }
}

/// Appends its events.
fn put_events(events: &mut Vec<Event>, transfers: u32) -> Result<(), AllocError>
    requires { transfers ≤ 512 }
    ensures { OnOk result (events.new.items ≡ events.old.items ++ big_events transfers) }
{
    events.push(Event::Begin {
        program: FUND,
        args: [1000, 256, 0, 0],
    })?;
    events.push(Event::Turn {
        activation: 1,
        limit: 1_000_000,
    })?;
    put_batches(events, transfers)?;
    events.push(Event::Begin {
        program: TALLY,
        args: [0, 256, 0, 0],
    })?;
    events.push(Event::Turn {
        activation: transfers + 2,
        limit: 1_000_000,
    })?;
    Ok(())
}

/// Appends the transfers in batches.
fn put_batches(events: &mut Vec<Event>, transfers: u32) -> Result<(), AllocError>
    requires { transfers ≤ 512 }
    ensures { OnOk result (events.new.items ≡ events.old.items ++ batches transfers) }
{
    for place in 0..(transfers + MOST_AT_ONCE - 1) / MOST_AT_ONCE {
        let first = MOST_AT_ONCE * place;
        put_batch(events, first, MOST_AT_ONCE.min(transfers - first))?;
    }
    Ok(())
}

/// Appends a batch of so many transfers from one on: as each round ends one of them at least, as many rounds end all.
fn put_batch(events: &mut Vec<Event>, first: u32, count: u32) -> Result<(), AllocError>
    requires first { first ≤ 512 }
    requires count { count ≤ 16 }
    ensures { OnOk result (events.new.items ≡ events.old.items ++ batch first count) }
{
    put_begins(events, first, count)?;
    put_turns(events, 7, first, count)?;
    for _round in 0..count {
        put_turns(events, 50, first, count)?;
    }
    Ok(())
}

/// Appends the begins of so many transfers from one on.
fn put_begins(events: &mut Vec<Event>, first: u32, count: u32) -> Result<(), AllocError>
    requires first { first ≤ 512 }
    requires count { count ≤ 16 }
    ensures { OnOk result (events.new.items ≡ events.old.items ++ map transfer (range_with_len first count)) }
{
    for place in 0..count {
        events.push(transfer(first + place))?;
    }
    Ok(())
}

/// Appends a turn with a limit for each of so many transfers from one on.
fn put_turns(events: &mut Vec<Event>, limit: u32, first: u32, count: u32) -> Result<(), AllocError>
    requires first { first ≤ 512 }
    requires count { count ≤ 16 }
    ensures { OnOk result (events.new.items ≡ events.old.items ++ turns_of limit first count) }
{
    for place in 0..count {
        events.push(Event::Turn {
            activation: first + place + 2,
            limit,
        })?;
    }
    Ok(())
}

/// The begin of a transfer: one account gives to the other and, in the next transfer, takes from it.
fn transfer(k: u32) -> Event
    requires { k ≤ 1024 }
    ensures { result ≡ transfer k }
{
    let pair = k / 2;
    let account = 29 * pair % 256;
    let other = (account + 100 + pair) % 256;
    let (giver, taker) = if k % 2 == 0 {
        (account, other)
    } else {
        (other, account)
    };
    Event::Begin {
        program: MOVE,
        args: [32 * giver, 32 * taker, 1 + k % 9, 0],
    }
}
