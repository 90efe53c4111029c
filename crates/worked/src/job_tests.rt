//! Texts and their jobs, written and read again. Texts that are refused are in checks/refused.
use flat_machine::Program;
use job_text::{Job, JobFault, big_job, read_job, write_job};
use std::alloc::Global;
use std::test::Fail;

/// The job of a text, unless it is long.
fn read(alloc: Global, text: &[u8]) -> Result<Job, JobFault> {
    if text.len() > 4096 {
        return Err(JobFault::Memory);
    }
    read_job(alloc, text)
}

/// Whether programs have the same bytes, entry address and windows.
fn is_same_program(one: &Program, other: &Program) -> bool {
    one.image.as_slice() == other.image.as_slice()
        && one.entry == other.entry
        && one.windows == other.windows
}

/// Whether jobs say the same.
fn is_same(one: &Job, other: &Job) -> bool {
    one.frames == other.frames
        && one.names.len() == other.names.len()
        && one
            .names
            .iter()
            .zip(other.names.iter())
            .all(|(name, wanted)| name.as_slice() == wanted.as_slice())
        && one.programs.len() == other.programs.len()
        && one
            .programs
            .iter()
            .zip(other.programs.iter())
            .all(|(program, wanted)| is_same_program(program, wanted))
        && one.events.as_slice() == other.events.as_slice()
}

/// Whether a job is written as this text, and read again from it.
fn is_written_as(alloc: Global, job: &Job, written: &str) -> Result<bool, Fail> {
    let text = write_job(alloc, job)?;
    let again = read(alloc, text.as_slice())?;
    Ok(text.as_slice() == written.as_bytes() && is_same(&again, job))
}

/// The worked run's job.
const WORKED: &str =
    "frames 2\nprogram add5\n.window 1, 1, rw\n.word 0xD8601000\n.word 0xCD360000\n.word 0xC1330005\n.word 0xDD360000\n.word 0xC0000000\nend\nschedule\nbegin add5\nturn 1 100\nend\n";

/// What is written of it.
const WORKED_WRITTEN: &str =
    "frames 2\nprogram add5\n.entry 0\n.window 1, 1, rw\n.word 3630174208\n.word 3442868224\n.word 3241345029\n.word 3711303680\n.word 3221225472\nend\nschedule\nbegin add5 0 0 0 0\nturn 1 100\nend\n";

#[test]
fn the_worked_job_is_written(rt: HostRuntime) -> Result<(), Fail> {
    let job = read(rt.alloc(), WORKED.as_bytes())?;
    assert!(rt; is_written_as(rt.alloc(), &job, WORKED_WRITTEN)?);
    assert_eq!(rt; job.events.len(), 2);
    Ok(())
}

/// Two programs, of which one has an image of seven bytes, windows in another order and an entry address.
const SEVEN: &str =
    "frames 3\nprogram none\nend\nprogram _seven\n.window 15, 3839, r\n.half 258\n.byte 3\n.window 2, 7, rw\nlast: .word 0x04050607\n.entry last - 1\nend\nschedule\nbegin _seven 1 4294967295\nbegin none\ndrain 1 1000000\nend\n";

/// What is written of it: four bytes are one word, and three are left.
const SEVEN_WRITTEN: &str =
    "frames 3\nprogram none\n.entry 0\nend\nprogram _seven\n.entry 2\n.window 2, 7, rw\n.window 15, 3839, r\n.word 16909060\n.byte 5\n.byte 6\n.byte 7\nend\nschedule\nbegin _seven 1 4294967295 0 0\nbegin none 0 0 0 0\nturn 1 1000000\nturn 2 1000000\nend\n";

#[test]
fn bytes_that_are_left_are_written(rt: HostRuntime) -> Result<(), Fail> {
    let job = read(rt.alloc(), SEVEN.as_bytes())?;
    assert!(rt; is_written_as(rt.alloc(), &job, SEVEN_WRITTEN)?);
    assert_eq!(rt; job.events.len(), 4);
    let image = [1, 2, 3, 4, 5, 6, 7];
    assert_eq!(rt;
        job.programs.last().map(|program| program.image.as_slice()),
        Some(image.as_slice())
    );
    Ok(())
}

#[test]
fn the_big_job_is_written_and_read(rt: HostRuntime) -> Result<(), Fail> {
    let job = big_job(rt.alloc(), 512)?;
    assert_eq!(rt; job.events.len(), 9_220);
    let text = write_job(rt.alloc(), &job)?;
    assert!(rt; text.len() < 1_000_000);
    let again = read_job(rt.alloc(), text.as_slice())?;
    assert!(rt; is_same(&again, &job));
    Ok(())
}
