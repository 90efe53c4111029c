// Jobs as texts (docs/FORMATS.md, "Job").
ghost use Rattle.std.specs.Prelude.{◌≡◌, ◌<◌, ◌^◌, ℕ, List, [], ◌∷◌, ◌++◌, length, map, codes, decimal, slice_index_or, None, Some, Ok, IfOk, OnOk};
ghost use Rattle.job_text.specs.Below.{All, flat_map, parts_of, zip};
ghost use Rattle.asm_parse.specs.declared.token.Token.TheVariants.{Word as WordToken, Number as NumberToken};
ghost use Rattle.job_text.specs.Grammar.{content_of, job_of};
ghost use Rattle.job_text.specs.Written.{AreBytes, access_text, event_line, image_lines, token_line, number_line, program_lines, source_lines, window_tokens, windows_tokens, job_written, HasShortText, SaysAgain, AddsLine, named_programs, AddsLines, texts_of};

use super::job::{Job, Name};
use desk::Event;
use flat_machine::{Program, Window};
use itoa::Buffer;
use std::alloc::{AllocError, Global};

/// The text of a job, from `frames` to the last `end`: each program by its entry address, its windows and its bytes,
/// each begin with all four values, and no drains (docs/FORMATS.md, "Job").
///
/// For each job that some text has, this text has fewer than 2^23 bytes, so that [`read_job`](super::read_job) takes it,
/// and gives a job that says the same.
///
/// # Errors
///
/// [`AllocError`] where there is no memory.
pub fn write_job(alloc: Global, job: &Job) -> Result<Vec<u8>, AllocError>
    ensures text { IfOk result (λ text. text.items ≡ job_written (content_of job.now)) }
    ensures short { IfOk result (λ text. HasShortText (content_of job.now) text.items) }
    ensures back { IfOk result (λ text. SaysAgain (content_of job.now) text.items) }
{
    let mut text = Vec::new(alloc);
    put_number_line(&mut text, "frames", u32::from(job.frames))?;
    put_programs(&mut text, job.names.as_slice(), job.programs.as_slice())?;
    put_word_line(&mut text, "schedule")?;
    put_events(&mut text, job.names.as_slice(), job.events.as_slice())?;
    put_word_line(&mut text, "end")?;
    Ok(text)
}

/// Appends the programs that have a name, each from its name to its `end`.
fn put_programs(text: &mut Vec<u8>, names: &[Name], programs: &[Program]) -> Result<(), AllocError>
    ensures bytes { OnOk result (All (λ program. AreBytes program.1.image) (named_programs names.now programs.now)) }
    ensures lines { OnOk result (AddsLines text.old text.new (flat_map program_lines (named_programs names.now programs.now))) }
{
    for (name, program) in names.iter().zip(programs) {
        put_program(text, name.as_slice(), program)?;
    }
    Ok(())
}

/// Appends the lines of events, by the names of the programs.
fn put_events(text: &mut Vec<u8>, names: &[Name], events: &[Event]) -> Result<(), AllocError>
    ensures { OnOk result (AddsLines text.old text.new (map (event_line (texts_of names.now)) events.now)) }
{
    for event in events {
        put_event(text, names, event)?;
    }
    Ok(())
}

/// Appends a program from its name to its `end`.
fn put_program(text: &mut Vec<u8>, name: &[u8], program: &Program) -> Result<(), AllocError>
    ensures bytes { OnOk result (AreBytes program.now.image) }
    ensures lines { OnOk result (AddsLines text.old text.new (program_lines (name.now, parts_of program.now))) }
{
    put_name_line(text, "program", name)?;
    put_number_line(text, ".entry", u32::from(program.entry))?;
    put_windows(text, &program.windows)?;
    put_image(text, program.image.as_slice())?;
    put_word_line(text, "end")
}

/// Appends a line for each window that is there, the first place for register 1.
fn put_windows(text: &mut Vec<u8>, windows: &[Option<Window>; 15]) -> Result<(), AllocError>
    ensures { OnOk result (AddsLines text.old text.new (windows_tokens 1 windows.now)) }
{
    let mut register = 1;
    for window in windows {
        if let Some(window) = window {
            put_window(text, register, *window)?;
        }
        register += 1;
    }
    Ok(())
}

/// Appends the line of a window.
fn put_window(text: &mut Vec<u8>, register: u32, window: Window) -> Result<(), AllocError>
    ensures { OnOk result (AddsLine text.old text.new (window_tokens register window)) }
{
    text.extend_from_slice(b".window")?;
    put_number(text, register)?;
    text.push(b',')?;
    put_number(text, u32::from(window.segment))?;
    text.push(b',')?;
    text.extend_from_slice(if window.write { b" rw\n" } else { b" r\n" })
}

/// Appends a `.word` for each four bytes, and a `.byte` for each that is left.
fn put_image(text: &mut Vec<u8>, image: &[u8]) -> Result<(), AllocError>
    ensures bytes { AreBytes image.now }
    ensures lines { OnOk result (AddsLines text.old text.new (image_lines image.now)) }
{
    let mut left = image;
    while let [a, b, c, d, behind @ ..] = left {
        put_number_line(text, ".word", u32::from_be_bytes([*a, *b, *c, *d]))?;
        left = behind;
    }
    put_bytes(text, left)
}

/// Appends a `.byte` for each byte.
fn put_bytes(text: &mut Vec<u8>, bytes: &[u8]) -> Result<(), AllocError>
    ensures { OnOk result (AddsLines text.old text.new (map (number_line (codes ".byte")) bytes.now)) }
{
    for byte in bytes {
        put_number_line(text, ".byte", u32::from(*byte))?;
    }
    Ok(())
}

/// Appends the line of an event, by the names of the programs.
fn put_event(text: &mut Vec<u8>, names: &[Name], event: &Event) -> Result<(), AllocError>
    ensures { OnOk result (AddsLine text.old text.new (event_line (texts_of names.now) event.now)) }
{
    match event {
        Event::Begin { program, args } => {
            put_begin(text, name_at(names, *program as usize), args)
        }
        Event::Turn { activation, limit } => put_turn(text, *activation, *limit),
        Event::Checkpoint => put_word_line(text, "checkpoint"),
        Event::Crash => put_word_line(text, "crash"),
    }
}

/// The name at a place, and no bytes where there is none.
fn name_at(names: &[Name], place: usize) -> &[u8]
    ensures { result.now ≡ slice_index_or (texts_of names.now) place [] }
{
    match names.get(place) {
        Some(name) => name.as_slice(),
        None => &[],
    }
}

/// Appends the line of a begin.
fn put_begin(text: &mut Vec<u8>, name: &[u8], args: &[u32; 4]) -> Result<(), AllocError>
    ensures { OnOk result (AddsLine text.old text.new (WordToken (codes "begin") ∷ WordToken name.now ∷ map NumberToken args.now)) }
{
    text.extend_from_slice(b"begin ")?;
    text.extend_from_slice(name)?;
    for arg in args {
        put_number(text, *arg)?;
    }
    text.push(b'\n')?;
    Ok(())
}

/// Appends the line of a turn.
fn put_turn(text: &mut Vec<u8>, activation: u32, limit: u32) -> Result<(), AllocError>
    ensures { OnOk result (AddsLine text.old text.new (WordToken (codes "turn") ∷ NumberToken activation ∷ NumberToken limit ∷ [])) }
{
    text.extend_from_slice(b"turn")?;
    put_number(text, activation)?;
    put_number(text, limit)?;
    text.push(b'\n')?;
    Ok(())
}

/// Appends a line that is one word.
fn put_word_line(text: &mut Vec<u8>, word: &str) -> Result<(), AllocError>
    ensures { OnOk result (AddsLine text.old text.new (WordToken word.now ∷ [])) }
{
    text.extend_from_slice(word.as_bytes())?;
    text.push(b'\n')?;
    Ok(())
}

/// Appends a line of a word and a name.
fn put_name_line(text: &mut Vec<u8>, word: &str, name: &[u8]) -> Result<(), AllocError>
    ensures { OnOk result (AddsLine text.old text.new (WordToken word.now ∷ WordToken name.now ∷ [])) }
{
    text.extend_from_slice(word.as_bytes())?;
    text.push(b' ')?;
    text.extend_from_slice(name)?;
    text.push(b'\n')?;
    Ok(())
}

/// Appends a line of a word and a number.
fn put_number_line(text: &mut Vec<u8>, word: &str, number: u32) -> Result<(), AllocError>
    ensures { OnOk result (AddsLine text.old text.new (number_line word.now number)) }
{
    text.extend_from_slice(word.as_bytes())?;
    put_number(text, number)?;
    text.push(b'\n')?;
    Ok(())
}

/// Appends a space and a number in decimal.
fn put_number(text: &mut Vec<u8>, number: u32) -> Result<(), AllocError>
    ensures { OnOk result (text.new.items ≡ text.old.items ++ 32 ∷ decimal number) }
{
    let mut buffer = Buffer::new();
    text.push(b' ')?;
    text.extend_from_slice(buffer.format(number).as_bytes())
}
