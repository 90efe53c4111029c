ghost use Rattle.std.specs.Prelude.{◌≡◌, ◌+◌, ◌*◌, ◌/◌, ◌^◌, ◌≤◌, [], ◌∷◌, count_by, is_some, length, take, drop};
ghost use Rattle.std.specs.Int.{div_ceil};
ghost use Rattle.listing.specs.Listing.{listing_of, digits_of, lines_in, program_line, window_line, window_lines, place_line, row_line, row_lines};
ghost use Rattle.listing.specs.BytesPut.{PrintsBytes, PutsTimes};

use flat_machine::{Program, Window};
use outside::{Failed, Outside};
use text_line::TextLine;

/// Puts the listing of a program, each line by one put: its first line, its windows and its image
/// (docs/FORMATS.md, "Listing"). It takes no memory.
///
/// # Errors
///
/// `Failed` where a put failed; a prefix of the listing is printed then, and nothing more is put.
pub fn put_program<W: Outside>(
    name: &[u8],
    program: &Program,
    outside: &mut W,
) -> Result<(), Failed>
    requires short { length name.now ≤ 31 }
    ensures puts { PrintsBytes W.Outside (listing_of name.now program.now.image program.now.entry program.now.windows) outside.old outside.new result }
    ensures times { PutsTimes W.Outside (lines_in program.now.image program.now.windows) outside.old outside.new result }
{
    let mut text = TextLine::new();
    program_text(&mut text, name, program);
    put(text.as_slice(), outside)?;
    put_windows(&mut text, &program.windows, outside)?;
    put_rows_from(&mut text, 0, program.image.as_slice(), outside)
}

/// Puts bytes in rows of sixteen, each row by one put; the offset of the first byte is given
/// (docs/FORMATS.md, "Listing"). It takes no memory.
///
/// # Errors
///
/// `Failed` where a put failed; a prefix of the rows is printed then, and nothing more is put.
pub fn put_rows<W: Outside>(first: u32, bytes: &[u8], outside: &mut W) -> Result<(), Failed>
    requires { first + length bytes.now ≤ 2 ^ 32 }
    ensures puts { PrintsBytes W.Outside (row_lines first bytes.now) outside.old outside.new result }
    ensures times { PutsTimes W.Outside (div_ceil (length bytes.now) 16) outside.old outside.new result }
{
    put_rows_from(&mut TextLine::new(), first, bytes, outside)
}

/// The same, from the room of a line.
fn put_rows_from<W: Outside>(
    text: &mut TextLine,
    first: u32,
    bytes: &[u8],
    outside: &mut W,
) -> Result<(), Failed>
    requires { first + length bytes.now ≤ 2 ^ 32 }
    ensures puts { PrintsBytes W.Outside (row_lines first bytes.now) outside.old outside.new result }
    ensures times { PutsTimes W.Outside (div_ceil (length bytes.now) 16) outside.old outside.new result }
{
    for row in 0..bytes.len().div_ceil(16) {
        let at = 16 * row;
        row_text(text, first + at as u32, row_at(bytes, at));
        put(text.as_slice(), outside)?;
    }
    Ok(())
}

/// Puts the lines of windows, by their registers from 1 on.
fn put_windows<W: Outside>(
    text: &mut TextLine,
    windows: &[Option<Window>; 15],
    outside: &mut W,
) -> Result<(), Failed>
    ensures puts { PrintsBytes W.Outside (window_lines windows.now) outside.old outside.new result }
    ensures times { PutsTimes W.Outside (count_by is_some windows.now) outside.old outside.new result }
{
    for (index, place) in windows.iter().enumerate() {
        put_place(text, index as u64 + 1, place, outside)?;
    }
    Ok(())
}

/// Puts the line of the window under a register, if there is one.
fn put_place<W: Outside>(
    text: &mut TextLine,
    register: u64,
    place: &Option<Window>,
    outside: &mut W,
) -> Result<(), Failed>
    ensures puts { PrintsBytes W.Outside (place_line register place.now) outside.old outside.new result }
    ensures times { PutsTimes W.Outside (count_by is_some (place.now ∷ [])) outside.old outside.new result }
{
    match place {
        Some(window) => {
            window_text(text, register, window);
            put(text.as_slice(), outside)
        }
        None => Ok(()),
    }
}

/// Puts a line.
fn put<W: Outside>(line: &[u8], outside: &mut W) -> Result<(), Failed>
    ensures puts { PrintsBytes W.Outside line.now outside.old outside.new result }
    ensures times { PutsTimes W.Outside 1 outside.old outside.new result }
{
    outside.put(line)
}

/// The first line of a program.
fn program_text(text: &mut TextLine, name: &[u8], program: &Program)
    requires { length name.now ≤ 31 }
    ensures { text.new ≡ program_line name.now program.now.image program.now.entry }
{
    text.begin(b"program");
    text.word(name);
    text.part(b"bytes", program.image.len() as u64);
    text.word(b"entry");
    text.word(&digits_of(u32::from(program.entry)));
    text.end();
}

/// The line of the window under a register.
fn window_text(text: &mut TextLine, register: u64, window: &Window)
    ensures { text.new ≡ window_line register window.now }
{
    text.begin(b"window");
    text.number(register);
    text.part(b"segment", u64::from(window.segment));
    text.word(if window.write { b"rw" } else { b"r" });
    text.end();
}

/// The sixteen bytes from a place on, or what remains.
fn row_at(bytes: &[u8], at: usize) -> &[u8]
    requires { at ≤ length bytes.now }
    ensures value { result.now ≡ take 16 (drop at bytes.now) }
    ensures few { length result.now ≤ 16 }
{
    let rest = &bytes[at..];
    &rest[..rest.len().min(16)]
}

/// A row of at most sixteen bytes, the first of which has this offset.
fn row_text(text: &mut TextLine, offset: u32, bytes: &[u8])
    requires { length bytes.now ≤ 16 }
    ensures { text.new ≡ row_line offset bytes.now }
{
    text.begin(&digits_of(offset));
    text.hex(bytes);
    text.end();
}

/// A number in eight hexadecimal digits.
fn digits_of(number: u32) -> [u8; 8]
    ensures { result ≡ digits_of number }
{
    let mut digits = [0; 8];
    let _ = hex::encode_to_slice(&number.to_be_bytes(), &mut digits);
    digits
}
