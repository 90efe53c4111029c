// The lines of a ship text and of what is told of one, each filled into a room.
ghost use Rattle.std.specs.Prelude.{◌≡◌, ◌≤◌, length};
ghost use Rattle.standby.specs.Read.{feeds};
ghost use Rattle.standby.specs.Text.{closing_line, head_line, kept_line, line_line, record_line};

use text_line::TextLine;

/// `ship WIDTH LINES NUMBER`.
pub fn fill_head(text: &mut TextLine, line_bytes: u16, lines: u32, start: u64)
    ensures { text.new ≡ head_line line_bytes lines start }
{
    text.begin(b"ship");
    text.number(u64::from(line_bytes));
    text.number(u64::from(lines));
    text.number(start);
    text.end();
}

/// `record NUMBER LINES`.
pub fn fill_record(text: &mut TextLine, number: u64, count: u32)
    ensures { text.new ≡ record_line number count }
{
    text.begin(b"record");
    text.number(number);
    text.number(u64::from(count));
    text.end();
}

/// `line INDEX HEX`.
pub fn fill_line(text: &mut TextLine, line: u32, bytes: &[u8])
    requires { length bytes.now ≤ 4096 }
    ensures text { text.new ≡ line_line line bytes.now }
    ensures one { feeds text.new ≡ 1 }
{
    text.begin(b"line");
    text.number(u64::from(line));
    text.hex(bytes);
    text.end();
}

/// `end NUMBER`.
pub fn fill_end(text: &mut TextLine, number: u64)
    ensures { text.new ≡ closing_line number }
{
    text.begin(b"end");
    text.number(number);
    text.end();
}

/// `kept NUMBER`.
pub fn fill_kept(text: &mut TextLine, number: u64)
    ensures { text.new ≡ kept_line number }
{
    text.begin(b"kept");
    text.number(number);
    text.end();
}
