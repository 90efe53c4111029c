ghost use Rattle.std.specs.Prelude.{[], ◌≡◌, ◌+◌, ◌*◌, ◌≤◌, ◌∷◌, ◌++◌, length, decimal, map};
ghost use Rattle.std.specs.List.{flat_map};
ghost use Rattle.desk.specs.ReportLines.{line_text, Commit};
ghost use Rattle.outside.specs.Bytes.{Prints};
ghost use Rattle.outside.specs.Causes.{FailsOnlyCounted};
ghost use Rattle.outside.specs.Moments.{Elapses, IsOnePut, ShowsPrefix};
ghost use Rattle.report_text.specs.Line.{line_told, IsShort};

use super::report_line::Line;
use byteorder::{BigEndian, ByteOrder};
use outside::{Failed, Outside};
use text_line::TextLine;

/// What puts one line after another, from one room that it keeps.
#[derive(Drop)]
pub struct Reporter {
    text: TextLine,
}

impl Reporter {
    /// With an empty room.
    pub fn new() -> Self {
        Reporter {
            text: TextLine::new(),
        }
    }

    /// Puts a line, whole and with its line feed, by one put. It takes no memory.
    ///
    /// # Errors
    ///
    /// `Failed` where the put failed; a prefix of the line is printed then.
    pub fn put<W: Outside>(&mut self, line: &Line, outside: &mut W) -> Result<(), Failed>
        requires short { IsShort line.now }
        ensures printed { Prints (W.printed outside.old) (W.printed outside.new) (line_text (line_told line.now)) result }
        ensures held { W.held outside.new ≡ W.held outside.old }
        ensures writes { W.writes outside.new ≡ W.writes outside.old }
        ensures deeds { W.deeds outside.new ≡ W.deeds outside.old }
        ensures honest { W.is_honest outside.new ≡ W.is_honest outside.old }
        ensures time { Elapses W.moment W.left_since outside.old outside.new }
        ensures crash { ShowsPrefix (line_text (line_told line.now)) W.moment W.left_since outside.old outside.new }
        ensures cause { FailsOnlyCounted (W.put_faults outside.old) (W.put_faults outside.new) result }
        ensures calls { (W.moment outside.new).calls ≡ (W.moment outside.old).calls }
        ensures once { IsOnePut (W.printed outside.old) (W.moment outside.old) (W.moment outside.new) result }
        ensures disk { W.disk_faults outside.new ≡ W.disk_faults outside.old }
    {
        fill(&mut self.text, line);
        outside.put(self.text.as_slice())
    }
}

/// The whole text of a line, with its line feed.
pub(crate) fn fill(text: &mut TextLine, line: &Line)
    requires short { IsShort line.now }
    ensures { text.new ≡ line_text (line_told line.now) }
{
    begin(text, line);
    text.end();
}

/// The text of a line without its line feed.
fn begin(text: &mut TextLine, line: &Line)
    requires short { IsShort line.now }
    ensures text { text.new ++ 10 ∷ [] ≡ line_text (line_told line.now) }
    ensures room { length text.new ≤ 8300 }
{
    match *line {
        Line::Open(number) => numbered(text, b"open", number),
        Line::Begin(activation, name) => named(text, b"begin", activation, name),
        Line::Busy(activation, name) => named(text, b"busy", activation, name),
        Line::NoSegment(activation, name, segment) => {
            named(text, b"nosegment", activation, name);
            text.number(u64::from(segment));
        }
        Line::Idle(activation) => numbered(text, b"idle", u64::from(activation)),
        Line::Turn {
            activation,
            ran,
            pages,
            locks,
        } => {
            numbered(text, b"turn", u64::from(activation));
            text.part(b"ran", u64::from(ran));
            text.part(b"page", u64::from(pages));
            text.part(b"lock", u64::from(locks));
        }
        Line::Victim(activation) => numbered(text, b"victim", u64::from(activation)),
        Line::Disk(activation) => numbered(text, b"disk", u64::from(activation)),
        Line::Doubt(activation, number) => {
            numbered(text, b"doubt", u64::from(activation));
            text.part(b"number", number);
        }
        Line::Closed => text.begin(b"closed"),
        Line::Stored(number) => numbered(text, b"stored", number),
        Line::Lost(activation) => numbered(text, b"lost", u64::from(activation)),
        Line::Left(activation) => numbered(text, b"left", u64::from(activation)),
        Line::End(number) => numbered(text, b"end", number),
        Line::Cycle(members) => {
            text.begin(b"cycle");
            listed(text, members);
        }
        Line::Wait(activation, holders) => {
            numbered(text, b"wait", u64::from(activation));
            text.word(b"for");
            listed(text, holders);
        }
        Line::Commit {
            activation,
            number,
            steps,
            out,
        } => commit(text, activation, number, steps, out),
        Line::Check {
            activation,
            code,
            iar,
        } => {
            numbered(text, b"check", u64::from(activation));
            text.part(b"code", u64::from(code));
            text.word(b"at");
            let mut address = [0; 4];
            BigEndian::write_u32(&mut address, iar);
            text.hex(&address);
        }
        Line::Journal {
            activation,
            lines,
            limit,
        } => {
            numbered(text, b"journal", u64::from(activation));
            text.part(b"lines", u64::from(lines));
            text.part(b"limit", u64::from(limit));
        }
    }
}

/// The commit line, with a dash where nothing was printed.
fn commit(text: &mut TextLine, activation: u32, number: u64, steps: u64, out: &[u8])
    requires { length out.now ≤ 4096 }
    ensures text { text.new ++ 10 ∷ [] ≡ line_text (Commit activation number steps out.now) }
    ensures room { length text.new ≤ 8300 }
{
    numbered(text, b"commit", u64::from(activation));
    text.part(b"number", number);
    text.part(b"steps", steps);
    text.word(b"out");
    match out {
        [] => text.word(b"-"),
        _ => text.hex(out),
    }
}

/// The text with a space and a number for each of these.
fn listed(text: &mut TextLine, numbers: &[u32])
    requires start { length text.old ≤ 64 }
    requires few { length numbers.now ≤ 17 }
    ensures text { text.new ≡ text.old ++ flat_map (λ n. 32 ∷ decimal n) numbers.now }
    ensures room { length text.new ≤ 500 }
{
    for number in numbers {
        text.number(u64::from(*number));
    }
}

/// A word and a number.
fn numbered(text: &mut TextLine, word: &[u8], number: u64)
    requires { length word.now ≤ 16 }
    ensures text { text.new ≡ word.now ++ 32 ∷ decimal number }
    ensures room { length text.new ≤ 37 }
{
    text.begin(word);
    text.number(number);
}

/// A word, an activation and a name.
fn named(text: &mut TextLine, word: &[u8], activation: u32, name: &[u8])
    requires word { length word.now ≤ 16 }
    requires name { length name.now ≤ 31 }
    ensures text { text.new ≡ word.now ++ 32 ∷ decimal activation ++ 32 ∷ name.now }
    ensures room { length text.new ≤ 69 }
{
    numbered(text, word, u64::from(activation));
    text.word(name);
}
