ghost use Rattle.std.specs.Prelude.{◌≡◌, ℕ, ◌+◌, ◌*◌, ◌≤◌, ◌<◌, ◌^◌, ◌++◌, [], length, map, position, is_some, Some, Ok, OnOk, IfOk, IfSome};
ghost use Rattle.std.specs.Option.{option_map};
ghost use Rattle.job_text.specs.Below.{bytes_eq, place_among};
ghost use Rattle.job_text.specs.Reading.{bad_token, four_of, is_end, is_limit, is_part, rounds_of, turns_to, values_of};

use super::job::{JobFault, Name};
use super::stage::Stage;
use asm_parse::{LineFault, Statements, Token, Word, tokens_into};
use desk::Event;
use flat_machine::Program;
use romp_asm::link;
use std::alloc::{AllocError, Global};
use std::mem;

/// A line of another form than those that are due.
pub(crate) const FORM: u8 = 10;
/// A number out of its range, a program or an event too many.
const LIMIT: u8 = 11;
/// No program has the name.
const UNKNOWN_PROGRAM: u8 = 12;
/// A program has the name already.
const DUPLICATE_PROGRAM: u8 = 13;
/// No begin before makes the activation.
const UNKNOWN_ACTIVATION: u8 = 14;

/// The most sources of a program.
const MOST_SOURCES: usize = 16;
/// The most programs of a job.
const MOST_PROGRAMS: usize = 64;
/// The most events of a job.
const MOST_EVENTS: usize = 10_000;

/// What has been read of a job.
#[derive(Drop)]
pub(crate) struct Reader {
    pub stage: Stage,
    pub frames: u16,
    pub names: Vec<Name>,
    pub programs: Vec<Program>,
    /// The sources that have ended of the program that is being read.
    pub sources: Vec<Statements>,
    /// The statements of its source at hand.
    pub statements: Statements,
    pub events: Vec<Event>,
    /// How many of the events are begins.
    pub begins: u32,
    ghost names_few: { length names.items ≤ 64 },
    ghost events_few: { length events.items ≤ 10000 },
    ghost begins_few: { begins ≤ length events.items },
}

impl Reader {
    ghost use Rattle.romp_asm.specs.Linked.{linked};
    ghost use Rattle.job_text.specs.Reading.{begin_line, begin_of, drain_line, ended_line, frames_line, line_read, nothing_read, program_begins, program_ends, programs_line, schedule_line, single_line, source_ends, sources_of, turn_line, with_event};
    ghost use Rattle.job_text.specs.Reader.{IsReadingOf, AreTokensRead, found_read, held, reading_of, source_found, tokens_read};

    /// Nothing yet.
    pub fn new(alloc: Global) -> Self
        ensures { reading_of result ≡ nothing_read }
    {
        Reader {
            stage: Stage::Frames,
            frames: 0,
            names: Vec::new(alloc),
            programs: Vec::new(alloc),
            sources: Vec::new(alloc),
            statements: Statements::new(alloc),
            events: Vec::new(alloc),
            begins: 0,
        }
    }

    /// Reads one line more, whose tokens lie in the room.
    #[tactic(auto, using(crate::proofs::LongLemmas::line_kept))]
    pub fn line(
        &mut self,
        alloc: Global,
        room: &mut Vec<Token>,
        number: u32,
        line: &[u8],
    ) -> Result<(), JobFault>
        requires { held self.old ≤ 2 ^ 30 }
        ensures read { IsReadingOf result self.new (line_read self.old.stage (reading_of self.old) number line.now) }
        ensures few { held self.new ≤ held self.old + 1 }
    {
        match tokens_into(room, line) {
            Ok(()) => self.found(alloc, number, room.as_slice()),
            Err(LineFault::Kind(kind)) => Err(JobFault::Fault {
                line: number,
                kind: bad_token(self.stage, kind),
            }),
            Err(LineFault::Memory) => Err(JobFault::Memory),
        }
    }

    /// Reads the tokens of one line more.
    fn found(&mut self, alloc: Global, number: u32, found: &[Token]) -> Result<(), JobFault>
        requires { held self.old ≤ 2 ^ 30 }
        ensures read { IsReadingOf result self.new (found_read self.old.stage (reading_of self.old) number (Ok found.now)) }
        ensures few { held self.new ≤ held self.old + 1 }
    {
        if self.stage == Stage::Source {
            return self.source_line(alloc, number, found);
        }
        match self.tokens(found) {
            Ok(()) => Ok(()),
            Err(LineFault::Kind(kind)) => Err(JobFault::Fault { line: number, kind }),
            Err(LineFault::Memory) => Err(JobFault::Memory),
        }
    }

    /// Reads the tokens of a line that is no source line.
    fn tokens(&mut self, tokens: &[Token]) -> Result<(), LineFault>
        ensures read { AreTokensRead result self.new (tokens_read self.old.stage (reading_of self.old) tokens.now) }
        ensures few { held self.new ≤ held self.old }
    {
        match self.stage {
            Stage::Frames => self.frames_line(tokens),
            Stage::Programs => self.programs_line(tokens),
            Stage::Source => Ok(()),
            Stage::Schedule => self.schedule_line(tokens),
            Stage::Ended => self.ended_line(tokens),
        }
    }

    /// `frames FRAMES`.
    fn frames_line(&mut self, tokens: &[Token]) -> Result<(), LineFault>
        ensures read { AreTokensRead result self.new (frames_line (reading_of self.old) tokens.now) }
        ensures few { held self.new ≤ held self.old }
    {
        match tokens {
            [] => Ok(()),
            [Token::Word(word), Token::Number(count)] if word.as_str() == "frames" => {
                if *count < 2 || *count > 1024 {
                    return Err(LineFault::Kind(LIMIT));
                }
                self.stage = Stage::Programs;
                self.frames = *count as u16;
                Ok(())
            }
            _ => Err(LineFault::Kind(FORM)),
        }
    }

    /// `program NAME` or `schedule`.
    fn programs_line(&mut self, tokens: &[Token]) -> Result<(), LineFault>
        ensures read { AreTokensRead result self.new (programs_line (reading_of self.old) tokens.now) }
        ensures few { held self.new ≤ held self.old }
    {
        match tokens {
            [] => Ok(()),
            [Token::Word(word)] if word.as_str() == "schedule" => {
                self.stage = Stage::Schedule;
                Ok(())
            }
            [Token::Word(word), Token::Word(name)]
                if word.as_str() == "program" && name.is_label() => { self.program_begins(name) }
            _ => Err(LineFault::Kind(FORM)),
        }
    }

    /// A program of this name begins.
    fn program_begins(&mut self, name: &Word) -> Result<(), LineFault>
        ensures read { AreTokensRead result self.new (program_begins (reading_of self.old) name.now) }
        ensures few { held self.new ≤ held self.old }
    {
        if place_of(self.names.as_slice(), name.as_bytes()).is_some() {
            return Err(LineFault::Kind(DUPLICATE_PROGRAM));
        }
        if self.names.len() >= MOST_PROGRAMS {
            return Err(LineFault::Kind(LIMIT));
        }
        self.names.push(name_of(name))?;
        self.sources.clear();
        self.statements.clear();
        self.stage = Stage::Source;
        Ok(())
    }

    /// A line between `program` and its `end`.
    fn source_line(&mut self, alloc: Global, number: u32, found: &[Token]) -> Result<(), JobFault>
        requires { held self.old ≤ 2 ^ 30 }
        ensures read { IsReadingOf result self.new (source_found (reading_of self.old) number (Ok found.now)) }
        ensures few { held self.new ≤ held self.old + 1 }
    {
        if is_end(found) {
            return self.program_ends(alloc);
        }
        if is_part(found) {
            return match self.source_ends(alloc) {
                Ok(()) => Ok(()),
                Err(LineFault::Kind(kind)) => Err(JobFault::Fault { line: number, kind }),
                Err(LineFault::Memory) => Err(JobFault::Memory),
            };
        }
        match self.statements.push_line(number, found) {
            Ok(()) => Ok(()),
            Err(LineFault::Kind(kind)) => Err(JobFault::Fault { line: number, kind }),
            Err(LineFault::Memory) => Err(JobFault::Memory),
        }
    }

    /// The `end` of a program.
    fn program_ends(&mut self, alloc: Global) -> Result<(), JobFault>
        requires { held self.old ≤ 2 ^ 30 }
        ensures read { IsReadingOf result self.new (program_ends (reading_of self.old) (linked (sources_of (reading_of self.old)))) }
        ensures few { held self.new ≤ held self.old }
    {
        let last = mem::replace(&mut self.statements, Statements::new(alloc));
        self.sources.push(last)?;
        let program = link(alloc, self.sources.as_slice())?;
        self.programs.push(program)?;
        self.reuse_room();
        self.stage = Stage::Programs;
        Ok(())
    }

    /// No source is at hand any more; the next is read into the room of the last.
    fn reuse_room(&mut self)
        ensures read { reading_of self.new ≡ record (reading_of self.old) { sources = []; statements = [] } }
        ensures few { held self.new ≡ 0 }
    {
        match self.sources.pop() {
            Some(last) => self.statements = last,
            None => {}
        }
        self.statements.clear();
        self.sources.clear();
    }

    /// A `.part`, which ends a source.
    fn source_ends(&mut self, alloc: Global) -> Result<(), LineFault>
        ensures read { AreTokensRead result self.new (source_ends (reading_of self.old)) }
        ensures few { held self.new ≤ held self.old }
    {
        if self.sources.len() + 1 >= MOST_SOURCES {
            return Err(LineFault::Kind(LIMIT));
        }
        let last = mem::replace(&mut self.statements, Statements::new(alloc));
        self.sources.push(last)?;
        Ok(())
    }

    /// An event, or the `end` of the schedule.
    fn schedule_line(&mut self, tokens: &[Token]) -> Result<(), LineFault>
        ensures read { AreTokensRead result self.new (schedule_line (reading_of self.old) tokens.now) }
        ensures few { held self.new ≡ held self.old }
    {
        match tokens {
            [] => Ok(()),
            [Token::Word(word)] => self.single_line(word.as_str()),
            [
                Token::Word(word),
                Token::Number(first),
                Token::Number(second),
            ] => match word.as_str() {
                "turn" => self.turn_line(*first, *second),
                "drain" => self.drain_line(*first, *second),
                _ => Err(LineFault::Kind(FORM)),
            },
            [Token::Word(word), Token::Word(name), values @ ..]
                if word.as_str() == "begin" && name.is_label() => { self.begin_line(name, values) }
            _ => Err(LineFault::Kind(FORM)),
        }
    }

    /// `end`, `checkpoint` or `crash`.
    fn single_line(&mut self, word: &str) -> Result<(), LineFault>
        ensures read { AreTokensRead result self.new (single_line (reading_of self.old) word.now) }
        ensures few { held self.new ≡ held self.old }
    {
        if word == "end" {
            self.stage = Stage::Ended;
            return Ok(());
        }
        if word == "checkpoint" {
            return self.add(Event::Checkpoint);
        }
        if word == "crash" {
            return self.add(Event::Crash);
        }
        Err(LineFault::Kind(FORM))
    }

    /// `begin NAME v ..`.
    fn begin_line(&mut self, name: &Word, values: &[Token]) -> Result<(), LineFault>
        ensures read { AreTokensRead result self.new (begin_line (reading_of self.old) name.now (values_of values.now)) }
        ensures few { held self.new ≡ held self.old }
    {
        let Some(args) = args_of(values) else {
            return Err(LineFault::Kind(FORM));
        };
        let Some(place) = place_of(self.names.as_slice(), name.as_bytes()) else {
            return Err(LineFault::Kind(UNKNOWN_PROGRAM));
        };
        if self.events.len() >= MOST_EVENTS {
            return Err(LineFault::Kind(LIMIT));
        }
        self.events.push(Event::Begin {
            program: place as u16,
            args,
        })?;
        self.begins += 1;
        Ok(())
    }

    /// `turn ACTIVATION ROWS`.
    fn turn_line(&mut self, activation: u32, limit: u32) -> Result<(), LineFault>
        ensures read { AreTokensRead result self.new (turn_line (reading_of self.old) activation limit) }
        ensures few { held self.new ≡ held self.old }
    {
        if activation < 1 || activation > self.begins {
            return Err(LineFault::Kind(UNKNOWN_ACTIVATION));
        }
        if !is_limit(limit) {
            return Err(LineFault::Kind(LIMIT));
        }
        self.add(Event::Turn { activation, limit })
    }

    /// `drain ROUNDS ROWS`.
    fn drain_line(&mut self, rounds: u32, limit: u32) -> Result<(), LineFault>
        ensures read { AreTokensRead result self.new (drain_line (reading_of self.old) rounds limit) }
        ensures few { held self.new ≡ held self.old }
    {
        if rounds < 1 || rounds > 10_000 || !is_limit(limit) {
            return Err(LineFault::Kind(LIMIT));
        }
        if self.events.len() as u64 + u64::from(rounds) * u64::from(self.begins) > 10_000 {
            return Err(LineFault::Kind(LIMIT));
        }
        drain(&mut self.events, rounds, self.begins, limit)?;
        Ok(())
    }

    /// Nothing after the schedule's `end`.
    fn ended_line(&mut self, tokens: &[Token]) -> Result<(), LineFault>
        ensures read { AreTokensRead result self.new (ended_line (reading_of self.old) tokens.now) }
        ensures few { held self.new ≤ held self.old }
    {
        match tokens {
            [] => Ok(()),
            _ => Err(LineFault::Kind(FORM)),
        }
    }

    /// One event more that is no begin.
    fn add(&mut self, event: Event) -> Result<(), LineFault>
        ensures read { AreTokensRead result self.new (with_event (reading_of self.old) event) }
        ensures few { held self.new ≡ held self.old }
    {
        if self.events.len() >= MOST_EVENTS {
            return Err(LineFault::Kind(LIMIT));
        }
        self.events.push(event)?;
        Ok(())
    }
}

/// The kind of a line whose token is bad: the token's between `program` and its `end`, and otherwise that of another form.
fn bad_token(stage: Stage, kind: u8) -> u8
    ensures { result ≡ bad_token stage kind }
{
    if stage == Stage::Source { kind } else { FORM }
}

/// Whether tokens are `end` alone.
fn is_end(tokens: &[Token]) -> bool
    ensures { result ≡ is_end (Ok tokens.now) }
{
    match tokens {
        [Token::Word(word)] => word.as_str() == "end",
        _ => false,
    }
}

/// Whether tokens are `.part` alone.
fn is_part(tokens: &[Token]) -> bool
    ensures { result ≡ is_part (Ok tokens.now) }
{
    match tokens {
        [Token::Word(word)] => word.as_str() == ".part",
        _ => false,
    }
}

/// Whether a number is a turn's limit.
fn is_limit(limit: u32) -> bool
    ensures { result ≡ is_limit limit }
{
    1 <= limit && limit <= 1_000_000
}

/// The values of a begin, filled up with zeros, if there are at most four and they are numbers.
fn args_of(values: &[Token]) -> Option<[u32; 4]>
    ensures { result ≡ option_map four_of (values_of values.now) }
{
    match values {
        [] => Some([0; 4]),
        [Token::Number(a)] => Some([*a, 0, 0, 0]),
        [Token::Number(a), Token::Number(b)] => Some([*a, *b, 0, 0]),
        [Token::Number(a), Token::Number(b), Token::Number(c)] => Some([*a, *b, *c, 0]),
        [
            Token::Number(a),
            Token::Number(b),
            Token::Number(c),
            Token::Number(d),
        ] => Some([*a, *b, *c, *d]),
        _ => None,
    }
}

/// A word as a name.
fn name_of(word: &Word) -> Name
    ensures { result.items ≡ word.now }
{
    let mut name = Name::new();
    let _ = name.try_extend_from_slice(word.as_bytes());
    name
}

/// The place of a name.
fn place_of(names: &[Name], word: &[u8]) -> Option<usize>
    ensures value { result ≡ place_among (map (λ name. name.items) names.now) word.now }
    ensures inside { IfSome result (λ place. place < length names.now) }
{
    first_named(names, word)
}

/// The place of the first of these names that a word is.
fn first_named(names: &[Name], word: &[u8]) -> Option<usize>
    ensures value { result ≡ position (λ name. bytes_eq name.items word.now) names.now }
    ensures inside { IfSome result (λ place. place < length names.now) }
{
    names.iter().position(|name| name.as_slice() == word)
}

/// Appends so many rounds of a turn for each activation from 1 to the last.
fn drain(events: &mut Vec<Event>, rounds: u32, last: u32, limit: u32) -> Result<(), AllocError>
    ensures value { OnOk result (events.new.items ≡ events.old.items ++ rounds_of limit last rounds) }
    ensures more { length events.old.items ≤ length events.new.items }
    ensures short { length events.new.items ≤ length events.old.items + rounds * last }
{
    for _round in 0..rounds {
        turns_to(events, last, limit)?;
    }
    Ok(())
}

/// Appends a turn for each activation from 1 to the last.
fn turns_to(events: &mut Vec<Event>, last: u32, limit: u32) -> Result<(), AllocError>
    ensures value { OnOk result (events.new.items ≡ events.old.items ++ turns_to limit last) }
    ensures more { length events.old.items ≤ length events.new.items }
    ensures short { length events.new.items ≤ length events.old.items + last }
{
    for before in 0..last {
        events.push(Event::Turn {
            activation: before + 1,
            limit,
        })?;
    }
    Ok(())
}
