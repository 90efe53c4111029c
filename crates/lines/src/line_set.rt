ghost use Rattle.std.specs.Prelude.{◌≡◌, ◌==◌, ◌<◌, ◌≤◌, ◌∷◌, [], length, MatchOption};
ghost use Rattle.std.specs.List.{list_any};
ghost use Rattle.lines.specs.LineSets.{lines_of_bits, union, difference, between, IsOfPage};

use std::marker::Model;

/// Some of the sixteen lines of a page, seen as the list of them, ascending (docs/MODEL.md). Line i is bit i.
#[derive(Clone, Copy)]
pub struct LineSet(u16);

impl Model for LineSet {
    ghost use Rattle.std.specs.Prelude.{ℕ, List, ◌<◌};

    ghost Value = { List ℕ };

    ghost use Rattle.lines.specs.LineSets.{lines_of_bits, bits_of};
    ghost use Rattle.lines.specs.LineBits.{bits-again};

    ghost view = { λ set. lines_of_bits set.0 };

    ghost invariant = { λ set. set.0 < 65536 };

    ghost inverse = { λ lines. record { 0 = bits_of lines } };

    ghost inverse_ok = { λ set small. bits-again set small };
}

impl LineSet {
    /// No line.
    #[tactic(auto, using(crate::proofs::LineSetLemmas::no_bits))]
    pub fn none() -> LineSet
        ensures { result ≡ [] }
    {
        LineSet(0)
    }

    /// The lines whose bit is on.
    pub fn from_bits(bits: u16) -> LineSet
        ensures { result ≡ lines_of_bits bits }
    {
        LineSet(bits)
    }

    /// The lines from a first to a last.
    #[tactic(auto, using(crate::proofs::LineSetLemmas::between_bits))]
    pub fn between(first: u8, last: u8) -> LineSet
        requires order { first ≤ last }
        requires last { last < 16 }
        ensures { result ≡ between first last }
    {
        LineSet((u16::MAX >> (15 - last)) & (u16::MAX << first))
    }

    /// The number in which the bits of these lines are on.
    pub fn bits(self) -> u16
        ensures { lines_of_bits result ≡ self }
    {
        self.0
    }

    /// Whether a line is among them.
    pub fn contains(self, line: u8) -> bool
        requires { line < 16 }
        ensures value { result ≡ list_any (λ x. x == line) self }
        ensures of_page { IsOfPage self }
    {
        (self.0 >> line) & 1 == 1
    }

    /// The lines that are in this set or in the other.
    pub fn union(self, other: LineSet) -> LineSet
        ensures { result ≡ union self other }
    {
        LineSet(self.0 | other.0)
    }

    /// The lines that are in this set and not in the other.
    #[tactic(auto, using(crate::proofs::LineSetLemmas::difference_bits, std::proofs::lemmas::Bool::Decides::nat_tests))]
    pub fn difference(self, other: LineSet) -> LineSet
        ensures { result ≡ difference self other }
    {
        LineSet(self.0 & !other.0)
    }

    /// Whether there is no line.
    pub fn is_empty(self) -> bool
        ensures value { result ≡ (length self == 0) }
        ensures of_page { IsOfPage self }
    {
        self.0 == 0
    }

    /// The number of lines.
    pub fn count(self) -> u32
        ensures value { result ≡ length self }
        ensures small { result ≤ 16 }
        ensures of_page { IsOfPage self }
    {
        self.0.count_ones()
    }

    /// The lines one after another, ascending.
    #[tactic(auto, using(crate::proofs::LineSetLemmas::of_page_where))]
    pub fn lines(self) -> LinesOf
        ensures value { result.left ≡ self }
        ensures of_page { IsOfPage self }
    {
        let _bits = self.0;
        LinesOf { left: self }
    }

    /// Takes the first line away, if there is one.
    fn pop_first(&mut self) -> Option<u8>
        ensures { MatchOption result (self.old ≡ [] × self.new ≡ []) (λ line. self.old ≡ line ∷ self.new) }
    {
        if self.0 == 0 {
            return None;
        }
        let line = self.0.trailing_zeros();
        self.0 &= !(1 << line);
        Some(line as u8)
    }
}

/// The lines of a set that are left, one after another.
#[derive(Drop)]
pub struct LinesOf {
    pub left: LineSet,
}

impl Iterator for LinesOf {
    ghost use Rattle.std.specs.Iterator.{YieldsFirst, item_count};

    type Item = u8;

    ghost next_gives = { YieldsFirst (λ lines. lines.left) };

    ghost remaining = { item_count (λ lines. lines.left) };

    fn next(&mut self) -> Option<u8> {
        self.left.pop_first()
    }
}
