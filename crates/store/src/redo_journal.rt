// One bank, and the records that are added to it.
ghost use Rattle.std.specs.Prelude.{◌≡◌, ◌≢◌, ◌↔◌, ◌+◌, ◌*◌, ◌%◌, ◌≤◌, ◌<◌, ◌^◌, [], All, length, take, slice_set, slice_get, slice_range, is_some, Some, None, IsNone, IfSome, IfOk, IfErr, OnOk, is_err, false};
ghost use Rattle.std.specs.List.{list_any};
ghost use Rattle.store.specs.Below.{HasRanges, IfTold, ReadsTold, record_bytes, total};
ghost use Rattle.store.specs.Kept.{BankView, bank_place, end_of, end_with, area_end, bank_number, begun_of, needed_end, with_line, spoilt, line_bytes_of, record_bytes_of, SameShape};
ghost use Rattle.store.specs.Appended.{Appends, CanAppend, IsUsable, TakesLine};
ghost use Rattle.store.specs.Turned.{bank_turned, WritesHead};
ghost use Rattle.store.specs.Held.{HoldsAtLeast};
ghost use Rattle.store.specs.Places.{HaveNone};
ghost use Rattle.store.specs.Opened.{IsRead, IsBankOf, AsksBankAgain, AsksOfBank, IsStartedAgain};
ghost use Rattle.store.specs.Records.{ReadsRecord, ReadsLine};

use crate::bank_reading::{BankFound, read_bank};
use crate::find::{Record, read_line, read_record};
use crate::keep::{Appended, Kept, keep_body, write_once};
use crate::open_fault::{OpenFault, ReopenFault};
use crate::places::Places;
use crate::record_bytes::{fill, head_of_bank, note, word};
use lines::{OwnedList, PageSize};
use outside::{Failed, Outside};
use std::alloc::{AllocError, Global};
use std::marker::Model;
use store_format::{Header, Which, entries_bytes, entry_bytes};

/// One bank of a store: its base number and the place of its closed gate, the newest place of each line of the store,
/// and a record that is begun (docs/MODEL.md, "A bank that is kept"). One that is spoiled has to be reopened before it
/// reads or writes.
#[derive(Drop)]
pub struct Bank {
    which: Which,
    page: PageSize,
    bank_bytes: u32,
    base: u64,
    count: u32,
    gate: u64,
    newest: Places,
    begun: Option<u16>,
    spoiled: bool,
    body: OwnedList<u8>,
}

impl Model for Bank {
    ghost use Rattle.store.specs.Kept.{BankView};

    ghost Value = { BankView };

    ghost use Rattle.store.specs.Inside.{kept_of, IsWholeBank};

    ghost view = { kept_of };

    ghost invariant = { IsWholeBank };
}

impl Bank {
    /// Reads a bank of a store with this header.
    ///
    /// # Errors
    ///
    /// [`OpenFault::Damaged`] only where the bank has a fault, with its offset; [`OpenFault::DiskFault`] only where
    /// the disk's count rose; [`OpenFault::Memory`] where there was none. Never [`OpenFault::NotAStore`]
    /// (docs/FORMATS.md, "What an image stands for").
    pub fn open<W: Outside>(
        alloc: Global,
        header: &Header,
        which: Which,
        outside: &mut W,
    ) -> Result<Bank, OpenFault>
        requires room { HoldsAtLeast W.Outside (total header.now) outside.old }
        ensures asks { AsksOfBank W.Outside header.now which outside.old outside.new result }
        ensures opened { IfOk result (IsBankOf header.now which) }
        ensures read { ReadsTold W.Outside outside.old IsRead result }
        ensures usable { IfOk result (λ bank. bank.spoiled ≡ false) }
    {
        let mut bank = Bank::of_store(alloc, header)?;
        match bank.reopen(which, outside) {
            Err(ReopenFault::Damaged(offset)) => Err(OpenFault::Damaged(offset)),
            Err(ReopenFault::DiskFault) => Err(OpenFault::DiskFault),
            Ok(()) => Ok(bank),
        }
    }

    /// Room for a bank of a store with this header.
    fn of_store(alloc: Global, header: &Header) -> Result<Bank, AllocError>
        ensures shape { IfOk result (IsBankOf header.now Which.A) }
        ensures ranges { HasRanges header.now }
    {
        let bank_bytes = header.bank_bytes();
        let lines = header.directory().line_count() as usize;
        Ok(Bank {
            which: Which::A,
            page: header.directory().page(),
            bank_bytes,
            base: 0,
            count: 0,
            gate: 264,
            newest: Places::none(alloc, lines)?,
            begun: None,
            spoiled: true,
            body: OwnedList::from_vec(vec![in alloc; 0; bank_bytes as usize]?),
        })
    }

    /// Reads one of the store's banks again, in the room of this one. A begun record is forgotten. After an error it
    /// is spoiled.
    ///
    /// # Errors
    ///
    /// [`ReopenFault::Damaged`] only where that bank has a fault, with its offset; [`ReopenFault::DiskFault`] only
    /// where the disk's count rose.
    pub fn reopen<W: Outside>(&mut self, which: Which, outside: &mut W) -> Result<(), ReopenFault>
        requires room { HoldsAtLeast W.Outside (end_of which self.old.bank_bytes) outside.old }
        ensures asks { AsksBankAgain W.Outside which self.old outside.old outside.new result }
        ensures kept { IsStartedAgain self.old self.new result }
        ensures turned { OnOk result (self.new.which ≡ which) }
        ensures read { OnOk result (IfTold W.Outside outside.old (λ held. IsRead held self.new)) }
    {
        self.newest.forget();
        let at = place_of(which, self.bank_bytes);
        self.which = which;
        self.count = 0;
        self.gate = at + 8;
        self.begun = None;
        self.spoiled = true;
        match read_bank(outside, &mut self.newest, self.page, at, self.bank_bytes) {
            Err(Failed) => Err(ReopenFault::DiskFault),
            Ok(BankFound::Faulty(offset)) => Err(ReopenFault::Damaged(offset)),
            Ok(BankFound::Holds { base, gate, count }) => {
                self.base = base;
                self.gate = gate;
                self.count = count;
                self.spoiled = false;
                Ok(())
            }
        }
    }

    /// Which bank it is.
    pub fn which(&self) -> Which
        ensures { result ≡ self.now.which }
    {
        self.which
    }

    /// The size of the store's pages.
    pub fn page(&self) -> PageSize
        ensures { result ≡ self.now.page }
    {
        self.page
    }

    /// The bytes of its record area.
    pub fn bank_bytes(&self) -> u32
        ensures value { result ≡ self.now.bank_bytes }
        ensures few { result ≤ 131072 }
    {
        self.bank_bytes
    }

    /// The number of the store's lines.
    pub fn lines(&self) -> u32
        ensures { result ≡ length self.now.newest }
    {
        self.newest.len() as u32
    }

    /// The number that the bank's records go on from.
    pub fn base(&self) -> u64
        ensures { result ≡ self.now.base }
    {
        self.base
    }

    /// How many records the bank has.
    pub fn records(&self) -> u32
        ensures { result ≡ self.now.count }
    {
        self.count
    }

    /// The number that the bank's records lead to.
    pub fn number(&self) -> u64
        ensures { result ≡ bank_number self.now }
    {
        number_of(self.base, self.count)
    }

    /// The place on the disk of a line's newest bytes; none where no record of the bank holds the line.
    pub fn newest(&self, line: u32) -> Option<u64>
        requires { line < length self.now.newest }
        ensures place { slice_get self.now.newest line ≡ Some result }
        ensures within { IfSome result (λ at. at + line_bytes_of self.now ≤ area_end self.now) }
    {
        self.newest.as_slice()[line as usize]
    }

    /// The first line from one on that a record of the bank holds; as many as the store has where none does.
    pub(crate) fn first_held(&self, from: u32) -> u32
        requires { from ≤ length self.now.newest }
        ensures least { from ≤ result }
        ensures within { result ≤ length self.now.newest }
        ensures before { HaveNone self.now.newest from result }
    {
        self.newest.first_from(from as usize) as u32
    }

    /// Whether a record of the bank holds one of so many lines from a first on.
    #[inline(always)]
    pub fn holds_some(&self, first: u32, count: u32) -> bool
        requires { first + count ≤ length self.now.newest }
        ensures { result ≡ list_any is_some (slice_range self.now.newest first (first + count)) }
    {
        let from = first as usize;
        let places = &self.newest.as_slice()[from..from + count as usize];
        places.iter().any(|place| place.is_some())
    }

    /// How many lines a record may have to fit the rest of the bank; none where not even an empty one fits.
    pub fn room(&self) -> Option<u32>
        ensures none { IsNone result ↔ (area_end self.now < end_with self.now 0) }
        ensures fits { IfSome result (λ lines. end_with self.now lines ≤ area_end self.now) }
        ensures most { IfSome result (λ lines. area_end self.now < end_with self.now (lines + 1)) }
    {
        let left = end_of(self.which, self.bank_bytes) - self.gate;
        if left < 12 {
            None
        } else {
            Some(((left - 12) / entry_bytes(self.page) as u64) as u32)
        }
    }

    /// The record whose gate lies at a place of the area: at 0 the first, and where one was found, at what lies after it
    /// the next. One that with a gate after it doesn't fit the area is given with no lines and nothing after it; where
    /// the disk's bytes are told and are those of the bank, there is none such.
    ///
    /// # Errors
    ///
    /// Only where the disk's count rose.
    pub fn record_at<W: Outside>(&self, outside: &mut W, place: u32) -> Result<Record, Failed>
        requires bank { IsUsable W.Outside (area_end self.now) self.now outside.old }
        requires inside { place < self.now.bank_bytes }
        ensures { ReadsRecord W.Outside self.now.page self.now.bank_bytes self.now place outside.old outside.new result }
    {
        let area = place_of(self.which, self.bank_bytes) + 8;
        read_record(outside, self.page, area, self.bank_bytes, place)
    }

    /// A line of a record that fits the area: its number, and its bytes into the slice.
    ///
    /// # Errors
    ///
    /// Only where the disk's count rose.
    pub fn line_at<W: Outside>(
        &self,
        outside: &mut W,
        of: &Record,
        index: u16,
        into: &mut [u8],
    ) -> Result<u32, Failed>
        requires bank { IsUsable W.Outside (area_end self.now) self.now outside.old }
        requires fits { of.now.place + record_bytes_of self.now of.now.count < self.now.bank_bytes }
        requires below { index < of.now.count }
        requires whole { length into.old ≡ line_bytes_of self.now }
        ensures { ReadsLine W.Outside self.now of.now index into.new outside.old outside.new result }
    {
        let gate = place_of(self.which, self.bank_bytes) + 8 + u64::from(of.place);
        let at = gate + 11 + u64::from(entries_bytes(self.page, index));
        read_line(outside, self.page, at, into)
    }

    /// Writes the head of the store's other bank: the number as its base, and a closed gate.
    ///
    /// # Errors
    ///
    /// Only where the disk's count rose.
    pub fn write_head<W: Outside>(&self, which: Which, outside: &mut W) -> Result<(), Failed>
        requires bank { IsUsable W.Outside (end_of which self.now.bank_bytes) self.now outside.old }
        requires other { self.now.which ≢ which }
        ensures { WritesHead W.Outside self.now which outside.old outside.new result }
    {
        let head = head_of_bank(number_of(self.base, self.count));
        write_once(outside, place_of(which, self.bank_bytes), &head)
    }

    /// Becomes the bank at a place, with the number as its base and no records. A begun record stays begun. It calls
    /// no disk.
    pub fn turn_to(&mut self, which: Which)
        ensures shape { SameShape self.old self.new }
        ensures turned { self.new ≡ bank_turned which self.old }
        ensures fits { needed_end self.new ≤ area_end self.new }
    {
        self.base = number_of(self.base, self.count);
        self.which = which;
        self.count = 0;
        self.gate = place_of(which, self.bank_bytes) + 8;
        self.newest.forget();
    }

    /// Begins a record, in place of any other that was begun.
    pub fn record_start(&mut self)
        ensures { self.new ≡ record self.old { begun = Some [] } }
    {
        self.begun = Some(0);
    }

    /// Is spoiled, with no record begun: it has to be reopened before it reads or writes.
    pub fn spoil(&mut self)
        ensures { self.new ≡ spoilt self.old }
    {
        self.begun = None;
        self.spoiled = true;
    }

    /// Adds a line to the record that is begun: a line of the store, above those before it.
    pub fn record_line(&mut self, line: u32, bytes: &[u8])
        requires { TakesLine self.old line bytes.now }
        ensures { self.new ≡ with_line self.old line bytes.now }
    {
        let begun = self.begun.unwrap();
        let at = 10 + entries_bytes(self.page, begun) as usize;
        self.body.write(at, &word(line));
        self.body.write(at + 4, bytes);
        self.begun = Some(begun + 1);
    }

    /// Adds the record that is begun to the bank, and makes it durable. Full where the record and the gate after it don't
    /// fit the rest of the bank: nothing is written, and the record stays begun. After any other answer no record is,
    /// and after [`Appended::Unwritten`] and [`Appended::Doubt`] the bank is spoiled (docs/FORMATS.md, "Protocols").
    pub fn append<W: Outside>(&mut self, outside: &mut W) -> Appended
        requires { CanAppend W.Outside (area_end self.old) self.old outside.old }
        ensures { Appends W.Outside self.old self.new outside.old outside.new result }
    {
        let begun = self.begun.unwrap();
        let bytes = 11 + u64::from(entries_bytes(self.page, begun));
        if end_of(self.which, self.bank_bytes) < self.gate + bytes + 1 {
            return Appended::Full;
        }
        let due = number_of(self.base, self.count).wrapping_add(1);
        self.begun = None;
        fill(&mut self.body, self.page, begun, due);
        match keep_body(outside, self.gate, record_of(&self.body, self.page, begun)) {
            Kept::Done => {
                note(
                    &mut self.newest,
                    self.body.as_slice(),
                    self.page,
                    self.gate,
                    begun,
                );
                self.gate += bytes;
                self.count += 1;
                Appended::Done
            }
            Kept::Unwritten => {
                self.spoiled = true;
                Appended::Unwritten
            }
            Kept::Doubt => {
                self.spoiled = true;
                Appended::Doubt
            }
        }
    }
}

/// The number that so many records after a base lead to.
fn number_of(base: u64, count: u32) -> u64
    ensures { result ≡ (base + count) % 2 ^ 64 }
{
    base.wrapping_add(u64::from(count))
}

fn place_of(which: Which, bank_bytes: u32) -> u64
    requires { bank_bytes ≤ 131072 }
    ensures value { result ≡ bank_place which bank_bytes }
    ensures end { result + 8 + bank_bytes ≡ end_of which bank_bytes }
    ensures bound { result ≤ 2 ^ 18 }
{
    match which {
        Which::A => 256,
        Which::B => 264 + u64::from(bank_bytes),
    }
}

/// Where the area of a bank ends.
fn end_of(which: Which, bank_bytes: u32) -> u64
    requires { bank_bytes ≤ 131072 }
    ensures value { result ≡ end_of which bank_bytes }
    ensures bound { result ≤ 2 ^ 19 }
{
    match which {
        Which::A => 264 + u64::from(bank_bytes),
        Which::B => 272 + 2 * u64::from(bank_bytes),
    }
}

/// The bytes of a record of so many lines, without its gate.
fn record_of(body: &OwnedList<u8>, page: PageSize, count: u16) -> &[u8]
    requires { record_bytes page count ≤ length body.now }
    ensures { result.now ≡ take (record_bytes page count) body.now }
{
    &body.as_slice()[..11 + entries_bytes(page, count) as usize]
}
