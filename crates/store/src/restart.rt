// A store that is open: header and banks, committed to and read again.
ghost use Rattle.std.specs.Prelude.{◌≡◌, ◌≢◌, ◌+◌, ◌*◌, ◌%◌, ◌^◌, ◌≤◌, ◌<◌, [], All, length, Some, None, IsTrue, IsSome, IfOk, OnOk, is_err, false};
ghost use Rattle.lines.specs.Directory.{page_count};
ghost use Rattle.store.specs.Below.{FailsOnlyCounted, line_bytes, line_count, OnlyAsks, page_bytes, record_bytes, total};
ghost use Rattle.store.specs.Appended.{CanAppend, IsUsable};
ghost use Rattle.store.specs.Held.{HoldsAtLeast};
ghost use Rattle.store.specs.Kept.{begun_of, with_line};
ghost use Rattle.store.specs.Records.{ReadsRecord, ReadsLine};
ghost use Rattle.store.specs.KeptStore.{store_number};
ghost use Rattle.store.specs.Shows.{CheckpointsStore, CommitsStore, IsOpened, IsPageShown, IsReadAgain, IsStoreWith};
ghost use Rattle.store.specs.Opened.{FailsByDisk, IsStartedAgain};
ghost use Rattle.store.specs.Faults.{AsksOfStore, AsksStoreAgain};

use super::checkpoint::Banks;
use super::find::Record;
use super::keep::Kept;
use super::open_fault::{OpenFault, ReopenFault};
use crate::newest_lines::read_newest;
use crate::opening::{start, synced};
use outside::{Failed, Outside};
use std::alloc::Global;
use std::marker::Model;
use store_format::{Header, lines_bytes};

/// A store on a disk: its header, and the bank that the selector chooses. It is what an opening found, with each
/// commit since (docs/MODEL.md, "A store that is open"). One that is spoiled has to be reopened before it reads or
/// writes.
#[derive(Drop)]
pub struct Durable {
    header: Header,
    banks: Banks,
}

impl Model for Durable {
    ghost use Rattle.store.specs.KeptStore.{StoreView, Fits};

    ghost Value = { StoreView };

    ghost view = { λ d. record { header = d.header; bank = d.banks } };

    ghost invariant = { λ d. Fits d.header d.banks };
}

impl Durable {
    /// Opens the store that the disk holds: it makes the disk's bytes sure and reads the header, the selector and the
    /// chosen bank. It reads no home line and writes nothing.
    ///
    /// # Errors
    ///
    /// [`OpenFault::NotAStore`] and [`OpenFault::Damaged`] only where the bytes have that fault, with its offset;
    /// [`OpenFault::DiskFault`] only where the disk's count rose; [`OpenFault::Memory`] where there was none
    /// (docs/FORMATS.md, "What an image stands for").
    pub fn open<W: Outside>(alloc: Global, outside: &mut W) -> Result<Durable, OpenFault>
        ensures asks { AsksOfStore W.Outside outside.old outside.new result }
        ensures opened { IfOk result (IsOpened W.Outside outside.old outside.new) }
    {
        let header = start(outside)?;
        match Banks::open(alloc, &header, outside) {
            Err(fault) => Err(fault),
            Ok(banks) => Ok(Durable { header, banks }),
        }
    }

    /// The header.
    pub fn header(&self) -> &Header
        ensures { result.now ≡ self.now.header }
    {
        &self.header
    }

    /// The number that the chosen bank's records go on from: that of the last checkpoint.
    pub fn base(&self) -> u64
        ensures { result ≡ self.now.bank.base }
    {
        self.banks.chosen().base()
    }

    /// How many records the chosen bank has.
    pub fn records(&self) -> u32
        ensures { result ≡ self.now.bank.count }
    {
        self.banks.chosen().records()
    }

    /// The number of the store: how many commits it has had, modulo 2 to the 64.
    pub fn number(&self) -> u64
        ensures { result ≡ store_number self.now }
    {
        self.banks.number()
    }

    /// Reads the disk again, under the header that is kept. No record is begun after any answer.
    ///
    /// # Errors
    ///
    /// [`ReopenFault::Damaged`] only where the chosen bank has a fault, with its offset, and never after this
    /// value's own calls over an honest outside that tells its bytes; [`ReopenFault::DiskFault`] only where the disk's
    /// count rose. After an error it is spoiled.
    pub fn reopen<W: Outside>(&mut self, outside: &mut W) -> Result<(), ReopenFault>
        requires room { HoldsAtLeast W.Outside (total self.old.header) outside.old }
        ensures asks { AsksStoreAgain W.Outside self.old.header outside.old outside.new result }
        ensures header { self.new.header ≡ self.old.header }
        ensures kept { IsStartedAgain self.old.bank self.new.bank result }
        ensures read { OnOk result (IsReadAgain W.Outside self.new outside.old outside.new) }
        ensures intact { FailsByDisk W.Outside (IsStoreWith self.old.header) outside.old result }
    {
        match synced(outside) {
            Err(Failed) => {
                self.banks.spoil();
                Err(ReopenFault::DiskFault)
            }
            Ok(()) => self.banks.reopen(outside),
        }
    }

    /// Begins a record, in place of any other that was begun.
    pub fn record_start(&mut self)
        ensures { self.new ≡ record self.old { bank = record self.old.bank { begun = Some [] } } }
    {
        self.banks.record_start();
    }

    /// Adds a line to the record that is begun: a line of the store, above those before it.
    pub fn record_line(&mut self, line: u32, bytes: &[u8])
        requires begun { IsSome self.old.bank.begun }
        requires whole { length bytes.now ≡ line_bytes self.old.header.directory.page }
        requires below { line < line_count self.old.header.directory }
        requires ascending { All (λ begun. begun.line < line) (begun_of self.old.bank) }
        requires room { record_bytes self.old.header.directory.page (length (begun_of self.old.bank) + 1) + 1 ≤ self.old.header.bank_bytes }
        ensures { self.new ≡ record self.old { bank = with_line self.old.bank line bytes.now } }
    {
        self.banks.record_line(line, bytes);
    }

    /// Adds the record that is begun and makes it durable, after a checkpoint where it doesn't fit the rest of the bank.
    /// It takes no memory. No record is begun afterwards. After [`Kept::Unwritten`] and [`Kept::Doubt`] the store is
    /// spoiled (docs/FORMATS.md, "Protocols").
    pub fn commit<W: Outside>(&mut self, outside: &mut W) -> Kept
        requires { CanAppend W.Outside (total self.old.header) self.old.bank outside.old }
        ensures { CommitsStore W.Outside self.old self.new outside.old outside.new result }
    {
        self.banks.commit(outside)
    }

    /// Writes home what the chosen bank holds, and makes the other bank the chosen one, without records. It takes no
    /// memory. After an error the store is spoiled (docs/FORMATS.md, "Protocols").
    ///
    /// # Errors
    ///
    /// Only where the disk's count rose.
    pub fn checkpoint<W: Outside>(&mut self, outside: &mut W) -> Result<(), Failed>
        requires { IsUsable W.Outside (total self.old.header) self.old.bank outside.old }
        ensures { CheckpointsStore W.Outside self.old self.new outside.old outside.new result }
    {
        self.banks.checkpoint(outside)
    }

    /// The record of the chosen bank whose gate lies at a place of its area: at 0 the first, and where one was found, at what
    /// lies after it the next. One that with a gate after it doesn't fit the area is given with no lines and nothing
    /// after it; where the disk's bytes are told and are those of the bank, there is none such.
    ///
    /// # Errors
    ///
    /// Only where the disk's count rose.
    pub fn record_at<W: Outside>(&self, outside: &mut W, place: u32) -> Result<Record, Failed>
        requires store { IsUsable W.Outside (total self.now.header) self.now.bank outside.old }
        requires inside { place < self.now.header.bank_bytes }
        ensures { ReadsRecord W.Outside self.now.header.directory.page self.now.header.bank_bytes self.now.bank place outside.old outside.new result }
    {
        self.banks.chosen().record_at(outside, place)
    }

    /// A line of a record that fits the area: its number, and its bytes into the slice.
    ///
    /// # Errors
    ///
    /// Only where the disk's count rose.
    pub fn line_at<W: Outside>(
        &self,
        outside: &mut W,
        of: &Record,
        index: u16,
        into: &mut [u8],
    ) -> Result<u32, Failed>
        requires store { IsUsable W.Outside (total self.now.header) self.now.bank outside.old }
        requires fits { of.now.place + record_bytes self.now.header.directory.page of.now.count < self.now.header.bank_bytes }
        requires below { index < of.now.count }
        requires whole { length into.old ≡ line_bytes self.now.header.directory.page }
        ensures { ReadsLine W.Outside self.now.bank of.now index into.new outside.old outside.new result }
    {
        self.banks.chosen().line_at(outside, of, index, into)
    }

    /// Reads a page of the committed store: its home lines, with the newest lines of the bank over them. It takes one
    /// call of the disk, and one for each line of the page that the bank holds.
    ///
    /// # Errors
    ///
    /// Only where the disk's count rose.
    pub fn read_page<W: Outside>(
        &self,
        outside: &mut W,
        page: u16,
        into: &mut [u8],
    ) -> Result<(), Failed>
        requires store { IsUsable W.Outside (total self.now.header) self.now.bank outside.old }
        requires page { page < page_count self.now.header.directory }
        requires whole { length into.old ≡ page_bytes self.now.header.directory.page }
        ensures asks { OnlyAsks W.Outside outside.old outside.new }
        ensures read { OnOk result (IsPageShown W.Outside self.now outside.old page into.new) }
        ensures cause { FailsOnlyCounted (W.disk_faults outside.old) (W.disk_faults outside.new) result }
    {
        let first = u32::from(page) * 16;
        outside.read_at(self.header.home_at(first), into)?;
        if !self.banks.chosen().holds_some(first, 16) {
            return Ok(());
        }
        let page = self.header.directory().page();
        for i in 0..16 {
            let at = lines_bytes(page, i) as usize;
            read_newest(&self.banks, outside, first + i, into, at)?;
        }
        Ok(())
    }
}
