// The two banks: commits that make their own room, and the move from one to the other.
ghost use Rattle.std.specs.Prelude.{◌≡◌, ◌≢◌, ◌+◌, ◌≤◌, ◌<◌, [], length, slice_get, Some, None, IfSome, IfOk, IfErr, OnOk, is_err, false};
ghost use Rattle.store.specs.Below.{IfTold, line_bytes, ReadsTold, total};
ghost use Rattle.store.specs.Kept.{BankView, area_end, bank_number, with_line, spoilt, line_bytes_of, SameShape};
ghost use Rattle.store.specs.Held.{HoldsAtLeast};
ghost use Rattle.store.specs.Appended.{Appends, CanAppend, IsUsable, TakesLine};
ghost use Rattle.store.specs.Chosen.{other, AsksBanksAgain, AsksOfBanks, IsChosen, IsStoreLike};
ghost use Rattle.store.specs.Opened.{FailsByDisk, IsBankOf, IsStartedAgain};
ghost use Rattle.store.specs.Committed.{emptied, roomy, Checkpoints, Commits, Moves, store_bytes};

use super::keep::{Appended, Kept};
use super::open_fault::{OpenFault, ReopenFault};
use super::redo_journal::Bank;
use crate::home::write_home;
use crate::selector::{other_of, read_selector, write_selector};
use outside::{Failed, Outside};
use std::alloc::Global;
use std::marker::Model;
use store_format::{Header, Which};

/// The two banks of a store, of which the selector chooses one, with a buffer of one line for a checkpoint: it is seen
/// as the bank that is chosen (docs/MODEL.md, "A bank that is kept").
#[derive(Drop)]
pub struct Banks {
    bank: Bank,
    line: Vec<u8>,
}

impl Model for Banks {
    ghost use Rattle.std.specs.Prelude.{◌≡◌, vec_len};
    ghost use Rattle.store.specs.Kept.{BankView, line_bytes_of};

    ghost Value = { BankView };

    ghost view = { λ b. b.bank };

    ghost invariant = { λ b. vec_len b.line ≡ line_bytes_of b.bank };
}

impl Banks {
    /// Reads the selector and the bank that it chooses, of a store with this header.
    ///
    /// # Errors
    ///
    /// [`OpenFault::Damaged`] only where the chosen bank has a fault, with its offset; [`OpenFault::DiskFault`]
    /// only where the disk's count rose; [`OpenFault::Memory`] where there was none. Never [`OpenFault::NotAStore`]
    /// (docs/FORMATS.md, "What an image stands for").
    pub fn open<W: Outside>(
        alloc: Global,
        header: &Header,
        outside: &mut W,
    ) -> Result<Banks, OpenFault>
        requires room { HoldsAtLeast W.Outside (total header.now) outside.old }
        ensures asks { AsksOfBanks W.Outside header.now outside.old outside.new result }
        ensures opened { IfOk result (λ bank. IsBankOf header.now bank.which bank) }
        ensures read { ReadsTold W.Outside outside.old IsChosen result }
        ensures usable { IfOk result (λ bank. bank.spoiled ≡ false) }
    {
        let which = match read_selector(outside) {
            Err(Failed) => return Err(OpenFault::DiskFault),
            Ok(which) => which,
        };
        match Bank::open(alloc, header, which, outside) {
            Err(fault) => Err(fault),
            Ok(bank) => with_buffer(alloc, header, bank),
        }
    }

    /// Reads the selector and the bank that it chooses again. No record is begun after any answer. After an error they
    /// are spoiled.
    ///
    /// # Errors
    ///
    /// [`ReopenFault::Damaged`] only where the chosen bank has a fault, with its offset, and never after this
    /// value's own calls over an honest outside that tells its bytes; [`ReopenFault::DiskFault`] only where the disk's
    /// count rose.
    pub fn reopen<W: Outside>(&mut self, outside: &mut W) -> Result<(), ReopenFault>
        requires room { HoldsAtLeast W.Outside (store_bytes self.old) outside.old }
        ensures asks { AsksBanksAgain W.Outside self.old outside.old outside.new result }
        ensures kept { IsStartedAgain self.old self.new result }
        ensures read { OnOk result (IfTold W.Outside outside.old (λ held. IsChosen held self.new)) }
        ensures intact { FailsByDisk W.Outside (λ held. IsStoreLike held self.old) outside.old result }
    {
        match read_selector(outside) {
            Err(Failed) => {
                self.bank.spoil();
                Err(ReopenFault::DiskFault)
            }
            Ok(which) => self.bank.reopen(which, outside),
        }
    }

    /// The bank that the selector chooses.
    pub fn chosen(&self) -> &Bank
        ensures { result.now ≡ self.now }
    {
        &self.bank
    }

    /// The number that the chosen bank's records lead to.
    pub fn number(&self) -> u64
        ensures { result ≡ bank_number self.now }
    {
        self.bank.number()
    }

    /// The place on the disk of a line's newest bytes; none where no record of the chosen bank holds the line.
    pub fn newest(&self, line: u32) -> Option<u64>
        requires { line < length self.now.newest }
        ensures place { slice_get self.now.newest line ≡ Some result }
        ensures within { IfSome result (λ at. at + line_bytes_of self.now ≤ area_end self.now) }
    {
        self.bank.newest(line)
    }

    /// The bytes of a line of the store.
    #[inline(always)]
    pub fn line_bytes(&self) -> usize
        ensures { result ≡ line_bytes_of self.now }
    {
        self.line.len()
    }

    /// Begins a record, in place of any other that was begun.
    pub fn record_start(&mut self)
        ensures { self.new ≡ record self.old { begun = Some [] } }
    {
        self.bank.record_start();
    }

    /// Are spoiled, with no record begun: they have to be reopened before they read or write.
    pub fn spoil(&mut self)
        ensures { self.new ≡ spoilt self.old }
    {
        self.bank.spoil();
    }

    /// Adds a line to the record that is begun: a line of the store, above those before it.
    pub fn record_line(&mut self, line: u32, bytes: &[u8])
        requires { TakesLine self.old line bytes.now }
        ensures { self.new ≡ with_line self.old line bytes.now }
    {
        self.bank.record_line(line, bytes);
    }

    /// Adds the record that is begun to the chosen bank, as [`Bank::append`] does. After [`Appended::Unwritten`] and
    /// [`Appended::Doubt`] the banks are spoiled (docs/FORMATS.md, "Protocols").
    pub fn append<W: Outside>(&mut self, outside: &mut W) -> Appended
        requires { CanAppend W.Outside (area_end self.old) self.old outside.old }
        ensures { Appends W.Outside self.old self.new outside.old outside.new result }
    {
        self.bank.append(outside)
    }

    /// Adds the record that is begun and makes it durable, after a checkpoint where it doesn't fit the rest of the bank. It
    /// takes no memory. No record is begun afterwards. After [`Kept::Unwritten`] and [`Kept::Doubt`] the banks are
    /// spoiled (docs/FORMATS.md, "Protocols").
    pub fn commit<W: Outside>(&mut self, outside: &mut W) -> Kept
        requires { CanAppend W.Outside (store_bytes self.old) self.old outside.old }
        ensures { Commits W.Outside (roomy self.old) self.old self.new outside.old outside.new result }
    {
        match self.append(outside).kept() {
            Some(kept) => kept,
            None => self.commit_behind_checkpoint(outside),
        }
    }

    /// Makes room by a checkpoint, and adds the record that is begun then. Where the checkpoint fails the record isn't
    /// written.
    fn commit_behind_checkpoint<W: Outside>(&mut self, outside: &mut W) -> Kept
        requires { CanAppend W.Outside (store_bytes self.old) self.old outside.old }
        ensures { Commits W.Outside (emptied self.old) self.old self.new outside.old outside.new result }
    {
        match self.checkpoint(outside) {
            Err(Failed) => Kept::Unwritten,
            Ok(()) => self.append(outside).kept().unwrap_or(Kept::Unwritten),
        }
    }

    /// Writes the newest bytes of each line that the chosen bank holds home, and makes the other bank the chosen one,
    /// with the number as its base and no records. It takes no memory. A begun record stays begun where this goes
    /// well, and then it fits; where it fails no record is begun, and the banks are spoiled (docs/FORMATS.md,
    /// "Protocols").
    ///
    /// # Errors
    ///
    /// Only where the disk's count rose.
    pub fn checkpoint<W: Outside>(&mut self, outside: &mut W) -> Result<(), Failed>
        requires { IsUsable W.Outside (store_bytes self.old) self.old outside.old }
        ensures { Checkpoints W.Outside self.old self.new outside.old outside.new result }
    {
        let which = other_of(self.bank.which());
        match move_to(&self.bank, self.line.as_mut_slice(), which, outside) {
            Err(Failed) => {
                self.bank.spoil();
                Err(Failed)
            }
            Ok(()) => {
                self.bank.turn_to(which);
                Ok(())
            }
        }
    }
}

/// The banks of a store with this header, of which one is chosen, with room for a line.
fn with_buffer(alloc: Global, header: &Header, bank: Bank) -> Result<Banks, OpenFault>
    requires { line_bytes header.now.directory.page ≡ line_bytes_of bank }
    ensures value { IfOk result (λ banks. banks ≡ bank) }
    ensures fault { IfErr result (λ fault. fault ≡ OpenFault.Memory) }
{
    let line = vec![in alloc; 0; header.line_bytes()]?;
    Ok(Banks { bank, line })
}

/// Moves what a bank holds home, through a buffer of one line, and lets the selector choose the other bank.
fn move_to<W: Outside>(
    bank: &Bank,
    buffer: &mut [u8],
    which: Which,
    outside: &mut W,
) -> Result<(), Failed>
    requires bank { IsUsable W.Outside (store_bytes bank.now) bank.now outside.old }
    requires whole { length buffer.old ≡ line_bytes_of bank.now }
    requires other { which ≡ other bank.now.which }
    ensures { Moves W.Outside bank.now outside.old outside.new result }
{
    write_home(bank, buffer, outside)?;
    bank.write_head(which, outside)?;
    outside.sync()?;
    write_selector(outside, which)
}
