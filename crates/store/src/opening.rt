// How an opening begins: the disk is synced, and the header is read.
ghost use Rattle.std.specs.Prelude.{IfOk, OnOk};
ghost use Rattle.store.specs.Below.{AsksSo, FailsOnlyCounted, HasHeader, MakesSure, ReadsTold, SyncsBy, total};
ghost use Rattle.store.specs.Held.{HoldsAtLeast};
ghost use Rattle.store.specs.Faults.{AsksAtStart};

use super::open_fault::OpenFault;
use outside::{Failed, Outside};
use store_format::{Header, HeaderFault, read_header};

/// Makes the disk's bytes sure, and reads the header.
pub fn start<W: Outside>(outside: &mut W) -> Result<Header, OpenFault>
    ensures asks { AsksAtStart W.Outside outside.old outside.new result }
    ensures sure { OnOk result (MakesSure W.Outside outside.old outside.new) }
    ensures room { IfOk result (λ header. HoldsAtLeast W.Outside (total header) outside.new) }
    ensures header { ReadsTold W.Outside outside.old HasHeader result }
{
    match synced(outside) {
        Err(Failed) => return Err(OpenFault::DiskFault),
        Ok(()) => {}
    }
    match read_header(outside) {
        Err(HeaderFault::NotAStore(offset)) => Err(OpenFault::NotAStore(offset)),
        Err(HeaderFault::DiskFault) => Err(OpenFault::DiskFault),
        Ok(header) => Ok(header),
    }
}

/// Makes the disk's bytes sure.
pub fn synced<W: Outside>(outside: &mut W) -> Result<(), Failed>
    ensures asks { AsksSo W.Outside (SyncsBy result) outside.old outside.new }
    ensures sure { OnOk result (MakesSure W.Outside outside.old outside.new) }
    ensures cause { FailsOnlyCounted (W.disk_faults outside.old) (W.disk_faults outside.new) result }
{
    outside.sync()
}
