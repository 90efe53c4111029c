// A session over a store that is open.
ghost use Rattle.std.specs.Prelude.{◌≡◌, ◌≢◌, ◌≤◌, ◌<◌, ◌^◌, ◌-◌, IfOk, IfErr, OnOk};
ghost use Rattle.outside.specs.Deeds.{SyncsBy};
ghost use Rattle.outside.specs.Runs.{AsksSo};
ghost use Rattle.store.specs.Faults.{IsStoreOpenFault};

use activations::Activations;
use desk::Committed;
use flat_machine::{Printed, Program};
use outside::Outside;
use std::alloc::Global;
use std::marker::Model;
use store::{Durable, OpenFault};

/// What answers the events of a schedule: a store that is open, what runs over it, and the commits so far. All memory is taken
/// when it is opened.
#[derive(Drop)]
pub struct Session {
    pub(super) state: SessionState,
}

/// What a session is made of: how many turns were asked of it, and whether it is closed, beside what runs.
#[derive(Drop)]
pub struct SessionState {
    pub(super) store: Durable,
    pub(super) activations: Activations,
    pub(super) order: Vec<Committed>,
    pub(super) printed: Printed,
    pub(super) opened: u64,
    pub(super) begins: u32,
    pub(super) turns: u64,
    pub(super) closed: bool,
}

impl Model for Session {
    ghost use Rattle.session.specs.declared.session.SessionState.{SessionState};
    ghost use Rattle.session.specs.Session.{IsSessionSound};

    ghost Value = { SessionState };

    ghost view = { λ s. s.state };

    ghost invariant = { λ s. IsSessionSound s.state };
}

impl Session {
    ghost use Rattle.session.specs.Opened.{MadeBy};

    /// A session over the store that the disk holds, with so many frames for its pages, for so many begins of these programs.
    /// It asks one sync of the disk, and reads no home line.
    ///
    /// # Errors
    ///
    /// As [`Durable::open`].
    pub fn open<W: Outside>(
        alloc: Global,
        outside: &mut W,
        programs: Vec<Program>,
        frames: u16,
        begins: u32,
    ) -> Result<Session, OpenFault>
        requires frames { 2 ≤ frames }
        requires few { frames ≤ 1024 }
        requires begins { begins < 2 ^ 32 - 1 }
        ensures asks { AsksSo W.Outside (SyncsBy result) outside.old outside.new }
        ensures unfailed { OnOk result (W.disk_faults outside.new ≡ W.disk_faults outside.old) }
        ensures fault { IfErr result (IsStoreOpenFault W.Outside outside.old outside.new) }
        ensures calm { IfErr result (λ fault. fault ≢ OpenFault.DiskFault → W.disk_faults outside.new ≡ W.disk_faults outside.old) }
        ensures made { IfOk result (MadeBy W.Outside programs.items frames begins outside.old outside.new) }
    {
        let store = Durable::open(alloc, outside)?;
        let printed = Printed::new(alloc)?;
        let order = Vec::with_capacity(alloc, begins as usize)?;
        let activations = Activations::new(alloc, store.header(), frames, programs)?;
        activations.sound();
        let opened = store.number();
        let state = SessionState {
            store,
            activations,
            order,
            printed,
            opened,
            begins,
            turns: 0,
            closed: false,
        };
        Ok(Session { state })
    }
}
