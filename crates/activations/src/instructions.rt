// One instruction of who sits in a seat: it takes effect, once its access has been served where it must be.
ghost use Rattle.std.specs.Prelude.{◌≡◌, ◌+◌, ◌<◌, ◌≤◌, ◌^◌, true, length, IfErr, IfOk, OnOk};
ghost use Rattle.activations.specs.Below.{array_vec_len, has, IsOpen, lines_wanted, OnlyAsks};
ghost use Rattle.desk.specs.declared.answers.TurnEnd.TheVariants as end;

use super::activations::Activations;
use super::tally::Tally;
use super::touched_lines::TouchedLines;
use desk::TurnEnd;
use outside::{Failed, Outside};
use romp_cpu::{Access, Attempt};
use store::Durable;

/// How the next instruction of an activation went.
#[derive(Clone, Copy)]
pub enum StepWent {
    /// It took effect.
    On,
    /// It is the commit call.
    AtCommit,
}

impl Activations {
    ghost use Rattle.activations.specs.Words.{AreWanted, PagesComeIn, CanFetch, CanServe, ComesOut, CountsOne, CountsPages, CountsRefused, Disputes, EndsByDisk, EndsChecked, GoesServed, TallyHasRoom, IsInstruction, IsSeatSelected, IsLineShut, IsStepTaken, KeepsAll, KeepsParts, live_in, MayBeShut, MayGet, pages_picked, Prepares, rolled, ServesFree, SettlesAsked, StaysCalm, StaysSeated, wants_of, WillTouch, with_other_pool};

    /// The next instruction of who sits in a seat, which is selected. Its access may be known already not to be permitted. A
    /// row that takes effect isn't counted yet.
    ///
    /// # Errors
    ///
    /// The end of the turn: a check, or as [`Activations::serve`].
    pub(super) fn instruct<W: Outside>(
        &mut self,
        store: &Durable,
        outside: &mut W,
        seat: u8,
        shut: Option<Access>,
        tally: &mut Tally,
    ) -> Result<StepWent, TurnEnd>
        requires can { CanServe W.Outside self.old seat store.now outside.old }
        requires room { TallyHasRoom self.old tally.old }
        requires shut { MayBeShut self.old seat shut }
        ensures counts { CountsOne self.new tally.old tally.new }
        ensures came { ComesOut W.Outside store.now seat self.old self.new outside.old outside.new tally.old tally.new result IsStepTaken }
    {
        if let Some(access) = shut {
            self.serve(store, outside, seat, access, tally)?;
            return Ok(StepWent::On);
        }
        self.sound();
        match self.execute(seat) {
            Attempt::Went | Attempt::Print(_) => {
                self.sound();
                Ok(StepWent::On)
            }
            Attempt::Fault(_, access) => {
                self.serve(store, outside, seat, access, tally)?;
                Ok(StepWent::On)
            }
            Attempt::Commit => Ok(StepWent::AtCommit),
            Attempt::Check(code) => Err(self.check(seat, code)),
        }
    }

    /// Who sits in a seat, which is selected, gets what the access of his next row asks for, and the row takes effect. It isn't
    /// counted yet.
    ///
    /// # Errors
    ///
    /// The end of the turn: it asks for too many lines, a page can't be read, it waits, or it is a victim.
    pub(super) fn serve<W: Outside>(
        &mut self,
        store: &Durable,
        outside: &mut W,
        seat: u8,
        access: Access,
        tally: &mut Tally,
    ) -> Result<(), TurnEnd>
        requires can { CanServe W.Outside self.old seat store.now outside.old }
        requires room { TallyHasRoom self.old tally.old }
        requires shut { IsLineShut self.old seat access }
        ensures counts { CountsOne self.new tally.old tally.new }
        ensures came { ComesOut W.Outside store.now seat self.old self.new outside.old outside.new tally.old tally.new result IsInstruction }
    {
        let (touch, refused) = self.prepare(store, outside, seat, access, tally)?;
        self.ask(seat, &touch, tally)?;
        self.get(store, outside, seat, &touch, refused, tally)?;
        self.go_on(seat, &touch);
        Ok(())
    }

    /// The lines of an access, whose pages come in and are counted where their entries refuse one of them.
    ///
    /// # Errors
    ///
    /// The end of the turn: it asks for too many lines, or a page can't be read.
    #[inline(always)]
    fn prepare<W: Outside>(
        &mut self,
        store: &Durable,
        outside: &mut W,
        seat: u8,
        access: Access,
        tally: &mut Tally,
    ) -> Result<(TouchedLines, (bool, bool)), TurnEnd>
        requires can { CanServe W.Outside self.old seat store.now outside.old }
        requires shut { IsLineShut self.old seat access }
        requires tally { (tally.old.pages < 6000000) × (tally.old.locks < 2000000) }
        ensures may { IfOk result (λ got. MayGet self.new seat got.0 got.1) }
        ensures counts { CountsRefused tally.old tally.new }
        ensures came { ComesOut W.Outside store.now seat self.old self.new outside.old outside.new tally.old tally.new result Prepares }
    {
        let touch = self.touch_of(seat, access);
        self.keep_limit(seat, &touch)?;
        self.bring(store, outside, seat, &touch, tally)?;
        let refused = self.refused(seat, &touch);
        tally.locks += u32::from(refused.0) + u32::from(refused.1);
        Ok((touch, refused))
    }

    /// The pages of a touch come in.
    ///
    /// # Errors
    ///
    /// A page can't be read: who sits in the seat is rolled back, and no page is resident.
    #[inline(always)]
    pub(super) fn bring<W: Outside>(
        &mut self,
        store: &Durable,
        outside: &mut W,
        seat: u8,
        touch: &TouchedLines,
        tally: &mut Tally,
    ) -> Result<(), TurnEnd>
        requires can { CanFetch W.Outside self.old.reach.directory store.now outside.old }
        requires taken { has self.old.seating.taken seat ≡ true }
        requires wanted { AreWanted self.old.reach.directory (wants_of touch.now) }
        requires few { tally.old.pages + 2 < 2 ^ 32 }
        ensures asks { OnlyAsks W.Outside outside.old outside.new }
        ensures counts { CountsPages tally.old tally.new }
        ensures calm { OnOk result (W.disk_faults outside.new ≡ W.disk_faults outside.old) }
        ensures shape { OnOk result (self.new ≡ with_other_pool self.old self.new.reach.pool) }
        ensures ends { IfErr result (EndsByDisk W.Outside outside.old outside.new tally.old tally.new) }
        ensures brings { PagesComeIn W.Outside store.now outside.old seat (wants_of touch.now) self.old self.new tally.old tally.new result }
    {
        match self.fetch(store, outside, touch, tally) {
            Ok(()) => Ok(()),
            Err(Failed) => {
                self.roll_back(seat);
                Err(TurnEnd::Disk)
            }
        }
    }

    /// Who sits in a seat waits while somebody else holds what he asks for, and cycles of waits are broken.
    ///
    /// # Errors
    ///
    /// The end of the turn: he is a victim, or still waits.
    #[inline(always)]
    fn ask(&mut self, seat: u8, touch: &TouchedLines, tally: &mut Tally) -> Result<(), TurnEnd>
        requires taken { has self.old.seating.taken seat ≡ true }
        requires wanted { AreWanted self.old.reach.directory (wants_of touch.now) }
        requires cycles { array_vec_len tally.old.cycles + length self.old.seating.taken ≤ 16 }
        ensures { Disputes (SettlesAsked seat (wants_of touch.now)) seat self.old self.new tally.old tally.new result }
    {
        let request = self.request(touch);
        if self.seats.holders(seat, &request).is_empty() {
            return Ok(());
        }
        self.seats.wait(seat, request);
        self.contend(seat, tally)
    }

    /// Who sits in a seat holds what he asked for, is granted the pages that refused him, and they come in again where a
    /// rollback took them out.
    ///
    /// # Errors
    ///
    /// The end of the turn: a page can't be read.
    #[inline(always)]
    fn get<W: Outside>(
        &mut self,
        store: &Durable,
        outside: &mut W,
        seat: u8,
        touch: &TouchedLines,
        refused: (bool, bool),
        tally: &mut Tally,
    ) -> Result<(), TurnEnd>
        requires can { CanServe W.Outside self.old seat store.now outside.old }
        requires may { MayGet self.old seat touch.now refused }
        requires few { tally.old.pages + 2 < 2 ^ 32 }
        ensures touches { OnOk result (WillTouch self.new seat (wants_of touch.now)) }
        ensures opened { OnOk result (IsOpen self.new.reach (lines_wanted (wants_of touch.now))) }
        ensures keeps { KeepsAll W.Outside self.old self.new 0 outside.old outside.new }
        ensures counts { CountsPages tally.old tally.new }
        ensures on { OnOk result (StaysCalm W.Outside self.old self.new seat outside.old outside.new) }
        ensures ends { IfErr result (EndsByDisk W.Outside outside.old outside.new tally.old tally.new) }
        ensures served { ServesFree W.Outside store.now outside.old seat (wants_of touch.now) (pages_picked touch.now refused) self.old self.new tally.old tally.new result }
    {
        self.sound();
        self.take(seat, touch, refused);
        self.sound();
        self.bring(store, outside, seat, touch, tally)
    }

    /// The row of who sits in a seat, whose access was served, takes effect, and the write bits of the fine pages that it wrote
    /// into go off. It isn't counted yet.
    #[inline(always)]
    fn go_on(&mut self, seat: u8, touch: &TouchedLines)
        requires taken { has self.old.seating.taken seat ≡ true }
        requires selected { IsSeatSelected self.old seat }
        requires wanted { AreWanted self.old.reach.directory (wants_of touch.now) }
        requires touches { WillTouch self.old seat (wants_of touch.now) }
        requires opened { IsOpen self.old.reach (lines_wanted (wants_of touch.now)) }
        ensures parts { KeepsParts self.old self.new 0 }
        ensures stays { StaysSeated self.old self.new seat }
        ensures went { GoesServed seat (wants_of touch.now) self.old self.new }
    {
        self.sound();
        self.execute(seat);
        self.sound();
        self.lower(seat, touch);
    }

    /// A program check: who sits in a seat is rolled back.
    fn check(&mut self, seat: u8, code: u8) -> TurnEnd
        requires taken { has self.old.seating.taken seat ≡ true }
        ensures end { result ≡ end.Checked code (live_in self.old seat).cpu.iar }
        ensures shape { self.new ≡ rolled self.old seat self.new.reach.pool }
        ensures checked { EndsChecked seat code self.old self.new result }
    {
        self.is_seat(seat);
        let address = self.live[usize::from(seat)].cpu.iar;
        self.roll_back(seat);
        TurnEnd::Checked(code, address)
    }
}
