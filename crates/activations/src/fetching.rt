// Pages come in from the store on the disk.
ghost use Rattle.std.specs.Prelude.{[], ◌≡◌, ◌+◌, ◌<◌, ◌^◌, false, OnOk, OnErr};
ghost use Rattle.activations.specs.Below.{FailsOnlyCounted, has, OnlyAsks, page_count, reach_of};
ghost use Rattle.activations.specs.Words.{AreWanted, CanFetch, ComesIn, CountsPages, Fetches, HasCome, IsPoolMoved, KeepsStore, pages_wanted, wants_of, with_other_pool};

use super::activations::Activations;
use super::store_pages::StorePages;
use super::tally::Tally;
use super::touched_lines::TouchedLines;
use outside::{Failed, Outside};
use storage_unit::Unit;
use store::Durable;

impl Activations {
    /// Brings in the pages of a touch that aren't resident, the first before the second, and counts each. The other page of
    /// the touch stays.
    ///
    /// # Errors
    ///
    /// Only where the disk's count rose: the page that was counted last couldn't be read, and no page is resident.
    #[inline(always)]
    pub(super) fn fetch<W: Outside>(
        &mut self,
        store: &Durable,
        outside: &mut W,
        touch: &TouchedLines,
        tally: &mut Tally,
    ) -> Result<(), Failed>
        requires can { CanFetch W.Outside self.old.reach.directory store.now outside.old }
        requires wanted { AreWanted self.old.reach.directory (wants_of touch.now) }
        requires few { tally.old.pages + 2 < 2 ^ 32 }
        ensures asks { OnlyAsks W.Outside outside.old outside.new }
        ensures shape { self.new ≡ with_other_pool self.old self.new.reach.pool }
        ensures counts { CountsPages tally.old tally.new }
        ensures cause { FailsOnlyCounted (W.disk_faults outside.old) (W.disk_faults outside.new) result }
        ensures counted { OnErr result (tally.old.pages < tally.new.pages) }
        ensures none { OnErr result (self.new.reach.pool.resident ≡ []) }
        ensures fetched { Fetches result W.Outside store.now outside.old self.old (pages_wanted (wants_of touch.now)) tally.old.pages self.new.reach.pool tally.new.pages }
    {
        match touch {
            TouchedLines::Nothing => Ok(()),
            TouchedLines::One(only) => self.fetch_page(store, outside, only.page, None, tally),
            TouchedLines::Two(first, second) => {
                self.fetch_page(store, outside, first.page, Some(second.page), tally)?;
                self.fetch_page(store, outside, second.page, Some(first.page), tally)
            }
        }
    }

    /// Brings in a page if it isn't resident, and counts it then. Another page, if one is named, stays. If it can't be read,
    /// all pages go out.
    #[inline(always)]
    fn fetch_page<W: Outside>(
        &mut self,
        store: &Durable,
        outside: &mut W,
        page: u16,
        keep: Option<u16>,
        tally: &mut Tally,
    ) -> Result<(), Failed>
        requires page { page < page_count self.old.reach.directory }
        requires can { CanFetch W.Outside self.old.reach.directory store.now outside.old }
        requires few { tally.old.pages + 1 < 2 ^ 32 }
        ensures asks { OnlyAsks W.Outside outside.old outside.new }
        ensures shape { self.new ≡ with_other_pool self.old self.new.reach.pool }
        ensures tally { tally.new ≡ record tally.old { pages = tally.new.pages } }
        ensures cause { FailsOnlyCounted (W.disk_faults outside.old) (W.disk_faults outside.new) result }
        ensures moved { IsPoolMoved self.old.reach.pool self.new.reach.pool }
        ensures came { ComesIn result self.old self.new page keep tally.old tally.new }
        ensures keeps { KeepsStore W.Outside store.now outside.old self.old.reach self.new.reach }
    {
        if self.unit.pool().frame_of(page).is_some() {
            return Ok(());
        }
        tally.pages += 1;
        bring_page(&mut self.unit, store, outside, page, keep)
    }
}

/// Brings in a page that isn't resident. Another page, if one is named, stays. If it can't be read, all pages go out.
fn bring_page<W: Outside>(
    unit: &mut Unit,
    store: &Durable,
    outside: &mut W,
    page: u16,
    keep: Option<u16>,
) -> Result<(), Failed>
    requires page { page < page_count (reach_of unit.old).directory }
    requires absent { has (reach_of unit.old).pool.resident page ≡ false }
    requires can { CanFetch W.Outside (reach_of unit.old).directory store.now outside.old }
    ensures asks { OnlyAsks W.Outside outside.old outside.new }
    ensures rest { reach_of unit.new ≡ record (reach_of unit.old) { pool = (reach_of unit.new).pool } }
    ensures cause { FailsOnlyCounted (W.disk_faults outside.old) (W.disk_faults outside.new) result }
    ensures moved { IsPoolMoved (reach_of unit.old).pool (reach_of unit.new).pool }
    ensures came { OnOk result (HasCome (reach_of unit.old).pool (reach_of unit.new).pool page keep) }
    ensures none { OnErr result ((reach_of unit.new).pool.resident ≡ []) }
    ensures keeps { KeepsStore W.Outside store.now outside.old (reach_of unit.old) (reach_of unit.new) }
{
    unit.bring_in(&StorePages { store }, outside, page, keep)
}
