// Lines are locked, the pages whose entries refused them are granted, and write bits of fine pages go off again.
ghost use Rattle.std.specs.Prelude.{[], ◌≡◌, ◌<◌, ◌∷◌, map, true};
ghost use Rattle.activations.specs.Below.{AreDistinct, AreWithin, has, page_count};
ghost use Rattle.activations.specs.Words.{AreWanted, Grants, GrantsPicked, locked, Lowers, page_if, pages_wanted, wants_of, with_entries, with_whole_page};

use super::activations::Activations;
use super::touched_lines::TouchedLines;
use lines::LineSet;
use page_table::Authority;
use seats::{Request, Want};

impl Activations {
    /// What a touch asks for.
    #[inline(always)]
    pub(super) fn request(&self, touch: &TouchedLines) -> Request
        ensures { result.wants.items ≡ map (with_whole_page self.now.reach.directory) (wants_of touch.now) }
    {
        touch.request(self.unit.directory())
    }

    /// Who sits in a seat holds what he asked for, and the pages whose entries refused him are granted.
    #[inline(always)]
    pub(super) fn take(&mut self, seat: u8, touch: &TouchedLines, refused: (bool, bool))
        requires taken { has self.old.seating.taken seat ≡ true }
        requires wanted { AreWanted self.old.reach.directory (wants_of touch.now) }
        ensures shape { self.new ≡ locked self.old seat (wants_of touch.now) self.new.reach.entries }
        ensures granted { GrantsPicked self.new seat touch.now refused self.old self.new }
    {
        let request = self.request(touch);
        self.seats.take(seat, &request);
        self.grant_picked(seat, touch, refused);
    }

    /// The pages of a touch that are picked are granted to a seat.
    #[inline(always)]
    #[tactic(auto, using(crate::proofs::GrantLemmas::one_within, crate::proofs::GrantLemmas::first_within, crate::proofs::GrantLemmas::second_within))]
    fn grant_picked(&mut self, seat: u8, touch: &TouchedLines, picked: (bool, bool))
        requires taken { has self.old.seating.taken seat ≡ true }
        requires pages { AreWithin (page_count self.old.reach.directory) (wants_of touch.now) }
        requires once { AreDistinct (pages_wanted (wants_of touch.now)) }
        ensures shape { self.new ≡ with_entries self.old self.new.reach.entries }
        ensures granted { GrantsPicked self.old seat touch.now picked self.old self.new }
    {
        match touch {
            TouchedLines::Nothing => {}
            TouchedLines::One(only) => self.grant_if(picked.0, seat, only),
            TouchedLines::Two(first, second) => {
                self.grant_if(picked.0, seat, first);
                self.grant_if(picked.1, seat, second);
            }
        }
    }

    /// A page is granted to a seat where it is picked.
    #[inline(always)]
    fn grant_if(&mut self, picked: bool, seat: u8, want: &Want)
        requires taken { has self.old.seating.taken seat ≡ true }
        requires page { want.now.page < page_count self.old.reach.directory }
        ensures shape { self.new ≡ with_entries self.old self.new.reach.entries }
        ensures granted { Grants seat (want.now ∷ []) (page_if picked want.now.page) self.old self.new }
    {
        if picked {
            self.grant(seat, want);
        }
    }

    /// A page gets the entry that a seat's locks of it give.
    #[inline(always)]
    fn grant(&mut self, seat: u8, want: &Want)
        requires taken { has self.old.seating.taken seat ≡ true }
        requires page { want.now.page < page_count self.old.reach.directory }
        ensures shape { self.new ≡ with_entries self.old self.new.reach.entries }
        ensures granted { Grants seat (want.now ∷ []) (want.now.page ∷ []) self.old self.new }
    {
        self.is_seat(seat);
        let (reads, writes) = self.seats.locks().held(seat, want.page);
        let entry = if self.unit.directory().is_fine(want.page) {
            Authority::grant_fine(seat + 1, reads, writes, !want.writes.is_empty())
        } else {
            Authority::grant(seat + 1, reads, writes)
        };
        self.unit.set_authority(want.page, entry);
    }

    /// The write bits of the fine pages that a touch wrote into go off, but for those of which a seat holds all lines.
    #[inline(always)]
    #[tactic(auto, using(crate::proofs::GrantLemmas::one_within, crate::proofs::GrantLemmas::first_within, crate::proofs::GrantLemmas::second_within))]
    pub(super) fn lower(&mut self, seat: u8, touch: &TouchedLines)
        requires taken { has self.old.seating.taken seat ≡ true }
        requires pages { AreWithin (page_count self.old.reach.directory) (wants_of touch.now) }
        ensures shape { self.new ≡ with_entries self.old self.new.reach.entries }
        ensures lowered { Lowers seat (wants_of touch.now) self.old self.new }
    {
        match touch {
            TouchedLines::Nothing => {}
            TouchedLines::One(only) => self.lower_page(seat, only),
            TouchedLines::Two(first, second) => {
                self.lower_page(seat, first);
                self.lower_page(seat, second);
            }
        }
    }

    /// The write bit of a page goes off, if it is fine, was written into, and a seat holds not all its lines.
    #[inline(always)]
    fn lower_page(&mut self, seat: u8, want: &Want)
        requires taken { has self.old.seating.taken seat ≡ true }
        requires page { want.now.page < page_count self.old.reach.directory }
        ensures shape { self.new ≡ with_entries self.old self.new.reach.entries }
        ensures lowered { Lowers seat (want.now ∷ []) self.old self.new }
    {
        if want.writes.is_empty() {
            return;
        }
        if !self.unit.directory().is_fine(want.page) {
            return;
        }
        self.is_seat(seat);
        let (reads, _) = self.seats.locks().held(seat, want.page);
        if reads.count() == 16 {
            return;
        }
        self.unit.set_authority(
            want.page,
            Authority::grant(seat + 1, reads, LineSet::none()),
        );
    }
}
