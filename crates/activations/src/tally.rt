// What a turn has counted.
ghost use Rattle.std.specs.Prelude.{[], ◌≡◌, ◌+◌};

use arrayvec::ArrayVec;
use desk::Cycle;

/// What a turn has counted so far: rows that took effect, pages that were brought in, pages whose entries refused, and the
/// cycles of waits whose victims were rolled back.
#[derive(Drop)]
pub struct Tally {
    pub ran: u32,
    pub pages: u32,
    pub locks: u32,
    pub cycles: ArrayVec<Cycle, 16>,
}

impl Tally {
    /// Nothing counted.
    pub fn new() -> Tally
        ensures nothing { result.ran + result.pages + result.locks ≡ 0 }
        ensures cycles { result.cycles.items ≡ [] }
    {
        Tally {
            ran: 0,
            pages: 0,
            locks: 0,
            cycles: ArrayVec::new(),
        }
    }
}
