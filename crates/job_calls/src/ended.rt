// What a call came to.
ghost use Rattle.std.specs.Prelude.{◌≡◌, [], None};

use call_status::Status;
use desk::Committed;
use session::Session;
use std::alloc::Global;

/// What a call came to: its status, and the commits whose gate write began, in order. At most the last of
/// them has no sync that succeeded. A call that opened a store for a job's programs hands on its session as it is at the end.
#[derive(Drop)]
pub struct Ended {
    pub status: Status,
    pub order: Vec<Committed>,
    pub session: Option<Session>,
}

impl Ended {
    /// A call that ended with this status, and opened no session.
    pub fn without_events(alloc: Global, status: Status) -> Self
        ensures status { result.status ≡ status }
        ensures order { result.order.items ≡ [] }
        ensures session { result.session ≡ None }
    {
        Ended {
            status,
            order: Vec::new(alloc),
            session: None,
        }
    }
}
