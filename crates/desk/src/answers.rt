use arrayvec::ArrayVec;

/// What a begin came to; each number is the activation's.
#[derive(Clone, Copy)]
pub enum Begun {
    /// It is active.
    Started(u32),
    /// As many are active as may be.
    Busy(u32),
    /// The store has no segment with this identifier, which one of its windows names.
    NoSegment(u32, u16),
    /// The desk was closed before.
    Shut,
}

/// The members of a shown cycle of waits; the first stands again at the end.
#[derive(Default, Drop)]
pub struct Cycle {
    pub members: ArrayVec<u32, 17>,
}

/// What a turn came to: the rows that took effect, the pages brought in, the pages whose entry refused, the cycles
/// whose victims were rolled back, and how it ended.
#[derive(Drop)]
pub struct Turn {
    pub ran: u32,
    pub pages: u32,
    pub locks: u32,
    pub cycles: ArrayVec<Cycle, 16>,
    pub end: TurnEnd,
}

/// How a turn ended.
#[derive(Drop)]
pub enum TurnEnd {
    /// The activation wasn't active.
    Idle,
    /// It ran as many rows as it may.
    Limit,
    /// It committed: the store's number after it, and the rows of the activation in all.
    Committed(u64, u64),
    /// A program check: its code and its address.
    Checked(u8, u32),
    /// It waits: the activation, and those whose locks it wants, ascending.
    Waits(u32, ArrayVec<u32, 16>),
    /// It was the victim of a cycle of waits.
    Victim,
    /// It wrote more lines than a record may have: so many, and the most.
    Journal(u32, u32),
    /// A page could not be read.
    Disk,
    /// The commit failed and the desk is closed: the activation where its record may stand, and the store's number then.
    Closed { doubt: Option<u32>, number: u64 },
    /// The desk was closed before.
    Shut,
}

/// A commit in the order: the activation and its number of rows.
#[derive(Clone, Copy)]
pub struct Committed {
    pub activation: u32,
    pub steps: u64,
}

/// What a checkpoint came to.
#[derive(Clone, Copy)]
pub enum Stored {
    /// The store is home: its number.
    Number(u64),
    /// It failed, and the desk is closed.
    Closed,
    /// The desk was closed before.
    Shut,
}

/// What starting again after a crash came to.
#[derive(Clone, Copy)]
pub enum Reopened {
    /// The store is open: its number.
    Number(u64),
    /// Its bytes have a fault at this offset, and the desk is closed.
    Damaged(u64),
    /// The disk failed, and the desk is closed.
    DiskFault,
    /// The desk was closed before.
    Shut,
}
