/// An event of a schedule.
#[derive(Clone, Copy, PartialEq, Eq)]
pub enum Event {
    /// The program with this place in the job begins, with four values in registers 2 to 5.
    Begin { program: u16, args: [u32; 4] },
    /// An activation, counted from 1 by the begins, runs at most so many rows.
    Turn { activation: u32, limit: u32 },
    /// The store is brought home and the journal starts again.
    Checkpoint,
    /// The machine stops and starts again.
    Crash,
}
