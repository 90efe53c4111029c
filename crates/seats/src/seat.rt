use super::request::Request;

/// An activation in its seat.
#[derive(Drop)]
pub struct Seat {
    /// Its number.
    pub number: u32,
    /// The place of its program.
    pub program: u16,
    /// The values with which it began, in registers 2 to 5.
    pub args: [u32; 4],
    /// How many rows it has done.
    pub rows: u64,
    /// What it waits for, if it waits.
    pub waits: Option<Request>,
}

impl Seat {
    ghost use Rattle.std.specs.Prelude.{◌≡◌};
    ghost use Rattle.seats.specs.Seating.{newcomer};

    /// An activation that begins: it has done no row and waits for nothing.
    pub fn newcomer(number: u32, program: u16, args: [u32; 4]) -> Seat
        ensures { result ≡ newcomer number program args }
    {
        Seat {
            number,
            program,
            args,
            rows: 0,
            waits: None,
        }
    }
}
