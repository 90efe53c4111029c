//! Rows that were decoded once.
ghost use Rattle.std.specs.Prelude.{◌≡◌, ◌<◌, ◌≤◌};
ghost use Rattle.flat_machine.specs.Lengths.{length_made};
ghost use Rattle.flat_machine.specs.declared.machine.Pending.TheVariants.{Does};

use super::machine::{Act, Pending};

/// What a row made ready does, with its operand where it has one: rows that differ in how their operand is written alone are
/// one here, and a jump is one for each condition.
#[derive(Clone, Copy)]
pub enum Doing {
    Stay,
    Go,
    GoIfLess,
    GoIfEqual,
    GoIfGreater,
    GoIfCarry,
    GoIfOverflow,
    GoUnlessLess,
    GoUnlessEqual,
    GoUnlessGreater,
    GoUnlessCarry,
    GoUnlessOverflow,
    /// To the operand, with a link.
    Link,
    /// To the address that register C has, always or by the condition of field B, or with a link.
    GoTo,
    GoToIf,
    GoToUnless,
    LinkTo,
    Take,
    Increase,
    Decrease,
    Address,
    AddressOfTwo,
    AddOperand,
    AddOperandCarry,
    AddOperandOne,
    SubtractFromOperand,
    AndOperand,
    OrOperand,
    DifferOperand,
    ShiftLeftBy,
    ShiftRightBy,
    ShiftSignedBy,
    CompareOperand,
    CompareSignedOperand,
    TrapIfMasked,
    Add,
    AddCarry,
    Subtract,
    SubtractCarry,
    SubtractFrom,
    Negate,
    Magnitude,
    Invert,
    Extend,
    And,
    Or,
    Differ,
    ShiftLeft,
    ShiftRight,
    ShiftSigned,
    Compare,
    CompareSigned,
    TrapIfBelow,
    TrapUnlessBelow,
    LoadByte,
    LoadHalf,
    LoadHalfSigned,
    LoadHalfAt,
    LoadWord,
    LoadWords,
    StoreByte,
    StoreHalf,
    StoreWord,
    StoreWords,
    /// The same as those without `Short`, in two bytes.
    AddOperandShort,
    AndOperandShort,
    OrOperandShort,
    CompareSignedOperandShort,
    LoadByteShort,
    LoadHalfSignedShort,
    LoadWordShort,
    StoreByteShort,
    StoreHalfShort,
    StoreWordShort,
}

/// A row made ready: what it does, how many bytes it has, its fields B and C, and its operand as it is used, so where a jump
/// goes or what is added. All but jumps that have a condition have as many bytes as what they do tells.
#[derive(Clone, Copy)]
pub struct Ready {
    pub doing: Doing,
    pub bytes: u8,
    pub b: u8,
    pub c: u8,
    pub i: u32,
    ghost bytes_are_few: { bytes ≤ 4 },
    ghost b_is_narrow: { b < 16 },
    ghost c_is_narrow: { c < 16 },
    ghost length_is_told: { length_made doing bytes ≡ bytes },
}

/// What is left of a row made ready once registers and status are as it makes them: control goes on to an address, and a
/// register gets the one after the row; or a load or a store, and where it goes on; or a trap that is taken.
#[derive(Clone, Copy)]
pub enum Rest {
    On(u32),
    Link {
        to: u32,
        register: u8,
        after: u32,
    },
    Load {
        address: u32,
        bytes: u8,
        to: u8,
        sign: bool,
        next: u32,
    },
    Store {
        address: u32,
        bytes: u8,
        from: u8,
        next: u32,
    },
    Trap(u32),
}

impl Rest {
    ghost use Rattle.flat_machine.specs.Pending.{pending_of};

    /// The same as what is left of any row.
    pub fn pending(self) -> Pending
        ensures { result ≡ pending_of self }
    {
        match self {
            Rest::On(next) => does(Act::Nothing, next, None),
            Rest::Link {
                to,
                register,
                after,
            } => does(Act::Nothing, to, Some((register, after))),
            Rest::Load {
                address,
                bytes,
                to,
                sign,
                next,
            } => does(
                Act::Load {
                    address,
                    bytes,
                    to,
                    sign,
                },
                next,
                None,
            ),
            Rest::Store {
                address,
                bytes,
                from,
                next,
            } => does(
                Act::Store {
                    address,
                    bytes,
                    from,
                },
                next,
                None,
            ),
            Rest::Trap(next) => does(Act::Check(3), next, None),
        }
    }
}

/// These parts.
fn does(act: Act, next: u32, link: Option<(u8, u32)>) -> Pending
    ensures { result ≡ Does act next link }
{
    Pending::Does { act, next, link }
}
