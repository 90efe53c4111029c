ghost use Rattle.std.specs.Prelude.{◌≡◌, ◌≢◌, ◌<◌, length, map, slice_get, slice_index, Some, IfSome, IfNone};
ghost use Rattle.romp_table.specs.Names.{folded, mnemonic, op_named, slot_of};

use super::inst::Op;
use super::table::{Row, TABLE};

/// Every mnemonic, in the order of the operations.
const NAMES: [&str; 85] = [
    "stcs", "sths", "sts", "lcs", "lhas", "ls", "cas", "ais", "sis", "inc", "dec", "lis", "cis",
    "clrbu", "clrbl", "setbu", "setbl", "sari", "sari16", "sri", "sri16", "sli", "sli16", "sar",
    "sr", "sl", "exts", "sf", "s", "a", "ae", "se", "cl", "c", "tgte", "tlt", "abs", "twoc",
    "onec", "o", "n", "x", "lhs", "bnbr", "bnbrx", "bbr", "bbrx", "balr", "balrx", "jb", "jnb",
    "bnb", "bnbx", "bb", "bbx", "bali", "balix", "bala", "balax", "svc", "ai", "aei", "sfi", "cli",
    "ci", "oiu", "oil", "xiu", "xil", "nilz", "nilo", "niuz", "niuo", "cal", "cau", "lm", "stm",
    "lc", "lh", "lha", "l", "stc", "sth", "st", "ti",
];

/// The place in the table of the row whose mnemonic has each slot, and 85 where none has it.
///
/// The proof computes that each mnemonic has a slot of its own, so a look-up is as good as a search.
const SLOTS: [u8; 512] = [
    79, 85, 85, 67, 85, 85, 85, 85, 85, 85, 85, 85, 85, 85, 85, 85, 85, 30, 42, 85, 85, 60, 85, 85,
    85, 85, 85, 85, 61, 43, 85, 85, 85, 85, 0, 52, 85, 73, 85, 85, 85, 85, 85, 85, 6, 85, 74, 85,
    85, 85, 7, 18, 85, 85, 85, 85, 85, 85, 85, 85, 85, 85, 85, 85, 85, 62, 85, 85, 12, 85, 85, 85,
    85, 85, 85, 85, 85, 85, 85, 44, 85, 85, 85, 85, 85, 85, 85, 85, 85, 85, 85, 85, 85, 85, 85, 85,
    85, 85, 85, 85, 85, 19, 85, 35, 85, 85, 85, 59, 85, 85, 85, 85, 85, 85, 85, 4, 85, 85, 38, 85,
    85, 85, 85, 85, 85, 85, 85, 85, 85, 85, 85, 3, 85, 85, 85, 85, 85, 85, 85, 85, 85, 85, 85, 85,
    85, 85, 85, 85, 85, 85, 85, 85, 85, 85, 85, 85, 85, 85, 85, 85, 85, 85, 85, 16, 85, 45, 85, 85,
    85, 66, 85, 54, 15, 85, 85, 85, 77, 85, 65, 85, 85, 78, 85, 85, 85, 51, 75, 23, 85, 85, 85, 85,
    5, 85, 85, 63, 85, 85, 85, 85, 85, 85, 48, 85, 85, 85, 84, 85, 85, 85, 85, 85, 8, 85, 20, 85,
    85, 85, 85, 85, 85, 85, 85, 85, 85, 85, 85, 85, 85, 85, 85, 85, 85, 85, 72, 85, 85, 34, 85, 85,
    85, 85, 85, 85, 85, 71, 85, 85, 85, 85, 85, 85, 85, 85, 85, 85, 85, 50, 85, 85, 85, 85, 85, 85,
    85, 85, 85, 85, 85, 85, 85, 85, 85, 85, 85, 85, 85, 85, 85, 58, 85, 85, 17, 64, 85, 85, 32, 85,
    85, 85, 85, 85, 85, 85, 85, 85, 85, 85, 85, 85, 85, 85, 85, 56, 85, 10, 85, 85, 22, 85, 85, 85,
    85, 85, 85, 85, 85, 85, 85, 85, 85, 85, 85, 85, 85, 85, 85, 31, 27, 85, 85, 85, 85, 85, 25, 70,
    85, 85, 85, 21, 24, 85, 83, 85, 85, 85, 69, 85, 85, 85, 85, 85, 85, 85, 85, 85, 85, 81, 85, 85,
    85, 85, 82, 85, 85, 85, 85, 76, 85, 85, 85, 85, 85, 2, 85, 85, 85, 85, 85, 85, 85, 85, 85, 26,
    85, 85, 85, 85, 85, 85, 85, 85, 85, 85, 85, 85, 85, 85, 85, 85, 85, 53, 85, 85, 85, 11, 85, 85,
    85, 85, 85, 85, 85, 36, 85, 85, 85, 85, 85, 85, 85, 85, 85, 85, 85, 49, 85, 85, 85, 85, 85, 85,
    85, 1, 85, 85, 85, 57, 85, 85, 85, 85, 85, 85, 85, 55, 14, 85, 85, 85, 85, 85, 85, 85, 47, 13,
    85, 85, 85, 85, 85, 85, 85, 85, 85, 85, 85, 85, 85, 85, 85, 85, 85, 85, 85, 85, 85, 85, 85, 85,
    85, 85, 85, 85, 29, 85, 33, 46, 85, 85, 85, 85, 37, 85, 85, 80, 85, 40, 39, 85, 85, 85, 28, 85,
    85, 9, 68, 41, 85, 85, 85, 85,
];

/// The mnemonic of an operation, in lower case, as `docs/FORMATS.md`, "Instructions", lists it.
pub fn name_of(op: Op) -> &'static str
    ensures value { result.now ≡ mnemonic op }
    ensures back { op_named result.now ≡ Some op }
{
    name_at(&NAMES, op as usize)
}

/// The mnemonic at this place.
fn name_at(names: &[&'static str], place: usize) -> &'static str
    requires { place < length names.now }
    ensures { slice_get (map (λ name. name.now) names.entry.now) place ≡ Some result.now }
{
    names[place]
}

/// The operation whose mnemonic a word is, if one has it.
pub fn by_name(word: &[u8]) -> Option<Op>
    ensures value { result ≡ op_named word.now }
    ensures some { IfSome result (λ op. mnemonic op ≡ word.now) }
    ensures none { IfNone result ((op : Op) → mnemonic op ≢ word.now) }
{
    op_at(&TABLE, &SLOTS, word)
}

/// The operation of the row at the slot of a word, if that has the word for its mnemonic.
fn op_at(rows: &[Row], slots: &[u8; 512], word: &[u8]) -> Option<Op>
    ensures some { IfSome result (λ op. mnemonic op ≡ word.now) }
    ensures none { IfNone result ((row : Row) → slice_get rows.now (slice_index slots.now (slot_of word.now)) ≡ Some row → mnemonic row.op ≢ word.now) }
{
    let op = rows.get(usize::from(slots[slot_of(word)]))?.op;
    if name_of(op).as_bytes() == word {
        Some(op)
    } else {
        None
    }
}

/// The slot of a word.
fn slot_of(word: &[u8]) -> usize
    ensures value { result ≡ slot_of word.now }
    ensures within { result < 512 }
{
    usize::from(folded(word) % 512)
}

/// The bytes of a word as digits of a number with 1 before them, of base 387, modulo 65,536.
fn folded(word: &[u8]) -> u16
    ensures { result ≡ folded word.now }
{
    word.iter().fold(1, |digits: u16, byte| {
        digits.wrapping_mul(387).wrapping_add(u16::from(*byte))
    })
}
