ghost use Rattle.std.specs.Prelude.{◌≡◌, ◌<◌, ◌≤◌, length, find};
ghost use Rattle.std.specs.Option.{option_map};
ghost use Rattle.lines.specs.Waits.{shown_cycle};
ghost use Rattle.seats.specs.Rows.{AreOn, awaits_one, is_on, places, row_places, row_leads, waits_in};

use arrayvec::ArrayVec;

/// The shown cycle from a place: it begins with it, and each next member is the least place that the last one waits for
/// and from which waits lead back. It ends with the place where every cycle of waits goes through it, and anyway after
/// as many steps as there are rows. None exactly where waits don't lead from the place to itself. There are sixteen rows
/// at most, and place i waits for place j where bit j of row i is on; places ascend by activation. It takes no memory
/// (docs/MODEL.md, "Lines, locks and waits").
pub fn shown_cycle(from: u8, waits: &[u16]) -> Option<ArrayVec<u8, 17>>
    requires from { from < length waits.now }
    requires few { length waits.now ≤ 16 }
    ensures { option_map (λ cycle. cycle.items) result ≡ shown_cycle (waits_in waits.now) (row_places waits.now) from }
{
    let leading = leading_to(from, waits);
    if !is_on(leading, from) {
        return None;
    }
    let mut cycle = ArrayVec::new();
    cycle.push(from);
    let mut last = from;
    for _step in 0..waits.len() {
        match least_on(waits[usize::from(last)] & leading) {
            None => return Some(cycle),
            Some(next) => {
                cycle.push(next);
                if next == from {
                    return Some(cycle);
                }
                last = next;
            }
        }
    }
    Some(cycle)
}

/// The places from which waits lead to one, as bits.
fn leading_to(to: u8, waits: &[u16]) -> u16
    requires to { to < length waits.now }
    requires few { length waits.now ≤ 16 }
    ensures { AreOn result waits.now (row_leads waits.now to) }
{
    let mut leading = 0;
    for _step in 0..waits.len() {
        let next = waiting_for(leading | 1 << to, waits);
        if next == leading {
            return leading;
        }
        leading = next;
    }
    leading
}

/// The places that wait for one of these, as bits.
fn waiting_for(goals: u16, waits: &[u16]) -> u16
    requires { length waits.now ≤ 16 }
    ensures { AreOn result waits.now (awaits_one waits.now goals) }
{
    let mut waiting = 0;
    for (place, row) in waits.iter().enumerate() {
        if row & goals != 0 {
            waiting |= 1 << place;
        }
    }
    waiting
}

/// Whether the bit of a place is on.
fn is_on(bits: u16, place: u8) -> bool
    requires { place < 16 }
    ensures { result ≡ is_on bits place }
{
    (bits >> place) & 1 == 1
}

/// The least place whose bit is on.
fn least_on(bits: u16) -> Option<u8>
    ensures { result ≡ find (is_on bits) places }
{
    if bits == 0 {
        None
    } else {
        Some(bits.trailing_zeros() as u8)
    }
}
