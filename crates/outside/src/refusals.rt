// Which calls of a disk in memory are refused.
ghost use Rattle.std.specs.Prelude.{◌≡◌, not};
ghost use Rattle.outside.specs.Refusals as spec;

/// The kinds of a disk's calls, for a `Refusal`.
#[derive(Clone, Copy)]
pub enum Call {
    Length,
    Read,
    Write,
    Sync,
}

/// Makes one call fail: the first of its kind that shares a byte with `from..to`, after `skip` such calls.
/// For a length and a sync the range isn't looked at.
#[derive(Clone, Copy)]
pub struct Refusal {
    /// The kind of the call.
    pub call: Call,
    /// The first byte of the range.
    pub from: u64,
    /// The end of the range, which is after its last byte.
    pub to: u64,
    /// How many such calls pass before it.
    pub skip: u32,
}

// Whether it speaks of a call of this kind over these bytes.
fn concerns(refusal: &Refusal, call: Call, start: u64, end: u64) -> bool
    ensures { result ≡ spec.concerns call start end refusal.now }
{
    match (refusal.call, call) {
        (Call::Length, Call::Length) | (Call::Sync, Call::Sync) => true,
        (Call::Read, Call::Read) | (Call::Write, Call::Write) => {
            refusal.from.max(start) < refusal.to.min(end)
        }
        _ => false,
    }
}

/// Whether a call of this kind over these bytes is refused now.
pub fn is_refused(refusals: &[Refusal], call: Call, start: u64, end: u64) -> bool
    ensures { result ≡ spec.is_call_refused call start end refusals.now }
{
    refusals.iter().any(|refusal| concerns(refusal, call, start, end) && refusal.skip == 0)
}

// Skips the call where that is due, and says whether the refusal is still to come.
fn pass_over(refusal: &mut Refusal, call: Call, start: u64, end: u64) -> bool
    ensures stays { result ≡ not (spec.is_due call start end refusal.old) }
    ensures skips { refusal.new ≡ spec.skipping_one call start end refusal.old }
{
    if !concerns(refusal, call, start, end) {
        return true;
    }
    let stays = refusal.skip > 0;
    refusal.skip = refusal.skip.saturating_sub(1);
    stays
}

/// Takes the call out of those that are skipped, and takes away the refusals that refused it.
pub fn use_up(refusals: &mut Vec<Refusal>, call: Call, start: u64, end: u64)
    ensures { refusals.new.items ≡ spec.used_up call start end refusals.old.items }
{
    refusals.retain_mut(
        move |refusal: &mut Refusal|
            ensures stays { result ≡ not (spec.is_due call start end refusal.old) }
            ensures skips { refusal.new ≡ spec.skipping_one call start end refusal.old }
        { pass_over(refusal, call, start, end) },
    );
}
