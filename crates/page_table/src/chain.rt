// Chains through the frames: each frame leads to the one after it.
ghost use Rattle.std.specs.Prelude.{◌≡◌, ◌==◌, ◌<◌, find, length, None};
ghost use Rattle.std.specs.Int.{IsPowerOfTwo};
ghost use Rattle.lines.specs.Sets.{distinct};
ghost use Rattle.page_table.specs.Placed.{key_in, holds};
ghost use Rattle.page_table.specs.Chains.{hash_of, following, chain_end, before_in, whole_chain};

use super::key::Key;

/// The hash of a page among so many anchors, a power of two.
#[inline(always)]
pub fn hash(key: Key, anchors: usize) -> usize
    requires { IsPowerOfTwo anchors }
    ensures value { result ≡ hash_of anchors key }
    ensures below { result < anchors }
{
    (u32::from(key.segment) ^ key.page) as usize & (anchors - 1)
}

/// The frame after another.
#[inline(always)]
pub fn following(next: &[Option<u16>], frame: u16) -> Option<u16>
    ensures { result ≡ following next.now frame }
{
    next.get(usize::from(frame)).copied().flatten()
}

/// What a frame holds.
#[inline(always)]
pub fn held_in(keys: &[Option<Key>], frame: u16) -> Option<Key>
    ensures { result ≡ key_in keys.now frame }
{
    keys.get(usize::from(frame)).copied().flatten()
}

/// Whether a frame holds a page.
#[inline]
pub fn holds(keys: &[Option<Key>], frame: u16, key: Key) -> bool
    ensures { result ≡ holds key (key_in keys.now frame) }
{
    match held_in(keys, frame) {
        Some(held) => held.segment == key.segment && held.page == key.page,
        None => false,
    }
}

/// The first frame along a chain that holds a page.
#[inline]
pub fn find_along(
    next: &[Option<u16>],
    keys: &[Option<Key>],
    first: Option<u16>,
    key: Key,
) -> Option<u16>
    ensures { result ≡ find (λ frame. holds key (key_in keys.now frame)) (whole_chain next.now first) }
{
    let mut place = first;
    for _ in 0..next.len() {
        let frame = place?;
        if holds(keys, frame, key) {
            return Some(frame);
        }
        place = following(next, frame);
    }
    None
}

/// The frame in front of another along a chain that ends and has none twice. None where the chain begins with the other, or
/// doesn't have it.
#[inline]
pub fn before(next: &[Option<u16>], first: Option<u16>, frame: u16) -> Option<u16>
    requires ends { chain_end next.now (length next.now) first ≡ None }
    requires apart { distinct (whole_chain next.now first) ≡ whole_chain next.now first }
    ensures { result ≡ before_in (whole_chain next.now first) frame }
{
    if first == Some(frame) {
        return None;
    }
    let mut place = first;
    for _ in 0..next.len() {
        let at = place?;
        let after = following(next, at);
        if after == Some(frame) {
            return Some(at);
        }
        place = after;
    }
    None
}
