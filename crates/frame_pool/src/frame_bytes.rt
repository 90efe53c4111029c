ghost use Rattle.std.specs.Prelude.{◌≡◌, ◌+◌, ◌≤◌, slice_range, replicate, IfOk, List, ℕ, length};
ghost use Rattle.frame_pool.specs.Below.{overlaid, sem};
ghost use Rattle.frame_pool.specs.Lending.{LendsPart};

use std::alloc::{AllocError, Global};
use std::marker::Model;

/// The bytes of all frames, end to end, seen as their list.
#[derive(Drop)]
pub struct FrameBytes {
    items: Vec<u8>,
}

impl Model for FrameBytes {
    ghost use Rattle.std.specs.Prelude.{List, ℕ};

    ghost Value = { List ℕ };

    ghost view = { λ bytes. bytes.items.items };
}

impl FrameBytes {
    /// So many zeros.
    pub fn zeros(alloc: Global, count: usize) -> Result<Self, AllocError>
        ensures { IfOk result (λ bytes. bytes ≡ replicate count 0) }
    {
        Ok(FrameBytes {
            items: vec![in alloc; 0; count]?,
        })
    }

    /// A part.
    #[inline(always)]
    pub fn part(&self, at: usize, count: usize) -> &[u8]
        requires { at + count ≤ length self.now }
        ensures { result.now ≡ slice_range self.now at (at + count) }
    {
        &self.items[at..at + count]
    }

    /// A part, to be written over.
    #[inline(always)]
    pub fn part_mut(&mut self, at: usize, count: usize) -> &mut [u8]
        requires { at + count ≤ length self.old }
        ensures* writes_back { sem 𝓛 (LendsPart self.entry at result) }
        ensures value { result.now ≡ slice_range self.old at (at + count) }
    {
        self.items.slice_mut(at..at + count)
    }

    /// Writes bytes over those from a place on.
    #[inline(always)]
    pub fn write(&mut self, at: usize, from: &[u8])
        requires { at + length from.now ≤ length self.old }
        ensures items { self.new ≡ overlaid self.old at from.now }
        ensures len { length self.new ≡ length self.old }
    {
        write_over(self.items.as_mut_slice(), at, from);
    }
}

/// Writes bytes over those from a place on.
#[inline(always)]
fn write_over(items: &mut [u8], at: usize, part: &[u8])
    requires { at + length part.now ≤ length items.old }
    ensures { items.new ≡ overlaid items.old at part.now }
{
    let (_, rest) = items.split_at_mut(at);
    let (middle, _) = rest.split_at_mut(part.len());
    middle.copy_from_slice(part);
}
