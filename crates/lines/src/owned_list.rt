// A vector that contracts see as the list of its items.
ghost use Rattle.std.specs.Prelude.{◌≡◌, ◌+◌, ◌≤◌, ◌==◌, List, length};
ghost use Rattle.lines.specs.Overlay.{overlaid};

use std::marker::Model;

/// A vector whose length stays, seen as the list of its items: two of them are equal where their items are.
#[derive(Drop)]
pub struct OwnedList<T> {
    items: Vec<T>,
}

impl<T> Model for OwnedList<T> {
    ghost Value = { List T };

    ghost view = { λ l. l.items.items };
}

impl<T> OwnedList<T> {
    /// The list of a vector's items.
    pub fn from_vec(items: Vec<T>) -> Self
        ensures { result ≡ items.items }
    {
        OwnedList { items }
    }

    /// The number of items.
    pub fn len(&self) -> usize
        ensures { result ≡ length self.now }
    {
        self.items.len()
    }

    /// Whether there are no items.
    pub fn is_empty(&self) -> bool
        ensures { result ≡ (length self.now == 0) }
    {
        self.items.is_empty()
    }

    /// The items.
    pub fn as_slice(&self) -> &[T]
        ensures { result.now ≡ self.now }
    {
        self.items.as_slice()
    }
}

impl<T: Copy> OwnedList<T> {
    /// Writes `part` over the items from `at` on.
    pub fn write(&mut self, at: usize, part: &[T])
        requires { at + length part.now ≤ length self.old }
        ensures value { self.new ≡ overlaid self.old at part.now }
        ensures len { length self.new ≡ length self.old }
    {
        write_over(self.items.as_mut_slice(), at, part);
    }
}

/// Writes `part` over the items from `at` on.
fn write_over<T: Copy>(items: &mut [T], at: usize, part: &[T])
    requires { at + length part.now ≤ length items.old }
    ensures { items.new ≡ overlaid items.old at part.now }
{
    let (_, rest) = items.split_at_mut(at);
    let (middle, _) = rest.split_at_mut(part.len());
    middle.copy_from_slice(part);
}
