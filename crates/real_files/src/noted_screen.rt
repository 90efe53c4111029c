// A screen that tells what it printed.
ghost use Rattle.std.specs.Prelude.{◌≡◌, count_by};
ghost use Rattle.real_files.specs.Deeds.{deed_failed};

use crate::{RawScreen, fault};
use outside::{Failed, Screen};

/// A screen that tells what was handed to a real one.
#[derive(Drop)]
pub struct NotedScreen<R: RawScreen> {
    screen: R,
    faults: u64,
    ghost calm: { count_by deed_failed (R.puts screen) ≡ 0 → faults ≡ 0 },
}

impl<R: RawScreen> NotedScreen<R> {
    ghost use Rattle.std.specs.Prelude.{◌≡◌};

    /// This screen. No fault is counted yet.
    pub fn new(screen: R) -> Self
        ensures screen { result.screen ≡ screen }
        ensures faults { ⟦<NotedScreen<R> as Screen>⟧.faults result ≡ 0 }
    {
        NotedScreen { screen, faults: 0 }
    }

    /// The screen.
    pub fn into_screen(self) -> R
        ensures { result ≡ self.screen }
    {
        self.screen
    }
}

impl<R: RawScreen> Screen for NotedScreen<R> {
    ghost use Rattle.std.specs.Prelude.{Some};
    ghost use Rattle.real_files.specs.Shown.{printed_of, marks_of};

    ghost printed = { λ screen. Some (printed_of (R.puts screen.screen)) };

    ghost puts = { λ screen. marks_of 0 (R.puts screen.screen) };

    ghost faults = { λ screen. screen.faults };

    ghost use Rattle.real_files.specs.ShownLaws.{marks_in_order};

    ghost puts_in_order = { λ screen. marks_in_order (R.puts screen.screen) };

    fn put(&mut self, bytes: &[u8], at: u64) -> Result<(), Failed> {
        match self.screen.put(bytes, at) {
            Ok(()) => Ok(()),
            Err(_) => fault(&mut self.faults),
        }
    }
}
