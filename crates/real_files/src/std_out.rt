// The standard output.
ghost use Rattle.std.specs.Prelude.{◌≡◌, ◌≤◌, ◌++◌, [], take, length};
ghost use Rattle.real_files.specs.Shown.{printed_of};

use crate::RawScreen;
use crate::file_trace::{FileTrace, TORE, WROTE};
use crate::noted_calls::noted_print;
use outside::Failed;
use std::io::ErrorKind;

/// The standard output of a runtime. What is put is what the system took of it, in one call or several.
#[derive(Drop)]
pub struct StdOut<R: Print> {
    rt: R,
    handed: FileTrace,
    trace: FileTrace,
    ghost all_handed: { printed_of trace.deeds ≡ printed_of handed.deeds },
}

impl<R: Print> StdOut<R> {
    /// Nothing is printed yet.
    pub fn new(rt: R) -> Self
        ensures { ⟦<StdOut<R> as RawScreen>⟧.puts result ≡ [] }
    {
        StdOut {
            rt,
            handed: FileTrace::new(),
            trace: FileTrace::new(),
        }
    }
}

// Hands the bytes to the system, and says how many it took.
fn hand_over<R: Print>(rt: &R, handed: &mut FileTrace, bytes: &[u8]) -> usize
    ensures few { result ≤ length bytes.now }
    ensures taken { printed_of handed.new.deeds ≡ printed_of handed.old.deeds ++ take result bytes.now }
{
    let mut taken = 0;
    for _ in 0..u64::MAX {
        if taken == bytes.len() {
            break;
        }
        match noted_print(rt, handed, &bytes[taken..]) {
            Ok(count) => {
                taken += count;
                if count == 0 {
                    break;
                }
            }
            Err(error) if error.kind() == ErrorKind::Interrupted => continue,
            Err(_) => break,
        }
    }
    taken
}

impl<R: Print> RawScreen for StdOut<R> {
    ghost puts = { λ screen. screen.trace.deeds };

    fn put(&mut self, bytes: &[u8], at: u64) -> Result<(), Failed> {
        let taken = hand_over(&self.rt, &mut self.handed, bytes);
        if taken == bytes.len() {
            self.trace.note(&[WROTE, at], bytes);
            Ok(())
        } else {
            self.trace.note(&[TORE, at], &bytes[..taken]);
            Err(Failed)
        }
    }
}
