// The console on what the words want: a file, or a disk in memory.
ghost use Rattle.std.specs.Prelude.{◌≡◌, ◌↔◌, ◌++◌, ◌∷◌, [], IfOk, List, suc, ℕ};
ghost use Rattle.console.specs.Words.{IsForm, IsNoForm};
ghost use Rattle.file_runs.specs.Below.{Command, Deed, given};
ghost use Rattle.file_runs.specs.FileWords.{IsOnFile};
ghost use Rattle.file_runs.specs.WordRun.{bytes_for, openings_for, path_in, RanAs};
ghost use Rattle.file_runs.specs.declared.word_run.RanOn.TheVariants.{Nothing};

use super::on_file::{console_on_file, console_on_nothing, console_on_screen};
use console::{DiskKind, Ended, disk_of, path_of, try_store};
use outside::Source;
use real_files::{FileUse, Opener, RawFile, RawScreen, Unopened};
use std::alloc::{AllocError, Global};

/// What the words were run on.
#[derive(Drop)]
pub enum RanOn<F> {
    /// The file that they name, and whether there was no memory for what was written past its end.
    File(F, bool),
    /// None: the file that they name couldn't be opened.
    Nothing,
    /// A disk in memory, and whether there was no memory for what was written past its end.
    Memory(bool),
}

/// The console on what the words want (docs/FORMATS.md, "Words"): the file that they name is opened, once, to look, to change or to be made; or
/// it is a disk in memory. What it ran on and the screen are handed back.
///
/// # Errors
///
/// Only where there is no memory.
pub fn run_words<S: Source, O: Opener, R: RawScreen + Drop>(
    alloc: Global,
    words: &[String],
    job: &mut S,
    opener: &mut O,
    screen: R,
) -> Result<(Ended, RanOn<O::Opened>, R), AllocError>
    requires { R.puts screen ≡ [] }
    ensures opened { (form : Command) → IsForm form words.now → O.asked opener.new ≡ O.asked opener.old ++ openings_for form (path_in words.now) }
    ensures unopened { IsNoForm words.now → O.asked opener.new ≡ O.asked opener.old }
    ensures refused { IfOk result (λ it. (it.1 ≡ Nothing) ↔ (O.refusals opener.new ≡ suc (O.refusals opener.old))) }
    ensures ran { IfOk result (λ it. RanAs O.Opened.first O.Opened.deeds words.now (given S.Source job.old job.new) it.1 (R.puts it.2) it.0) }
{
    match disk_of(words) {
        DiskKind::Looked => on_path(alloc, words, job, opener, FileUse::Look, screen),
        DiskKind::Changed => on_path(alloc, words, job, opener, FileUse::Change, screen),
        DiskKind::Made => on_path(alloc, words, job, opener, FileUse::Make, screen),
        DiskKind::OfTry => Ok(on_bytes(alloc, words, job, try_store(alloc)?, screen)),
        DiskKind::Empty => Ok(on_bytes(alloc, words, job, Vec::new(alloc), screen)),
    }
}

/// The console on the file that the words name, opened for what they want.
fn on_path<S: Source, O: Opener, R: RawScreen + Drop>(
    alloc: Global,
    words: &[String],
    job: &mut S,
    opener: &mut O,
    wanted: FileUse,
    screen: R,
) -> Result<(Ended, RanOn<O::Opened>, R), AllocError>
    requires puts { R.puts screen ≡ [] }
    requires words { (form : Command) → IsForm form words.now → IsOnFile form }
    ensures opened { O.asked opener.new ≡ O.asked opener.old ++ (path_in words.now, wanted) ∷ [] }
    ensures refused { IfOk result (λ it. (it.1 ≡ Nothing) ↔ (O.refusals opener.new ≡ suc (O.refusals opener.old))) }
    ensures ran { IfOk result (λ it. RanAs O.Opened.first O.Opened.deeds words.now (given S.Source job.old job.new) it.1 (R.puts it.2) it.0) }
{
    match opener.open(path_of(words), wanted) {
        Ok((file, bytes)) => {
            let (ended, file, screen, starved) = console_on_file(
                alloc, words, job, file, bytes, screen,
            );
            Ok((ended, RanOn::File(file, starved), screen))
        }
        Err(Unopened::Refused) => {
            let (ended, screen) = console_on_nothing(alloc, words, job, screen);
            Ok((ended, RanOn::Nothing, screen))
        }
        Err(Unopened::Memory) => Err(AllocError),
    }
}

/// The console on a disk in memory that holds these bytes.
fn on_bytes<S: Source, F, R: RawScreen>(
    alloc: Global,
    words: &[String],
    job: &mut S,
    bytes: Vec<u8>,
    screen: R,
) -> (Ended, RanOn<F>, R)
    requires puts { R.puts screen ≡ [] }
    requires words { (form : Command) → IsForm form words.now → (¬ (IsOnFile form)) × (bytes.items ≡ bytes_for form) }
    ensures ran { (first_of : F → List ℕ) (deeds_of : F → List Deed) → RanAs first_of deeds_of words.now (given S.Source job.old job.new) result.1 (R.puts result.2) result.0 }
    ensures refused { ¬ (result.1 ≡ Nothing) }
{
    let (ended, screen, starved) = console_on_screen(alloc, words, job, bytes, screen);
    (ended, RanOn::Memory(starved), screen)
}
