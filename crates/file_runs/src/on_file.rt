// The console on a file and a screen.
ghost use Rattle.std.specs.Prelude.{◌≡◌, ◌↔◌, [], List, ℕ, Bool, count_by, false, true, IsTrue, Some};
ghost use Rattle.call_status.specs.declared.status.Status.{Status};
ghost use Rattle.outside.specs.Causes.{Rose};
ghost use Rattle.console.specs.Below.{ReadFaultsBy, ReadsBy};
ghost use Rattle.console.specs.Causes.{IsOfCommand};
ghost use Rattle.console.specs.Words.{IsForm, IsNoForm, ReadsJob};
ghost use Rattle.file_runs.specs.Below.{Command, Deed, given, StopsAtFailure};
ghost use Rattle.file_runs.specs.FileNeeds.{EndsWellUnfailed, HasAllOnFile};
ghost use Rattle.file_runs.specs.FileRun.{AreBehind, IsBehind};
ghost use Rattle.file_runs.specs.FileWords.{DidOnFile, IsOnFile, WhyEnded};
ghost use Rattle.file_runs.specs.ScreenWords.{DidOnScreen};
ghost use Rattle.real_files.specs.Deeds.{deed_failed};

use console::{Ended, console};
use outside::{Joint, Outside, Source};
use real_files::{AbsentDisk, MemoryFile, NotedScreen, RawFile, RawScreen, outside_of, raw_of};
use std::alloc::Global;

/// The console on an outside, behind which there may be a file and a screen, or a screen alone.
fn console_behind<S: Source, W: Outside>(
    alloc: Global,
    words: &[String],
    job: &mut S,
    outside: &mut W,
) -> Ended
    ensures usage { result.status ≡ Status.Usage ↔ IsNoForm words.now }
    ensures only { (form : Command) → IsForm form words.now → IsOfCommand form result.status }
    ensures read { ReadsJob words.now → ReadsBy (given S.Source job.old job.new) result.status }
    ensures complete { (form : Command) → IsForm form words.now → (first : List ℕ) → IsTrue (W.is_honest outside.old) → W.held outside.old ≡ Some first → HasAllOnFile form (given S.Source job.old job.new).left first
        → EndsWellUnfailed W.Outside (given S.Source job.old job.new) outside.old outside.new result.status }
    ensures faults { ReadFaultsBy W.Outside (given S.Source job.old job.new) outside.old outside.new result.status }
    ensures same { (form : Command) → IsForm form words.now → IsOnFile form → (W.moment outside.new).origin ≡ (W.moment outside.old).origin }
    ensures did { (form : Command) → IsForm form words.now → (first : List ℕ) (deeds puts : List Deed) (starved : Bool) → AreBehind W.Outside outside.old outside.new first deeds puts starved → DidOnFile starved form (given S.Source job.old job.new) first deeds puts result }
    ensures shown { (form : Command) → IsForm form words.now → (first : List ℕ) (puts : List Deed) (starved : Bool) → IsBehind W.Outside outside.old outside.new first puts
        → (starved ≡ false → ¬ (Rose (W.disk_faults outside.old) (W.disk_faults outside.new))) → DidOnScreen starved form (given S.Source job.old job.new) first puts result }
{
    console(alloc, words, job, outside)
}

/// The console on a file that gave these bytes, and a screen: nothing was asked of them yet. They are handed back; where a call on the
/// file failed, that was the last. The last of the answer says whether there was no memory for what was written past the file's end.
pub fn console_on_file<S: Source, F: RawFile, R: RawScreen>(
    alloc: Global,
    words: &[String],
    job: &mut S,
    file: F,
    bytes: Vec<u8>,
    screen: R,
) -> (Ended, F, R, bool)
    requires first { F.first file ≡ bytes.items }
    requires deeds { F.deeds file ≡ [] }
    requires puts { R.puts screen ≡ [] }
    ensures why { WhyEnded words.now (given S.Source job.old job.new) bytes.items (F.deeds result.1) (R.puts result.2) result.3 result.0 }
    ensures same { (form : Command) → IsForm form words.now → IsOnFile form → F.first result.1 ≡ bytes.items }
    ensures stops { StopsAtFailure (F.deeds result.1) }
    ensures did { (form : Command) → IsForm form words.now → IsOnFile form → DidOnFile result.3 form (given S.Source job.old job.new) bytes.items (F.deeds result.1) (R.puts result.2) result.0 }
    ensures shown { (form : Command) → IsForm form words.now → count_by deed_failed (F.deeds result.1) ≡ 0 → DidOnScreen result.3 form (given S.Source job.old job.new) bytes.items (R.puts result.2) result.0 }
{
    let mut outside = outside_of(file, bytes, screen);
    let ended = console_behind(alloc, words, job, &mut outside);
    let (file, screen, starved) = raw_of(outside);
    (ended, file, screen, starved)
}

/// The console on a disk in memory that holds these bytes, and a screen to which nothing was handed yet. The screen is handed back. The last of the
/// answer says whether there was no memory for what was written past the bytes' end; no other call on the disk fails.
pub fn console_on_screen<S: Source, R: RawScreen>(
    alloc: Global,
    words: &[String],
    job: &mut S,
    bytes: Vec<u8>,
    screen: R,
) -> (Ended, R, bool)
    requires { R.puts screen ≡ [] }
    ensures why { WhyEnded words.now (given S.Source job.old job.new) bytes.items [] (R.puts result.1) result.2 result.0 }
    ensures did { (form : Command) → IsForm form words.now → DidOnScreen result.2 form (given S.Source job.old job.new) bytes.items (R.puts result.1) result.0 }
{
    let file = MemoryFile::new(&bytes);
    let (ended, file, screen, starved) = console_on_file(alloc, words, job, file, bytes, screen);
    file.close();
    (ended, screen, starved)
}

/// The console where the file that the words name can't be opened, and a screen to which nothing was handed yet. The screen is handed back.
pub fn console_on_nothing<S: Source, R: RawScreen>(
    alloc: Global,
    words: &[String],
    job: &mut S,
    screen: R,
) -> (Ended, R)
    requires { R.puts screen ≡ [] }
    ensures why { WhyEnded words.now (given S.Source job.old job.new) [] [] (R.puts result.1) true result.0 }
    ensures did { (form : Command) → IsForm form words.now → DidOnFile true form (given S.Source job.old job.new) [] [] (R.puts result.1) result.0 }
{
    let disk = AbsentDisk::new();
    let noted = NotedScreen::new(screen);
    let mut outside = Joint::new(disk, noted);
    let ended = console_behind(alloc, words, job, &mut outside);
    let (_, shown) = outside.into_parts();
    (ended, shown.into_screen())
}
