// What the words want of a disk and of the source.
ghost use Rattle.std.specs.Prelude.{◌≡◌, [], map, slice_index_or, string_bytes};
ghost use Rattle.console.specs.Words.{IsForm, IsNoForm};
ghost use Rattle.console.specs.Wants.{disk_for, source_for};

use super::command_words::{Command, command_of};
use call_status::{MOST_OF_BUNDLE, MOST_OF_JOB, MOST_OF_STORE};

/// The disk that words want (docs/FORMATS.md, "Words").
#[derive(Clone, Copy)]
pub enum DiskKind {
    /// A file that is looked at alone.
    Looked,
    /// A file that is changed.
    Changed,
    /// A file that is made where there is none.
    Made,
    /// The store of `try`, in memory.
    OfTry,
    /// None: an empty one in memory is handed in.
    Empty,
}

/// The disk that the words want, which is none where they are no command.
pub fn disk_of(words: &[String]) -> DiskKind
    ensures asked { (form : Command) → IsForm form words.now → result ≡ disk_for form }
    ensures none { IsNoForm words.now → result ≡ DiskKind.Empty }
{
    match command_of(words) {
        Some(command) => kind_for(&command),
        None => DiskKind::Empty,
    }
}

/// How many bytes of the source the words read at most: all that they take, and one more, by which a longer source is told. None where they
/// read nothing, or are no command.
pub fn reads_source(words: &[String]) -> usize
    ensures asked { (form : Command) → IsForm form words.now → result ≡ source_for form }
    ensures none { IsNoForm words.now → result ≡ 0 }
{
    match command_of(words) {
        Some(command) => reads(&command),
        None => 0,
    }
}

/// The path of the store that the words name, which is the second of them.
pub fn path_of(words: &[String]) -> &str
    ensures { result.now ≡ slice_index_or (map string_bytes words.now) 1 [] }
{
    match words {
        [_, store, ..] => store.as_str(),
        _ => "",
    }
}

fn kind_for(command: &Command) -> DiskKind
    ensures { result ≡ disk_for command.now }
{
    match command {
        Command::Run | Command::Follow => DiskKind::Changed,
        Command::Show(_) | Command::Ship(_) => DiskKind::Looked,
        Command::New(_) | Command::Renew(_) => DiskKind::Made,
        Command::Try | Command::Big(_) => DiskKind::OfTry,
        Command::List | Command::Drill | Command::Audit | Command::Trace(_) => DiskKind::Empty,
    }
}

fn reads(command: &Command) -> usize
    ensures { result ≡ source_for command.now }
{
    match command {
        Command::Try | Command::Run | Command::List | Command::Drill | Command::Follow => {
            MOST_OF_JOB + 1
        }
        Command::Renew(_) => MOST_OF_STORE + 1,
        Command::Audit | Command::Trace(_) => MOST_OF_BUNDLE + 1,
        Command::Show(_) | Command::New(_) | Command::Ship(_) | Command::Big(_) => 0,
    }
}
