// The one call that does all: a command, and the room that it leads to.
ghost use Rattle.std.specs.Prelude.{◌≡◌, ◌⊎◌, ◌↔◌, [], None};
ghost use Rattle.console.specs.Below.{given, OpensBy, order_told, ReadFaultsBy, ReadsBy};
ghost use Rattle.job_calls.specs.Handed.{HandedFits, HandsOn};
ghost use Rattle.console.specs.Causes.{Completes, IsOfCommand};
ghost use Rattle.console.specs.Did.{Does};
ghost use Rattle.console.specs.Words.{IsForm, IsNoForm, OpensSession, ReadsBundle, ReadsJob, ReadsStore, ReadsText, RunsJob};

use super::command_words::{Command, command_of};
use super::list::list_source;
use call_status::Status;
use drills::drill_source;
use job_calls::{Ended, run_load, run_source};
use outside::{Outside, Source};
use standby::{follow_source, ship_store};
use std::alloc::Global;
use store_calls::{audit_source, make_store, renew_store, show_range, trace_source};

/// All that the program does: it takes the words of the command line, without the program's name, and the source, disk
/// and screen that are handed in, and answers how it ended (docs/FORMATS.md, "Words" and "Statuses").
/// A file that the word STORE names is opened by whoever makes the disk.
pub fn console<S: Source, W: Outside>(
    alloc: Global,
    words: &[String],
    job: &mut S,
    outside: &mut W,
) -> Ended
    ensures usage { result.status ≡ Status.Usage ↔ IsNoForm words.now }
    ensures unasked { result.status ≡ Status.Usage → (job.new ≡ job.old) × (outside.new ≡ outside.old) × (order_told result.order.items ≡ []) }
    ensures only { (form : Command) → IsForm form words.now → IsOfCommand form result.status }
    ensures read { ReadsJob words.now → ReadsBy (given S.Source job.old job.new) result.status }
    ensures unread { (¬ (ReadsJob words.now ⊎ ReadsBundle words.now ⊎ ReadsStore words.now ⊎ ReadsText words.now)) → job.new ≡ job.old }
    ensures faults { ReadFaultsBy W.Outside (given S.Source job.old job.new) outside.old outside.new result.status }
    ensures opened { RunsJob words.now → OpensBy W.Outside outside.old outside.new result.status result.session }
    ensures did { (form : Command) → IsForm form words.now → Does W.Outside form (given S.Source job.old job.new) outside.old outside.new result }
    ensures handed { OpensSession words.now → HandsOn (order_told result.order.items) result.session result.status }
    ensures fits { HandedFits W.Outside outside.new result.session }
    ensures no_session { (¬ (OpensSession words.now)) → result.session ≡ None }
    ensures complete { Completes W.Outside words.now (given S.Source job.old job.new) outside.old outside.new result.status }
{
    let Some(command) = command_of(words) else {
        return Ended::without_events(alloc, Status::Usage);
    };
    match command {
        Command::Try | Command::Run => run_source(alloc, job, outside),
        Command::List => Ended::without_events(alloc, list_source(alloc, job, outside)),
        Command::Drill => Ended::without_events(alloc, drill_source(alloc, job, outside)),
        Command::Show(range) => Ended::without_events(alloc, show_range(alloc, range, outside)),
        Command::New(header) => Ended::without_events(alloc, make_store(alloc, &header, outside)),
        Command::Renew(bank_bytes) => {
            Ended::without_events(alloc, renew_store(alloc, bank_bytes, job, outside))
        }
        Command::Ship(from) => Ended::without_events(alloc, ship_store(alloc, from, outside)),
        Command::Follow => Ended::without_events(alloc, follow_source(alloc, job, outside)),
        Command::Big(transfers) => run_load(alloc, transfers, outside),
        Command::Audit => Ended::without_events(alloc, audit_source(alloc, job, outside)),
        Command::Trace(activation) => {
            Ended::without_events(alloc, trace_source(alloc, job, activation, outside))
        }
    }
}
