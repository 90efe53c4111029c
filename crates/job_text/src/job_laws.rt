// Laws of the definitions (docs/MODEL.md, "A job").
ghost use Rattle.std.specs.Prelude.{◌≡◌, ◌⊎◌, ℕ, List, Err};
ghost use Rattle.job_text.specs.Form.{FaultsEndTheReading, IsJobText, JobsHaveTheirForm};
ghost use Rattle.job_text.specs.Grammar.{Content, job_of};
ghost use Rattle.job_text.specs.Ready.{NamesHaveNoFeed};

/// A text is a job exactly where it has the form of one: frames, programs, a schedule of events and `end`, as
/// docs/FORMATS.md, "Job", says. Then it is that job.
pub fn jobs_have_their_form()
    ensures { JobsHaveTheirForm }
{}

/// Each text has the form of one job, or has one first fault, and not both.
pub fn a_text_has_one_answer()
    ensures some { (text : List ℕ) → ((content : Content) × IsJobText text content) ⊎ ((fault : ℕ × ℕ) × (job_of text ≡ Err fault)) }
    ensures job { (text : List ℕ) (one other : Content) → IsJobText text one → IsJobText text other → one ≡ other }
    ensures fault { (text : List ℕ) (content : Content) (fault : ℕ × ℕ) → IsJobText text content → ¬ (job_of text ≡ Err fault) }
{}

/// The first fault from the top ends the reading: it is kind 10 of what comes after the last line feed, or it stays,
/// whatever follows the lines of the text.
#[tactic(auto, using(crate::proofs::LawLemmas::first_fault))]
pub fn faults_end_the_reading()
    ensures { FaultsEndTheReading }
{}

/// No byte of a name is a line feed, so a report's line that has a name is one line.
#[tactic(auto, using(crate::proofs::BackLemmas::name_no_feed))]
pub fn names_have_no_line_feed()
    ensures { NamesHaveNoFeed }
{}
