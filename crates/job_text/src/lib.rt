//! Jobs as texts (docs/FORMATS.md, "Job").
#![tactic(auto)]

mod job;
mod job_laws;
mod job_reading;
mod reader;
mod stage;
mod transfer_job;
mod writer;

pub use desk::Event;
pub use job::{Job, JobFault, Name};
pub use job_laws::{
    a_text_has_one_answer, faults_end_the_reading, jobs_have_their_form, names_have_no_line_feed,
};
pub use job_reading::read_job;
pub use transfer_job::big_job;
pub use writer::write_job;
