//! The words of the command line: the job that they ask for, or why there is none.
//!
//! It stands on `clap`, whose contracts say what it finds in words, and on the fields and formats
//! of `cb_desk`. The program uses `job_of`: a job is the one that clap's own definition of the
//! command gives for the words.
#![tactic(auto)]

mod job;

pub use job::{Job, Usage, VERSION, job_of};
