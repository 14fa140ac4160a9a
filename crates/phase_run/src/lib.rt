//! A trace carried out by threads: its lines, read to the end before anything is done; what each call of a worker asks for, by the
//! names that it knows; and the workers of a phase, which carry out what its clients do, beside each other.
#![tactic(auto)]

mod crews;
mod crowds;
mod jobs;
mod names;
mod phases;
mod reading;
mod requests;
mod runs;
mod summaries;
mod tally;
mod workers;

pub use crowds::work_at_once;
pub use jobs::Job;
pub use names::{Names, Place};
pub use phases::read_phases;
pub use reading::{Unread, read_lines};
pub use requests::{request_of, setting_request};
pub use runs::{Threaded, threads};
pub use tally::Tally;
pub use workers::{Shift, Worker, work};
