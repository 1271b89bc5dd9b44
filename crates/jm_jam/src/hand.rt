//! A worker before its work.

use crate::job::Job;
use jm_desk::Pass;

/// A worker before its work: its job, and the pass that it works with.
#[derive(Drop)]
pub struct Hand {
    pub job: Job,
    pub pass: Pass,
}
