//! What is kept of one request.

use crate::reports::Reports;
use rpc_items::{Expect, Outcome};

/// How far a request is.
#[derive(Debug, Drop)]
pub enum Kept {
    /// No response came.
    Waiting,
    /// What the first response told.
    Answered(Outcome),
    /// Its outcome was known, and isn't kept.
    Forgotten,
}

/// A request of this end.
#[derive(Debug, Drop)]
pub struct Entry {
    pub expect: Expect,
    /// Whether it asked for reports of progress.
    pub progress: bool,
    pub kept: Kept,
    /// Whether it was cancelled here.
    pub cancelled: bool,
    pub reports: Reports,
}
