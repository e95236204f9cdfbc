//! An output that its reader closes early, as `head` does once it has its lines: that is no failure.
use mt_recover::{Failure, Refusal};
use std::io::{self, ErrorKind};

/// Returns whether the output failed because its reader has closed it.
pub fn is_closed(refusal: &Refusal<'_>) -> bool {
    match (&refusal.failure, &refusal.reason) {
        (Failure::Output, Some(reason)) => reason.kind() == ErrorKind::BrokenPipe,
        _ => false,
    }
}

/// Passes over the error of an output that its reader has closed.
pub fn unless_closed(printed: io::Result<()>) -> io::Result<()> {
    match printed {
        Err(error) if error.kind() == ErrorKind::BrokenPipe => Ok(()),
        printed => printed,
    }
}
