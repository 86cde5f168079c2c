//! The error of a failed allocation.

use std::alloc::AllocError;
use thiserror::Error;

/// The error of a function in which an allocation failed.
#[derive(Clone, Copy, Debug, PartialEq, Eq, Error)]
#[error("no memory")]
pub struct NoMemory;

impl From<AllocError> for NoMemory {
    fn from(_error: AllocError) -> NoMemory {
        NoMemory
    }
}
