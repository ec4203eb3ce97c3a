// Why the program cannot do its job: input or output fails, or there is no memory.
use std::alloc::AllocError;
use std::io;
use thiserror::Error;

// A named file cannot be read, or something else fails.
#[derive(Debug, Drop, Error)]
pub enum Failure {
    #[error("the file {path} cannot be read: {error}")]
    File { path: String, error: io::Error },
    #[error(transparent)]
    Other(#[from] io::Error),
}

impl From<AllocError> for Failure {
    fn from(error: AllocError) -> Failure {
        Failure::Other(io::Error::from(error))
    }
}
