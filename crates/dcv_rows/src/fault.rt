// Why the rows of a file were not all judged.
use dcv_io::TakeFault;
use std::alloc::AllocError;
use std::io;
use thiserror::Error;

#[derive(Debug, Drop, Error)]
pub(crate) enum Fault {
    #[error("{0}")]
    Take(#[from] TakeFault),
    #[error("the file is not UTF-8 text")]
    NotUtf8,
    #[error("out of memory")]
    Memory(#[from] AllocError),
    #[error("{0}")]
    System(#[from] io::Error),
    #[error("{0}")]
    Library(anyhow::Error),
}
