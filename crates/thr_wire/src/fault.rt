//! What can go wrong with a device.

use thiserror::Error;

/// A device failed at a call.
#[derive(Clone, Copy, Debug, PartialEq, Eq)]
pub struct Failed;

/// Why a source was not read whole.
#[derive(Debug, Drop, Error)]
pub enum WireFault {
    /// The source failed.
    #[error("reading failed")]
    ReadFault,
    /// More bytes than the limit were taken.
    #[error("the input is too long")]
    TooLong,
    #[error("out of memory")]
    NoMemory,
}

/// Why bytes were not written whole.
#[derive(Debug, Drop, Error)]
pub enum WriteFault {
    /// The sink failed, and holds a part of them.
    #[error("writing failed")]
    Failed,
}
