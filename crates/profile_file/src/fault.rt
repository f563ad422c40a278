//! Why a profile was not loaded.
use qos_profile::ProfileFault;
use thiserror::Error;

/// Why a profile was not loaded from a file.
#[derive(Clone, Copy, Debug, PartialEq, Eq, Error)]
pub enum LoadFault {
    /// The file was not opened, or a read of it failed.
    #[error("not read")]
    Unread,
    /// The file's text is no profile.
    #[error("{0}")]
    Fault(ProfileFault),
    /// Memory was refused.
    #[error("out of memory")]
    NoMemory,
}
