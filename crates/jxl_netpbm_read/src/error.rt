//! Why a file is not read.

ghost use Rattle.std.specs.Prelude.{◌≡◌};

use jxlm_base::grid::OutOfMemory;
use std::alloc::AllocFailed;

/// Why a file is read as no picture: the first error of its header in the order of its bytes, or else that of its
/// samples.
#[derive(Clone, Copy, Debug, PartialEq, Eq, thiserror::Error)]
pub enum NetpbmError {
    /// It does not begin as a file of these formats.
    #[error("not a PGM, PPM, PAM or PFM file")]
    Magic,
    /// It ends before its samples do.
    #[error("truncated")]
    Truncated,
    /// A word of the header is not one of those that can follow.
    #[error("invalid header")]
    InvalidHeader,
    /// A PAM header has no width, no height, no depth or no maximum.
    #[error("a line of the header is missing")]
    MissingLine,
    /// A side is 0 or above 2^30.
    #[error("invalid size")]
    Size,
    /// The maximum of samples is not 2^n - 1 with n from 1 to 16.
    #[error("maximum not supported")]
    Maximum,
    /// The type of tuples of a PAM file is not supported, or has another number of channels.
    #[error("channels not supported")]
    Channels,
    /// A sample is above the maximum.
    #[error("sample above the maximum")]
    Sample,
    /// Out of memory.
    #[error("out of memory")]
    OutOfMemory,
}

impl From<OutOfMemory> for NetpbmError {
    ghost use Rattle.jxl_netpbm_read.specs.declared.error.NetpbmError.TheVariants.{OutOfMemory as Memory};

    ghost from_gives = { λ _ e. e ≡ Memory };

    fn from(_error: OutOfMemory) -> NetpbmError {
        NetpbmError::OutOfMemory
    }
}

impl<T: Drop> From<AllocFailed<T>> for NetpbmError {
    ghost use Rattle.jxl_netpbm_read.specs.declared.error.NetpbmError.TheVariants.{OutOfMemory as Memory};

    ghost from_gives = { λ _ e. e ≡ Memory };

    fn from(_error: AllocFailed<T>) -> NetpbmError {
        NetpbmError::OutOfMemory
    }
}
