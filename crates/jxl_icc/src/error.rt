//! Why an encoded stream has no profile.

/// Why an encoded stream has no profile, or a profile no stream.
#[derive(Clone, Copy, Debug, PartialEq, Eq, thiserror::Error)]
pub enum ProfileError {
    /// The profile is longer than the limit, or has 2^32 bytes or more.
    #[error("a profile that is too long")]
    TooLong,
    /// A size, a command or a number of a command passes the end of its part of the stream.
    #[error("a truncated command of the profile")]
    Truncated,
    /// A number of more than nine bytes.
    #[error("a number of more than nine bytes")]
    NumberTooLong,
    /// The data ends before the bytes that the header or a command takes.
    #[error("truncated data of the profile")]
    DataTruncated,
    /// A command of the tag list with an unknown code.
    #[error("an unknown tag")]
    UnknownTag,
    /// A number of the tag list that is not below 2^32.
    #[error("a number of the tag list that is too large")]
    TagTooLarge,
    /// A command of the main content with an unknown code.
    #[error("an unknown command")]
    UnknownCommand,
    /// A prediction of values of three bytes.
    #[error("a prediction of values of three bytes")]
    InvalidWidth,
    /// A prediction of order 3.
    #[error("a prediction of order 3")]
    InvalidOrder,
    /// A prediction whose stride is below its width, or four times its stride is not below the length so far.
    #[error("a prediction with an invalid stride")]
    InvalidStride,
    /// A command makes more bytes than the profile has left.
    #[error("a command that passes the end of the profile")]
    PastSize,
    /// Commands or data are left after the profile.
    #[error("unused bytes after the profile")]
    UnusedBytes,
    /// The commands make fewer bytes than the profile has.
    #[error("commands that end before the profile does")]
    ShortOfSize,
    /// There is no memory for the result.
    #[error("out of memory")]
    OutOfMemory,
}
