//! Why a file has no codestream that is read, or what is wrong with the boxes after it.

/// Why a file has no codestream that is read, or what is wrong with the boxes after it: the first error in the order of the
/// bytes.
#[derive(Clone, Copy, Debug, PartialEq, Eq, thiserror::Error)]
pub enum FileError {
    /// It begins neither as a codestream nor as boxes of JPEG XL.
    #[error("not a JPEG XL file")]
    NotJpegXl,
    /// The file ends before a box does.
    #[error("a box that passes the end of the file")]
    TruncatedBox,
    /// A box whose size is below that of its header, or of what each box of its type begins with.
    #[error("a box that is too small")]
    BoxTooSmall,
    /// The box after the signature is not the only file type box, or its brand is not `jxl `.
    #[error("a file type box that is missing, repeated or of another brand")]
    FileType,
    /// A box with a codestream, where one has been begun before.
    #[error("a second codestream")]
    SecondCodestream,
    /// A part of a codestream after the part that is marked as the last.
    #[error("a part of the codestream after its last part")]
    PartAfterLast,
    /// A part of a codestream whose number is not how many parts are before it.
    #[error("a part of the codestream out of order")]
    PartOutOfOrder,
    /// Parts of a codestream, none of which is marked as the last.
    #[error("a codestream without its last part")]
    NoLastPart,
    /// Boxes without a codestream.
    #[error("no codestream")]
    NoCodestream,
    /// A box from which a JPEG file is to be rebuilt, which is not supported.
    #[error("not supported: a JPEG file to be rebuilt")]
    JpegReconstruction,
    /// A compressed box that stands for a codestream, which is not supported.
    #[error("not supported: a compressed box of the codestream")]
    CompressedCodestream,
    /// There is no memory for the joined parts of the codestream.
    #[error("out of memory")]
    OutOfMemory,
}
