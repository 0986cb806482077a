//! The samples of a lossless still frame, from its sections: the image's header stands in the first one, and each group
//! with samples has one of its own (ISO/IEC 18181-1, frame: sections). Where the sections lie is the matter of a caller.

pub mod codewords;
pub mod decode;
mod depths;
pub mod error;
mod opening;
pub mod places;
mod trees;
