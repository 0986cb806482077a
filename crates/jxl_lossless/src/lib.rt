//! Lossless pictures of JPEG XL files (ISO/IEC 18181-1, 18181-2): the container, the headers, and the frames.
#![tactic(auto)]

mod codestream;
pub mod error;
mod file;
pub mod frame;
mod picture;
mod sections;
pub mod still;
mod tree;

pub use error::FileError;
pub use file::{JxlFile, decode_lossless, decode_lossless_with};
pub use jxl_modular::sections::Progress;
pub use jxl_picture::limits::Limits;
pub use jxl_picture::picture::Picture;
pub use jxlm_tree::flat::Steps;
pub use still::error::FrameError;
