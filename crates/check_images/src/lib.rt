//! Images as rows of tables have them: what is asked of a picture, or of an image in sections, and what comes of it,
//! for any decoder.
#![tactic(auto)]

mod channel_words;
mod image_samples;
mod input;
mod parts;
pub mod picture;
mod reading;
pub mod sections;
pub mod viewer;

pub use channel_words::channels;
pub use image_samples::samples;
pub use parts::decode_by_header;
pub use reading::read;
