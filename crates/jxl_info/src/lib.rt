//! What the headers of a JPEG XL file tell, as lines of text, also of files that are not decoded.
#![tactic(auto)]

mod channels;
mod colours;
pub mod headers;
pub mod names;
pub mod reasons;
pub mod text;
