//! For how long the pictures of a JPEG XL file are shown, by the headers of its frames, also as lines of text.
#![tactic(auto)]

pub mod text;
pub mod timeline;
