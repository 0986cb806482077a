//! Pictures of the netpbm formats, read: PGM, PPM, PAM and PFM.
#![tactic(auto)]

pub mod error;
pub mod header;
pub mod laws;
pub mod pam;
mod parts;
pub mod picture;
mod plain;
mod samples;
pub mod words;
