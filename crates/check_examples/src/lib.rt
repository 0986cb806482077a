//! The examples of the documents, which quote them.
#![tactic(auto)]

pub mod bytewise;
pub mod encoding;
pub mod maximum;
pub mod prefixed;
pub mod viewer;
