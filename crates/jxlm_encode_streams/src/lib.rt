//! Images whose trees and samples any decoder reads as streams are encoded.
#![tactic(auto)]

pub mod laws;
