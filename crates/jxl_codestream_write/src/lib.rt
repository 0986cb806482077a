//! What a still picture has before the samples of its frame, written (ISO/IEC 18181-1: codestream).
#![tactic(auto)]

pub mod front;
pub mod start;
pub mod toc;
