//! How frames of a JPEG XL file make one picture (ISO/IEC 18181-1, frame header: BlendingInfo): the samples of a frame
//! and those of the picture below it, blended channel by channel.
#![tactic(auto)]

pub mod blending;
pub mod choice;
pub mod grid;
pub mod overlap;
mod row;
pub mod scale;
pub mod singles;
