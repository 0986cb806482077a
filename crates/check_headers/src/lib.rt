//! Rows of image headers and frame headers: what they say, and the bits that they are written in again.
#![tactic(auto)]

mod frames;
pub mod images;
mod spelled;

use check_rows::Row;
use std::alloc::Global;

/// What comes of a row of headers; none if its kind is another.
pub fn seen(alloc: Global, row: &Row<'_>) -> Option<String> {
    match row.kind {
        "image" => images::seen(alloc, row.asked),
        "frame" => frames::seen(alloc, row.asked),
        "image_bits" => spelled::seen_of_image(alloc, row.asked),
        "image_again" => spelled::seen_of_image_again(alloc, row.asked),
        "frame_bits" => spelled::seen_of_frame(alloc, row.asked),
        "frame_again" => spelled::seen_of_frame_again(alloc, row.asked),
        _ => None,
    }
}
