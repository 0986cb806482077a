//! Checks rows of tables, files that the arguments name: each row says what is asked, and what is expected of it. A line
//! that begins with # says what the rows after it are.
#![tactic(auto)]

mod encoded;
mod image;
mod params;
mod paths;
mod plain;
mod token;
mod tree;
mod walks;
mod within;

use crate::encoded::Format;
use check_examples::bytewise::Bytewise;
use check_images::{picture, sections, viewer};
use check_rows::{Kinds, Row, check_arguments};
use jxl_modular::plain::{PlainDecoder, PlainDecoder2};
use jxlm_fault::fault::FaultDecoder;
use std::alloc::Global;
use std::io;
use std::process::ExitCode;

/// What comes of a row of what an image is read by.
fn seen_of_reading(alloc: Global, row: &Row<'_>) -> Option<String> {
    match row.kind {
        "plain" => plain::seen::<PlainDecoder>(alloc, row.asked),
        "plain2" => plain::seen::<PlainDecoder2>(alloc, row.asked),
        "bytes" => plain::seen::<Bytewise>(alloc, row.asked),
        "reads" => params::seen_of_reads(alloc, row.asked),
        "params" => params::seen_of_params(alloc, row.asked),
        "header" => image::seen_of_header(alloc, row.asked, row.expected.contains('@')),
        "image" => image::seen_of_image(alloc, row.asked),
        "global" => image::seen_of_global_part(alloc, row.asked),
        "within" => within::seen(alloc, row.asked),
        _ => None,
    }
}

/// What comes of a row of an image.
fn seen_of_images(alloc: Global, row: &Row<'_>) -> Option<String> {
    let summed = row.expected.contains('#');
    match row.kind {
        "picture" => picture::seen::<PlainDecoder>(alloc, row.asked, summed),
        "bytewise" => picture::seen::<Bytewise>(alloc, row.asked, summed),
        "prefixes" => picture::sum_of_prefixes::<PlainDecoder>(alloc, row.asked),
        "truncated" => picture::sum_of_truncated::<PlainDecoder>(alloc, row.asked),
        "sections" => sections::seen::<PlainDecoder>(alloc, row.asked, summed, false),
        "partial" => sections::seen::<PlainDecoder>(alloc, row.asked, summed, true),
        "beginnings" => sections::sum_of_beginnings::<PlainDecoder>(alloc, row.asked),
        "truncated_sections" => sections::sums_of_truncated::<PlainDecoder>(alloc, row.asked),
        "viewer" => viewer::seen::<PlainDecoder>(alloc, row.asked),
        _ => None,
    }
}

/// What comes of a row of an image over the decoder that has errors, or of a tree.
fn seen_of_trees(alloc: Global, row: &Row<'_>) -> Option<String> {
    let summed = row.expected.contains('#');
    match row.kind {
        "fault_picture" => picture::seen::<FaultDecoder>(alloc, row.asked, summed),
        "fault_sections" => sections::seen::<FaultDecoder>(alloc, row.asked, summed, false),
        "fault_partial" => sections::seen::<FaultDecoder>(alloc, row.asked, summed, true),
        "tree" => tree::seen(alloc, row.asked, summed),
        "walks" => walks::seen(alloc, row.asked),
        "facts" => walks::facts(alloc, row.asked),
        "path" => paths::seen(alloc, row.asked),
        _ => None,
    }
}

/// What comes of a row of the encoder.
fn seen_of_encoder(alloc: Global, row: &Row<'_>) -> Option<String> {
    match row.kind {
        "i16" => encoded::seen::<i16>(alloc, row.asked, Format::First),
        "i32" => encoded::seen::<i32>(alloc, row.asked, Format::First),
        "gamma16" => encoded::seen::<i16>(alloc, row.asked, Format::Second),
        "gamma32" => encoded::seen::<i32>(alloc, row.asked, Format::Second),
        "token" => token::seen(alloc, row.asked),
        _ => None,
    }
}

/// The kinds of rows of Modular images.
struct ModularRows;

impl Kinds for ModularRows {
    fn seen(alloc: Global, row: &Row<'_>) -> Option<String> {
        if let Some(seen) = seen_of_images(alloc, row) {
            return Some(seen);
        }
        if let Some(seen) = seen_of_reading(alloc, row) {
            return Some(seen);
        }
        if let Some(seen) = seen_of_trees(alloc, row) {
            return Some(seen);
        }
        seen_of_encoder(alloc, row)
    }
}

fn main(rt: HostRuntime) -> io::Result<ExitCode> {
    check_arguments::<ModularRows>(&rt)
}
