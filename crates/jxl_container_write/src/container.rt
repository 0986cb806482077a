//! Files in boxes, written.

ghost use Rattle.std.specs.Prelude.{◌≡◌, ◌≤◌, ◌++◌, ◌<◌, ◌^◌, length, None, Ok, IfOk, IfSome};
ghost use Rattle.std.specs.Option.{option_map};
ghost use Rattle.jxl_container.specs.Files.{HasCodestream, HasLaterError};
ghost use Rattle.jxl_container_write.specs.Containers.{HasBoxes, boxes_of, box_if, level_box};
ghost use Rattle.jxl_container_write.specs.Inner.Spelled.{all_bytes, signature};

use crate::boxes::add_box;
use std::alloc::{AllocError, Global};

/// The level of a codestream, which says how much a decoder has to be capable of.
#[derive(Clone, Copy, Debug, PartialEq, Eq)]
pub enum Level {
    /// Level 5, that of each file that signals none.
    Five,
    /// Level 10.
    Ten,
}

/// The first box of each file in boxes.
const SIGNATURE: [u8; 12] = [0, 0, 0, 12, 74, 88, 76, 32, 13, 10, 135, 10];
/// `ftyp`, which names the kind of file.
const FILE_TYPE: u32 = 0x6674_7970;
/// The brand `jxl `, version 0, and the brand that the file is compatible with.
const BRANDS: [u8; 12] = [106, 120, 108, 32, 0, 0, 0, 0, 106, 120, 108, 32];
/// `jxll`: the level.
const LEVEL: u32 = 0x6a78_6c6c;
/// `Exif`.
const EXIF: u32 = 0x4578_6966;
/// `xml `: XMP.
const XMP: u32 = 0x786d_6c20;
/// `jxlc`: a codestream.
const WHOLE: u32 = 0x6a78_6c63;

// Adds the box of the level, if it is not 5.
fn add_level(file: &mut Vec<u8>, level: Level) -> Result<(), AllocError>
    ensures { IfOk result (λ _. file.new.items ≡ file.old.items ++ all_bytes (level_box level)) }
{
    match level {
        Level::Five => Ok(()),
        Level::Ten => add_box(file, LEVEL, &[], &[10]),
    }
}

// Adds a box whose contents are `head` and `contents`, if present.
fn add_box_if(
    file: &mut Vec<u8>,
    kind: u32,
    head: &[u8],
    contents: Option<&[u8]>,
) -> Result<(), AllocError>
    requires { length head.now ≤ 16 }
    ensures added { IfOk result (λ _. file.new.items ≡ file.old.items
        ++ all_bytes (box_if kind head.now (option_map (λ s. s.now) contents.entry))) }
    ensures short { IfSome (option_map (λ s. s.now) contents.entry) (λ bytes. length bytes < 2 ^ 63) }
{
    match contents {
        None => Ok(()),
        Some(contents) => add_box(file, kind, head, contents),
    }
}

/// A file in boxes: the signature, `ftyp`, the level in a `jxll`, if it is not 5, an `Exif` and an `xml ` box, if
/// present, and the codestream in one `jxlc`.
///
/// `exif` is the data from its TIFF header on, `xmp` a packet. Neither they nor the codestream are looked at. A size
/// that does not fit in four bytes takes eight.
pub fn write_container(
    alloc: Global,
    codestream: &[u8],
    level: Level,
    exif: Option<&[u8]>,
    xmp: Option<&[u8]>,
) -> Result<Vec<u8>, AllocError>
    ensures boxes { IfOk result (λ v. HasBoxes v.items (boxes_of codestream.now level
        (option_map (λ s. s.now) exif.entry) (option_map (λ s. s.now) xmp.entry))) }
    ensures codestream { IfOk result (λ v. HasCodestream v.items (Ok codestream.now)) }
    ensures sound { IfOk result (λ v. HasLaterError v.items None) }
{
    let mut file = Vec::new(alloc);
    file.extend_from_slice(&SIGNATURE)?;
    add_box(&mut file, FILE_TYPE, &[], &BRANDS)?;
    add_level(&mut file, level)?;
    add_box_if(&mut file, EXIF, &[0, 0, 0, 0], exif)?;
    add_box_if(&mut file, XMP, &[], xmp)?;
    add_box(&mut file, WHOLE, &[], codestream)?;
    Ok(file)
}
