//! The patches of a frame: they stand at the begin of its first section, and are put into its channels.

ghost use Rattle.std.specs.Prelude.{◌≡◌, ◌+◌, ◌*◌, ◌<◌, ◌≤◌, ◌^◌, length, IfOk};
ghost use Rattle.std.specs.Option.{IfSome, option_map};
ghost use Rattle.jxlm_bits.specs.Bits.{bytes_of, position_of};
ghost use Rattle.jxl_image_header.specs.Images.{image_of};
ghost use Rattle.jxl_patches.specs.Dictionaries.{AreWithin, patches_of};
ghost use Rattle.jxl_patches.specs.Errors.{patch_kind};
ghost use Rattle.jxlm_bits.specs.Grammar.{ParsesBy};
ghost use Rattle.jxl_patches.specs.Slots.{ArePut, AreOfSize, HoldFrames, optional_patches};
ghost use Rattle.jxl_patches.specs.SavedParts.{sizes_in, slots_of};

use crate::dictionary::Dictionary;
use crate::error::PatchError;
use crate::slots::SavedFrames;
use jxl_image_header::image::ImageHeader;
use jxl_image_header::size::Size;
use jxlm_base::grid::{AlignedGrid, OutOfMemory};
use jxlm_bits::bits::Bitstream;
use jxlm_bits::decoder::Decoder;
use std::alloc::Global;

// How many cells the patches of a frame of this size may put.
fn patch_limit(size: Size) -> u64
    requires wide { size.width ≤ 2 ^ 30 }
    requires high { size.height ≤ 2 ^ 30 }
    ensures { result ≡ 4096 + 4 * (size.width * size.height) }
{
    4096 + 4 * (u64::from(size.width) * u64::from(size.height))
}

/// The dictionary of patches, if there is one, of a frame of this size with this number of extra channels, which takes
/// rectangles of the frames that slots hold.
pub fn read_patches<D: Decoder>(
    alloc: Global,
    bits: &mut Bitstream<'_>,
    there: bool,
    size: Size,
    extra: usize,
    slots: &SavedFrames,
) -> Result<Option<Dictionary>, PatchError>
    requires wide { size.width ≤ 2 ^ 30 }
    requires high { size.height ≤ 2 ^ 30 }
    requires extra { extra < 2 ^ 63 }
    ensures gives { ParsesBy patch_kind (option_map patches_of) result (position_of bits.new)
        ((optional_patches D.meaning there size extra (sizes_in slots.now)).read (bytes_of bits.old)
        (position_of bits.old)) }
    ensures fits { IfOk result (λ p. IfSome p (λ d. AreWithin size extra (sizes_in slots.now) (patches_of d))) }
    ensures bytes { bytes_of bits.new ≡ bytes_of bits.old }
{
    if !there {
        return Ok(None);
    }
    let limit = patch_limit(size);
    let dictionary = Dictionary::parse::<D>(alloc, bits, size, extra, slots, limit)?;
    Ok(Some(dictionary))
}

/// Puts patches, if there are any, into channels of an image, of this size, of which these numbers are colours and extra
/// ones.
///
/// # Errors
///
/// Out of memory.
pub fn put_patches(
    alloc: Global,
    patches: &Option<Dictionary>,
    image: &ImageHeader,
    size: Size,
    colours: usize,
    extra: usize,
    slots: &SavedFrames,
    channels: &mut [AlignedGrid<i32>],
) -> Result<(), OutOfMemory>
    requires fits { IfSome patches.now (λ d. AreWithin size extra (sizes_in slots.now) (patches_of d)) }
    requires held { HoldFrames (colours + extra) (slots_of slots.now) }
    requires sides { AreOfSize (colours + extra) size channels.old }
    ensures put { IfOk result (λ _. ArePut (image_of image.now) (slots_of slots.now) colours
        (option_map patches_of patches.now) channels.old channels.new) }
    ensures sides { IfOk result (λ _. AreOfSize (colours + extra) size channels.new) }
{
    if let Some(dictionary) = patches {
        dictionary.apply(alloc, image, colours, channels, slots)?;
    }
    Ok(())
}
