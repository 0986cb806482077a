//! What a still picture has before the sections of its frame, written.

ghost use Rattle.std.specs.Prelude.{◌≡◌, ◌<◌, ◌≤◌, ◌++◌, ◌^◌, ℕ, List, true, false, None, is_some, length, IfOk, IfSome};
ghost use Rattle.std.specs.List.{list_all};
ghost use Rattle.std.specs.Option.{option_map};
ghost use Rattle.jxlm_bit_writer.specs.Writes.{Adds};
ghost use Rattle.jxl_container.specs.Files.{is_bare};
ghost use Rattle.jxl_image_header.specs.Images.{image_of, image_refusal};
ghost use Rattle.jxl_image_header_write.specs.Writable.{is_writable};
ghost use Rattle.jxl_frame_header_write.specs.Stills.{still_frame};
ghost use Rattle.jxl_coding.specs.Parse.{decoder_at};
ghost use Rattle.jxl_coding.specs.Tokens.{entropy};
ghost use Rattle.jxl_codestream.specs.Fronts.{layout_in};
ghost use Rattle.jxl_codestream.specs.Layouts.{max_sections, section_count_of};
ghost use Rattle.jxl_codestream_write.specs.Tables.{is_section_size};
ghost use Rattle.jxl_codestream_write.specs.StillFronts.{IsProfiledFront, IsStillFront};
ghost use Rattle.jxl_codestream_write.specs.Inner.Parts.{BeginsWith, IsFrameFront, IsFrontBefore, IsImageFront, IsProfileIf};

use crate::toc::write_toc;
use jxl_coding::decoder::EntropyDecoder;
use jxl_frame_header_write::still::write_still_header;
use jxl_image_header::image::ImageHeader;
use jxl_image_header_write::image::write_image_header;
use jxl_profile_write::profile::write_profile;
use jxlm_bit_writer::writer::BitWriter;
use jxlm_bits::decoder::Decoder;
use std::alloc::{AllocError, Global};

// Bytes that begin with an image header begin with its signature, as a codestream does.
fn begins_bare(bytes: &[u8], image: &ImageHeader)
    requires { BeginsWith (image_of image.now) bytes.now }
    ensures { (rest : List ℕ) → is_bare (bytes.now ++ rest) ≡ true }
{}

// The image header, padded to a byte.
fn write_image(alloc: Global, image: &ImageHeader) -> Result<Vec<u8>, AllocError>
    requires { is_writable (image_of image.now) ≡ true }
    ensures front { IfOk result (λ v. IsImageFront (image_of image.now) v.items) }
    ensures bare { IfOk result (λ v. (rest : List ℕ) → is_bare (v.items ++ rest) ≡ true) }
{
    let mut bits = BitWriter::new(alloc);
    write_image_header(&mut bits, image)?;
    let bytes = bits.into_bytes()?;
    begins_bare(&bytes, image);
    Ok(bytes)
}

// The profile, if there is one.
fn write_profile_if(
    alloc: Global,
    bits: &mut BitWriter,
    profile: Option<&[u8]>,
) -> Result<(), AllocError>
    requires some { IfSome (option_map (λ s. s.now) profile) (λ icc. 0 < length icc) }
    requires fits { IfSome (option_map (λ s. s.now) profile) (λ icc. length icc < 2 ^ 30) }
    ensures { IfOk result (λ _. Adds bits.old bits.new (IsProfileIf (option_map (λ s. s.now) profile.entry))) }
{
    match profile {
        None => Ok(()),
        Some(icc) => write_profile(alloc, bits, icc),
    }
}

// The image header and the profile, if there is one, padded to a byte.
fn write_before(
    alloc: Global,
    image: &ImageHeader,
    profile: Option<&[u8]>,
) -> Result<Vec<u8>, AllocError>
    requires writable { is_writable (image_of image.now) ≡ true }
    requires asked { (image_of image.now).colour_encoding.want_icc ≡ is_some (option_map (λ s. s.now) profile) }
    requires some { IfSome (option_map (λ s. s.now) profile) (λ icc. 0 < length icc) }
    requires fits { IfSome (option_map (λ s. s.now) profile) (λ icc. length icc < 2 ^ 30) }
    ensures front { IfOk result (λ v. IsFrontBefore (entropy decoder_at) (image_of image.now)
        (option_map (λ s. s.now) profile.entry) v.items) }
    ensures bare { IfOk result (λ v. (rest : List ℕ) → is_bare (v.items ++ rest) ≡ true) }
{
    let mut bits = BitWriter::new(alloc);
    write_image_header(&mut bits, image)?;
    write_profile_if(alloc, &mut bits, profile)?;
    let bytes = bits.into_bytes()?;
    begins_bare(&bytes, image);
    Ok(bytes)
}

// The header of the frame and its table of contents.
fn write_frame<D: Decoder>(
    alloc: Global,
    image: &ImageHeader,
    shift: u32,
    sizes: &[u32],
) -> Result<Vec<u8>, AllocError>
    requires still { (image_of image.now).animation ≡ None }
    requires shift { shift < 4 }
    requires sizes { list_all is_section_size sizes.now ≡ true }
    ensures { IfOk result (λ v. IsFrameFront D.meaning (image_of image.now) shift sizes.now v.items) }
{
    let mut bits = BitWriter::new(alloc);
    write_still_header(&mut bits, image, shift)?;
    let bytes = write_toc::<D>(alloc, bits, sizes)?;
    Ok(bytes)
}

/// What a still picture without a profile has before the sections of its only frame, which have these sizes: the
/// signature and the image header, the header of the frame and its table of contents. The sides of groups are 128
/// times 2 to the power of `shift`. The sections follow one behind another, and nothing after them.
pub fn write_front<D: Decoder>(
    alloc: Global,
    image: &ImageHeader,
    shift: u32,
    sizes: &[u32],
) -> Result<Vec<u8>, AllocError>
    requires writable { is_writable (image_of image.now) ≡ true }
    requires supported { image_refusal (image_of image.now) ≡ None }
    requires plain { (image_of image.now).colour_encoding.want_icc ≡ false }
    requires shift { shift < 4 }
    requires count { length sizes.now
        ≡ section_count_of (layout_in (image_of image.now) (still_frame (image_of image.now) shift)) }
    requires few { length sizes.now ≤ max_sections }
    requires sizes { list_all is_section_size sizes.now ≡ true }
    ensures { IfOk result (λ v. IsStillFront D.meaning (image_of image.now) shift sizes.now v.items) }
{
    let mut front = write_image(alloc, image)?;
    let frame = write_frame::<D>(alloc, image, shift, sizes)?;
    front.extend_from_slice(&frame)?;
    Ok(front)
}

/// The same of a still picture with this profile, or with none, as the image header says. The profile has a byte, and
/// fewer than 2^30; the reader finds it within limits that allow 16 bytes more.
pub fn write_front_with_profile(
    alloc: Global,
    image: &ImageHeader,
    profile: Option<&[u8]>,
    shift: u32,
    sizes: &[u32],
) -> Result<Vec<u8>, AllocError>
    requires writable { is_writable (image_of image.now) ≡ true }
    requires supported { image_refusal (image_of image.now) ≡ None }
    requires asked { (image_of image.now).colour_encoding.want_icc ≡ is_some (option_map (λ s. s.now) profile) }
    requires some { IfSome (option_map (λ s. s.now) profile) (λ icc. 0 < length icc) }
    requires fits { IfSome (option_map (λ s. s.now) profile) (λ icc. length icc < 2 ^ 30) }
    requires shift { shift < 4 }
    requires count { length sizes.now
        ≡ section_count_of (layout_in (image_of image.now) (still_frame (image_of image.now) shift)) }
    requires few { length sizes.now ≤ max_sections }
    requires sizes { list_all is_section_size sizes.now ≡ true }
    ensures { IfOk result (λ v. IsProfiledFront (entropy decoder_at) (image_of image.now)
        (option_map (λ s. s.now) profile.entry) shift sizes.now v.items) }
{
    let mut front = write_before(alloc, image, profile)?;
    let frame = write_frame::<EntropyDecoder>(alloc, image, shift, sizes)?;
    front.extend_from_slice(&frame)?;
    Ok(front)
}
