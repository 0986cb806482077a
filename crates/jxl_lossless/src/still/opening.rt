//! The header of a frame's image.

ghost use Rattle.std.specs.Prelude.{◌≡◌, ◌↔◌, [], pos, false, IfErr, IfOk, None, Ok};
ghost use Rattle.std.specs.List.{list_any};
ghost use Rattle.std.specs.Option.{IfSome, option_copied};
ghost use Rattle.jxlm_bits.specs.Bits.{bytes_of, position_of};
ghost use Rattle.jxlm_transform.specs.Channels.{image_list};
ghost use Rattle.jxlm_transform.specs.Params.{IsValidParams};
ghost use Rattle.jxlm_transform.specs.Transforms.{transform_of};
ghost use Rattle.jxl_lossless.specs.Inner.Weighted.{is_weighted as the_weighted_palette, section_is_weighted, weighted, weighted_at};
ghost use Rattle.jxl_lossless.specs.Inner.Openings.{OpenFails, Opens};

use crate::still::error::FrameError;
use jxl_modular::Modular;
use jxl_modular::image::ModularImageDestination;
use jxl_modular::sections::Section;
use jxlm_base::grid::OutOfMemory;
use jxlm_base::sample::Sample;
use jxlm_bits::bits::Bitstream;
use jxlm_bits::decoder::Decoder;
use jxlm_bits::error::Error;
use jxlm_header::header::ModularHeader;
use jxlm_predictor::predictor::Predictor;
use jxlm_transform::param::{ModularParams, PaletteTables};
use jxlm_transform::transform::TransformInfo;
use std::alloc::Global;

// Whether the predictor is the weighted one.
fn is_weighted(predictor: Predictor) -> bool
    ensures { result ≡ weighted predictor }
{
    matches!(predictor, Predictor::SelfCorrecting)
}

// Whether the transform is a palette with the weighted predictor.
fn is_weighted_palette(transform: &TransformInfo) -> bool
    ensures { result ≡ the_weighted_palette (transform_of transform.now) }
{
    match transform {
        TransformInfo::Palette(palette) => is_weighted(palette.d_pred),
        _ => false,
    }
}

fn some_weighted(transforms: &[TransformInfo]) -> bool
    ensures { result ≡ list_any (λ t. the_weighted_palette (transform_of t)) transforms.now }
{
    transforms
        .iter()
        .any(|transform| is_weighted_palette(transform))
}

// Whether the header at the reader's position has a palette with the weighted predictor; not where no header can be
// read.
fn begins_weighted(alloc: Global, bits: Bitstream<'_>) -> Result<bool, OutOfMemory>
    ensures { IfOk result (λ b. b ≡ weighted_at (bytes_of bits.entry) (position_of bits.entry)) }
{
    let mut ahead = bits;
    match ModularHeader::parse_by(alloc, &mut ahead, PaletteTables::OfDeltasToo) {
        Ok(header) => Ok(some_weighted(&header.transform)),
        Err(Error::Buffer(_)) => Err(OutOfMemory),
        Err(_) => Ok(false),
    }
}

/// Whether one of these sections begins with a header of its own that has a palette with the weighted predictor.
pub(crate) fn begin_weighted(alloc: Global, sections: &[Section<'_>]) -> Result<bool, OutOfMemory>
    ensures { IfOk result (λ b. b ≡ list_any section_is_weighted sections.now) }
{
    for section in sections {
        if section.nested && begins_weighted(alloc, section.bits)? {
            return Ok(true);
        }
    }
    Ok(false)
}

// The image whose header is at the reader's position, or none where there are no channels.
fn read_image<S: Sample, D: Decoder>(
    alloc: Global,
    bits: &mut Bitstream<'_>,
    params: ModularParams<'_, D>,
) -> Result<Option<ModularImageDestination<S, D>>, FrameError>
    requires valid { IsValidParams params }
    requires plain { weighted_at (bytes_of bits.old) (position_of bits.old) ≡ false }
    ensures none { (result ≡ Ok None) ↔ (params.entry.channels.items ≡ []) }
    ensures ok { IfOk result (λ made. IfSome made (λ image. Opens D.meaning (option_copied params.entry.ma_config)
        (image_list params.entry.channels.items) (bytes_of bits.old) (position_of bits.old) (S.from_int (pos 0))
        params.entry.group_dim params.entry.bit_depth image (position_of bits.new))) }
    ensures err { IfErr result (OpenFails D.meaning (option_copied params.entry.ma_config)
        (image_list params.entry.channels.items) (bytes_of bits.old) (position_of bits.old)) }
    ensures bytes { bytes_of bits.new ≡ bytes_of bits.old }
{
    match Modular::<S, D>::parse(alloc, bits, params) {
        Ok(modular) => Ok(modular.into_image()),
        Err(error) => Err(FrameError::Header(error)),
    }
}

/// The image whose header stands at the reader's position; with no channels there is none.
pub fn open_image<S: Sample, D: Decoder>(
    alloc: Global,
    bits: &mut Bitstream<'_>,
    params: ModularParams<'_, D>,
) -> Result<Option<ModularImageDestination<S, D>>, FrameError>
    requires valid { IsValidParams params }
    ensures none { (result ≡ Ok None) ↔ (params.entry.channels.items ≡ []) }
    ensures ok { IfOk result (λ made. IfSome made (λ image. Opens D.meaning (option_copied params.entry.ma_config)
        (image_list params.entry.channels.items) (bytes_of bits.old) (position_of bits.old) (S.from_int (pos 0))
        params.entry.group_dim params.entry.bit_depth image (position_of bits.new))) }
    ensures err { IfErr result (OpenFails D.meaning (option_copied params.entry.ma_config)
        (image_list params.entry.channels.items) (bytes_of bits.old) (position_of bits.old)) }
    ensures bytes { bytes_of bits.new ≡ bytes_of bits.old }
{
    if params.channels.is_empty() {
        return Ok(None);
    }
    if begins_weighted(alloc, *bits)? {
        return Err(FrameError::WeightedPalette);
    }
    read_image(alloc, bits, params)
}
