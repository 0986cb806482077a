//! A picture from its bits.

ghost use Rattle.std.specs.Prelude.{◌≡◌, ◌↔◌, ◌*◌, [], pos, None, IfOk, IfErr, IsOk, OnOk};
ghost use Rattle.std.specs.Option.{IfSome, option_copied};
ghost use Rattle.jxlm_bits.specs.Bits.{bytes_of, position_of};
ghost use Rattle.jxlm_bits.specs.ErrorKind.{UnlessMemory, kind_of};
ghost use Rattle.jxlm_transform.specs.Channels.{AreGridsOf, image_list};
ghost use Rattle.jxlm_transform.specs.Params.{IsValidParams};
ghost use Rattle.jxlm_samples.specs.Decode.{MovesWithin};
ghost use Rattle.jxl_modular.specs.Inner.Filled.{IsFilled, FillFails, samples_in};
ghost use Rattle.jxl_modular.specs.Image.{cost_of, image_grids};
ghost use Rattle.jxl_modular.specs.Inner.Laid.{IsLaidOut};
ghost use Rattle.jxl_modular.specs.Picture.{IsPictureRead, PictureFails, StepsWithin};

use crate::image::ModularImageDestination;
use crate::root::Modular;
use jxlm_base::sample::Sample;
use jxlm_bits::bits::Bitstream;
use jxlm_bits::decoder::Decoder;
use jxlm_bits::error::Result;
use jxlm_nested::stream::Stream;
use jxlm_transform::param::ModularParams;
use jxlm_tree::flat::Steps;
use std::alloc::Global;

/// Decodes all samples of an image that was read, and undoes its transforms.
fn fill<S: Sample, D: Decoder>(
    alloc: Global,
    bits: &mut Bitstream<'_>,
    image: &mut ModularImageDestination<S, D>,
    stream_index: u32,
    steps: &mut Steps,
) -> Result<()>
    ensures ok { OnOk result (IsFilled D.meaning S.width S.to_int (bytes_of bits.old) stream_index image.old
        (position_of bits.old) image.new (position_of bits.new)) }
    ensures err { IfErr result (λ e. UnlessMemory (kind_of e) (FillFails D.meaning S.width S.to_int
        (bytes_of bits.old) stream_index image.old (position_of bits.old) (kind_of e) (position_of bits.new)
        steps.old steps.new)) }
    ensures work { MovesWithin steps.old steps.new (samples_in image.old * cost_of image.old) }
    ensures laid { IsLaidOut image.old }
    ensures bytes { bytes_of bits.new ≡ bytes_of bits.old }
{
    let count = image.channel_count();
    let mut partial = image.has_samples(count);
    let stream = Stream {
        index: stream_index,
        allow_partial: false,
    };
    image.decode_front(alloc, bits, count, stream, &mut partial, steps)?;
    image.undo_transforms(alloc)
}

/// Reads a picture whose samples are in one part: its header, its tree, and all its samples, and undoes its transforms
/// (ISO/IEC 18181-1, Modular: header, MA tree, samples, inverse transforms).
///
/// With no channels no bit is read, and there is no picture. The parameters are valid. It returns the picture at the
/// reader's position, and the reader is after it then.
///
/// For each sample whose read is tried, `steps` goes on by at most the tree's depth and one more.
///
/// # Errors
///
/// The first error: of the header and the tree, as by [`Modular::parse`], or of the samples, as by
/// [`decode`](crate::image::TransformedModularSubimage::decode). The reader is then where that call leaves it. It may
/// be out of memory at any time.
pub fn decode_picture<S: Sample, D: Decoder>(
    alloc: Global,
    bits: &mut Bitstream<'_>,
    params: ModularParams<'_, D>,
    stream_index: u32,
    steps: &mut Steps,
) -> Result<Option<ModularImageDestination<S, D>>>
    requires valid { IsValidParams params }

    // With no channels there is no picture: no bit is read, and no step is taken.
    ensures none { (result ≡ Ok None) ↔ (params.entry.channels.items ≡ []) }
    ensures unread { params.entry.channels.items ≡ []
        → (position_of bits.new ≡ position_of bits.old) × (steps.new ≡ steps.old) }

    // Else it is the picture at the reader's position, whose grids have the sides of the channels ..
    ensures picture { IfOk result (λ made. IfSome made (λ picture. IsPictureRead D.meaning S.width
        (option_copied params.entry.ma_config) (bytes_of bits.old) stream_index
        (image_list params.entry.channels.items) (position_of bits.old) params.entry.bit_depth
        (image_grids S.to_int picture) (position_of bits.new) steps.old steps.new)) }
    ensures sides { IfOk result (λ made. IfSome made (λ picture.
        AreGridsOf (image_list params.entry.channels.items).channels (image_grids S.to_int picture))) }

    // .. or the first error.
    ensures err { IfErr result (λ e. PictureFails D.meaning S.width (option_copied params.entry.ma_config)
        (bytes_of bits.old) stream_index (image_list params.entry.channels.items) (position_of bits.old) (kind_of e)
        (position_of bits.new) steps.old steps.new) }
    ensures work { StepsWithin D.meaning (option_copied params.entry.ma_config) (bytes_of bits.old)
        (image_list params.entry.channels.items) (position_of bits.old) steps.old steps.new }
    ensures bytes { bytes_of bits.new ≡ bytes_of bits.old }
{
    let modular = Modular::parse(alloc, bits, params)?;
    let Some(mut image) = modular.into_image() else {
        return Ok(None);
    };
    fill(alloc, bits, &mut image, stream_index, steps)?;
    Ok(Some(image))
}
