//! A picture that is cut into sections, from its bytes.

ghost use Rattle.std.specs.Prelude.{◌≡◌, ◌↔◌, [], false, pos, None, Ok, IfOk, IfErr, IsTrue};
ghost use Rattle.std.specs.Option.{IfSome, option_copied};
ghost use Rattle.jxlm_bits.specs.ErrorKind.{UnlessMemory, kind_of};
ghost use Rattle.jxlm_transform.specs.Channels.{AreGridsOf, image_list};
ghost use Rattle.jxlm_transform.specs.Params.{IsValidParams};
ghost use Rattle.jxlm_groups.specs.Passes.{one_picture, passes_of};
ghost use Rattle.jxl_modular.specs.Image.{image_grids};
ghost use Rattle.jxlm_section_split.specs.CutPicture.{IsCutPicture, IsCutPictureLeft, IsCutPictureRead, one_pass as the_pass};
ghost use Rattle.jxlm_section_split.specs.CutErrors.{CutPictureFails};

use crate::reading::split_sections;
use crate::split::split_section;
use jxl_modular::Modular;
use jxl_modular::image::ModularImageDestination;
use jxl_modular::sections::decode_sections;
use jxlm_base::grid::OutOfMemory;
use jxlm_base::sample::Sample;
use jxlm_bits::bits::Bitstream;
use jxlm_bits::decoder::Decoder;
use jxlm_bits::error::Result;
use jxlm_transform::param::ModularParams;
use jxlm_tree::flat::Steps;
use std::alloc::Global;
use std::collections::BTreeMap;

/// A picture that was decoded from sections.
#[derive(Drop)]
pub struct CutPicture<S, D: Decoder> {
    /// The image, whose transforms are undone.
    pub image: ModularImageDestination<S, D>,
    /// Whether all its samples were decoded. Those that were not are 0 before the transforms are undone.
    pub whole: bool,
}

/// The pass of all shifts below 3, as passes are named: 0, from the shift 0 on. Out of memory is its only error.
pub fn one_pass(alloc: Global) -> std::result::Result<BTreeMap<u32, (i32, i32)>, OutOfMemory>
    ensures { IfOk result (λ passes. passes_of passes.entries ≡ the_pass) }
{
    let mut passes = BTreeMap::new(alloc);
    passes.insert(0, (0, 3))?;
    Ok(passes)
}

/// Reads the picture of these parameters that is cut into sections, and stands at the start of the bytes, as
/// [`decode_cut_picture`] does; with `allow_partial` a section may end before all samples of its part are there. It
/// stands at its whole length then, too: what is truncated of the row of sections is an error.
///
/// It returns the image whose transforms are undone, and whether all samples were decoded. Without `allow_partial` they
/// always were.
///
/// # Errors
///
/// Those of [`decode_cut_picture`], in their order; with `allow_partial` a section that ends among its samples has none.
pub fn decode_cut<S: Sample, D: Decoder>(
    alloc: Global,
    bytes: &[u8],
    params: ModularParams<'_, D>,
    allow_partial: bool,
    steps: &mut Steps,
) -> Result<Option<CutPicture<S, D>>>
    requires valid { IsValidParams params }
    requires alike { IsTrue (one_picture (image_list params.channels.items).channels) }
    requires local { option_copied params.ma_config ≡ None }

    // With no channels there is no picture; else it is as far decoded as its sections go.
    ensures none { (result ≡ Ok None) ↔ (params.entry.channels.items ≡ []) }
    ensures left { IfOk result (λ made. IfSome made (λ cut. IsCutPictureLeft D.meaning S.width S.to_int
        (S.from_int (pos 0)) (image_list params.entry.channels.items) params.entry.group_dim params.entry.bit_depth
        bytes.now allow_partial (image_grids S.to_int cut.image) cut.whole steps.old steps.new)) }
    ensures sides { IfOk result (λ made. IfSome made (λ cut.
        AreGridsOf (image_list params.entry.channels.items).channels (image_grids S.to_int cut.image))) }

    // Where no sample is missing, it is the picture whose sections stand at the start of the bytes.
    ensures whole { IfOk result (λ made. IfSome made (λ cut. allow_partial ≡ false → IsTrue cut.whole)) }
    ensures picture { IfOk result (λ made. IfSome made (λ cut. IsTrue cut.whole → IsCutPictureRead D.meaning S.width
        (image_list params.entry.channels.items) params.entry.group_dim params.entry.bit_depth bytes.now
        (image_grids S.to_int cut.image) steps.old steps.new)) }

    // With no channels nothing of trees is looked at.
    ensures unread { params.entry.channels.items ≡ [] → steps.new ≡ steps.old }

    // Or it is the first error.
    ensures err { IfErr result (λ e. UnlessMemory (kind_of e) (CutPictureFails D.meaning S.width S.to_int
        (S.from_int (pos 0)) (image_list params.entry.channels.items) params.entry.group_dim params.entry.bit_depth
        bytes.now allow_partial (kind_of e))) }
{
    if params.channels.is_empty() {
        return Ok(None);
    }
    let global = params.ma_config;
    let (first, rest) = split_section(bytes)?;
    let mut bits = Bitstream::new(first);
    let modular = Modular::<S, D>::parse(alloc, &mut bits, params)?;
    let Some(mut image) = modular.into_image() else {
        return Ok(None);
    };
    let passes = one_pass(alloc)?;
    let sections = split_sections(alloc, &mut image, &passes, bits, rest)?;
    let whole = decode_sections(
        alloc,
        &mut image,
        &passes,
        &sections,
        global,
        allow_partial,
        steps,
    )?;
    Ok(Some(CutPicture { image, whole }))
}

/// Reads the picture of these parameters that is cut into sections, and stands at the start of the bytes
/// (ISO/IEC 18181-1, frame: sections).
///
/// Each section comes after the number of its bytes, in four bytes, the least significant first. The first has the
/// image's header, its tree and the global part. One for each LF group follows, and then one for each group of the one
/// pass, which holds the shifts 0 to 2; each by number, and with a header of its own. Groups without samples have no
/// section. The stream index of a section is its number, from 0. What comes after the last section is not looked at.
///
/// The parameters are valid, their channels are of one picture, and there is no global tree. With no channels no byte
/// is looked at, and there is no picture. It returns the image whose transforms are undone.
///
/// # Errors
///
/// The first error, in this order: `UnexpectedEof` where the first section is truncated, its length or itself; that of
/// its header and tree, as by [`Modular::parse`]; `InvalidSqueezeParams` where a group has a side of 0 in a coded
/// channel; `UnexpectedEof` where a later section is truncated, before any sample is decoded; and that of the first
/// section that cannot be decoded, as by [`decode_sections`]. It may be out of memory at any time.
pub fn decode_cut_picture<S: Sample, D: Decoder>(
    alloc: Global,
    bytes: &[u8],
    params: ModularParams<'_, D>,
    steps: &mut Steps,
) -> Result<Option<ModularImageDestination<S, D>>>
    requires valid { IsValidParams params }
    requires alike { IsTrue (one_picture (image_list params.channels.items).channels) }
    requires local { option_copied params.ma_config ≡ None }

    // With no channels there is no picture; else it is the one whose sections stand at the start of the bytes.
    ensures none { (result ≡ Ok None) ↔ (params.entry.channels.items ≡ []) }
    ensures picture { IfOk result (λ made. IfSome made (λ picture. IsCutPicture D.meaning S.width
        (image_list params.entry.channels.items) params.entry.group_dim params.entry.bit_depth bytes.now
        (image_grids S.to_int picture))) }
    ensures sides { IfOk result (λ made. IfSome made (λ picture.
        AreGridsOf (image_list params.entry.channels.items).channels (image_grids S.to_int picture))) }

    // What was looked at of trees is counted; with no channels it is nothing.
    ensures counted { IfOk result (λ made. IfSome made (λ picture. IsCutPictureRead D.meaning S.width
        (image_list params.entry.channels.items) params.entry.group_dim params.entry.bit_depth bytes.now
        (image_grids S.to_int picture) steps.old steps.new)) }
    ensures unread { params.entry.channels.items ≡ [] → steps.new ≡ steps.old }

    // Or it is the first error.
    ensures err { IfErr result (λ e. UnlessMemory (kind_of e) (CutPictureFails D.meaning S.width S.to_int
        (S.from_int (pos 0)) (image_list params.entry.channels.items) params.entry.group_dim params.entry.bit_depth
        bytes.now false (kind_of e))) }
{
    match decode_cut(alloc, bytes, params, false, steps)? {
        Some(cut) => {
            let CutPicture { image, .. } = cut;
            Ok(Some(image))
        }
        None => Ok(None),
    }
}
