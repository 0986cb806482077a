//! The header of a Modular image (ISO/IEC 18181-1, Modular: Modular header).

ghost use Rattle.std.specs.Prelude.{◌≡◌, IfOk, map};
ghost use Rattle.std.specs.List.{All, list_any};
ghost use Rattle.jxlm_bits.specs.Bits.{bytes_of, position_of};
ghost use Rattle.jxlm_transform.specs.Kinds.{is_palette, is_squeeze};
ghost use Rattle.jxlm_bits.specs.Grammar.{repeated, Parses};
ghost use Rattle.jxlm_transform.specs.Transforms.{IsTransform, KeepsWeights, transform_by, transform_of};

use jxlm_base::grid::OutOfMemory;
use jxlm_bits::bits::{Bitstream, U32Spec};
use jxlm_bits::error::Result;
use jxlm_transform::param::PaletteTables;
use jxlm_transform::transform::{Squeeze, TransformInfo};
use jxlm_weighted::weights::WpHeader;
use std::alloc::Global;

/// What comes before an image's tree.
#[derive(Drop)]
pub struct ModularHeader {
    pub use_global_tree: bool,
    pub wp_params: WpHeader,
    pub transform: Vec<TransformInfo>,
}

/// The same transforms.
fn clone_transforms(
    alloc: Global,
    transforms: &[TransformInfo],
) -> std::result::Result<Vec<TransformInfo>, OutOfMemory>
    ensures { IfOk result (λ v. map transform_of v.items ≡ map transform_of transforms.now) }
{
    let mut clones = Vec::new(alloc);
    for transform in transforms {
        clones.push(clone_transform(alloc, transform)?)?;
    }
    Ok(clones)
}

/// `count` transforms, of which each palette keeps no weights, or these, and has one of these tables.
fn read_transforms(
    alloc: Global,
    bits: &mut Bitstream<'_>,
    count: u32,
    wp_params: &WpHeader,
    tables: PaletteTables,
) -> Result<Vec<TransformInfo>>
    ensures gives { Parses (λ v. map transform_of v.items) result (position_of bits.new)
        ((repeated count (transform_by tables wp_params.now)).read (bytes_of bits.old) (position_of bits.old)) }
    ensures each { IfOk result (λ v. All IsTransform (map transform_of v.items)) }
    ensures weights { IfOk result (λ v. All (KeepsWeights wp_params.now) (map transform_of v.items)) }
    ensures bytes { bytes_of bits.new ≡ bytes_of bits.old }
{
    let mut transforms = Vec::new(alloc);
    for _ in 0..count {
        let transform = TransformInfo::parse_by(alloc, bits, wp_params, tables)?;
        transforms.push(transform)?;
    }
    Ok(transforms)
}

/// Whether one of these is a palette.
fn some_palette(transforms: &[TransformInfo]) -> bool
    ensures { result ≡ list_any (λ t. is_palette (transform_of t)) transforms.now }
{
    transforms.iter().any(|t| t.is_palette())
}

/// Whether one of these is a squeeze.
fn some_squeeze(transforms: &[TransformInfo]) -> bool
    ensures { result ≡ list_any (λ t. is_squeeze (transform_of t)) transforms.now }
{
    transforms.iter().any(|t| t.is_squeeze())
}

/// The same transform.
fn clone_transform(
    alloc: Global,
    transform: &TransformInfo,
) -> std::result::Result<TransformInfo, OutOfMemory>
    ensures { IfOk result (λ t. transform_of t ≡ transform_of transform.now) }
{
    match transform {
        TransformInfo::Rct(rct) => Ok(TransformInfo::Rct(*rct)),
        TransformInfo::Palette(palette) => Ok(TransformInfo::Palette(*palette)),
        TransformInfo::Squeeze(squeeze) => {
            let sp = Vec::from_slice(alloc, &squeeze.sp)?;
            Ok(TransformInfo::Squeeze(Squeeze { sp }))
        }
    }
}

impl ModularHeader {
    ghost use Rattle.jxlm_header.specs.Header.{IsReadHeader, header, header_by, header_of};

    /// The header that stands at the reader's position, whose palettes have tables of colours alone, as by
    /// [`parse_by`](ModularHeader::parse_by).
    ///
    /// # Errors
    ///
    /// As of `parse_by`.
    pub fn parse(alloc: Global, bits: &mut Bitstream<'_>) -> Result<ModularHeader>
        ensures gives { Parses header_of result (position_of bits.new)
            (header.read (bytes_of bits.old) (position_of bits.old)) }
        ensures ranges { IfOk result (λ h. IsReadHeader (header_of h)) }
        ensures bytes { bytes_of bits.new ≡ bytes_of bits.old }
    {
        ModularHeader::parse_by(alloc, bits, PaletteTables::OfColours)
    }

    /// The header that stands at the reader's position: whether the global tree is used, the weights
    /// of the weighted (self-correcting) predictor, and the transforms, at most 273. A palette keeps no
    /// weights, or the header's, and its table is one of `tables`.
    ///
    /// # Errors
    ///
    /// `UnexpectedEof` if the input is truncated; `InvalidEnum` for a transform of kind 3, and for the
    /// number of a predictor that is none; `InvalidRctParams` for a colour transform of a kind above 41
    /// with tables of deltas. The reader is then after the last field that was read whole.
    /// `Buffer` if it is out of memory, at any transform; no error of a decoder comes.
    pub fn parse_by(
        alloc: Global,
        bits: &mut Bitstream<'_>,
        tables: PaletteTables,
    ) -> Result<ModularHeader>
        ensures gives { Parses header_of result (position_of bits.new)
            ((header_by tables).read (bytes_of bits.old) (position_of bits.old)) }
        ensures ranges { IfOk result (λ h. IsReadHeader (header_of h)) }
        ensures bytes { bytes_of bits.new ≡ bytes_of bits.old }
    {
        let use_global_tree = bits.read_bool()?;
        let wp_params = WpHeader::parse(bits)?;
        let nb_transforms = bits.read_u32(
            U32Spec::Const(0),
            U32Spec::Const(1),
            U32Spec::Offset(2, 4),
            U32Spec::Offset(18, 8),
        )?;
        let transform = read_transforms(alloc, bits, nb_transforms, &wp_params, tables)?;
        Ok(ModularHeader {
            use_global_tree,
            wp_params,
            transform,
        })
    }

    /// The same header.
    ///
    /// # Errors
    ///
    /// `OutOfMemory`, and no other.
    pub fn try_clone(&self, alloc: Global) -> std::result::Result<ModularHeader, OutOfMemory>
        ensures { IfOk result (λ h. header_of h ≡ header_of self.now) }
    {
        Ok(ModularHeader {
            use_global_tree: self.use_global_tree,
            wp_params: self.wp_params,
            transform: clone_transforms(alloc, &self.transform)?,
        })
    }

    /// Whether a transform is a palette.
    pub fn has_palette(&self) -> bool
        ensures { result ≡ list_any is_palette (header_of self.now).transform }
    {
        some_palette(&self.transform)
    }

    /// Whether a transform is a squeeze.
    pub fn has_squeeze(&self) -> bool
        ensures { result ≡ list_any is_squeeze (header_of self.now).transform }
    {
        some_squeeze(&self.transform)
    }
}
