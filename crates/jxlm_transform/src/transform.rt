//! Transforms of an image's channels, as a header lists them (ISO/IEC 18181-1, Modular: the bundle TransformInfo).

ghost use Rattle.std.specs.Prelude.{◌≡◌, ◌≤◌, ◌↔◌, ◌⊎◌, length, IsTrue, IfOk, None, Some};
ghost use Rattle.std.specs.List.{All};
ghost use Rattle.jxlm_bits.specs.Bits.{bytes_of, position_of};
ghost use Rattle.jxlm_bits.specs.Grammar.{FitsU32, IsExact, Reads, number, repeated, u32 as the_u32, Parses, HasRead};
ghost use Rattle.jxlm_weighted.specs.WeightsHeader.{GivesExactly};
ghost use Rattle.jxlm_transform.specs.DefaultSqueeze.{LeavesSmallSides, TakesFewestSteps};
ghost use Rattle.jxlm_bits.specs.FieldRanges.{min_of, max_of};
ghost use Rattle.jxlm_transform.specs.Params.{columns};
ghost use Rattle.jxlm_transform.specs.Kinds.{is_palette as the_palettes, is_squeeze as the_squeezes};
ghost use Rattle.jxlm_transform.specs.Transforms.{OfPalette, transform_of, begin_channel as the_begin_channel, rct, rct_by, predictor, weights_for, palette, palette_by, squeeze_params, squeeze, transform, transform_by, IsRct, IsPalette, IsSqueezeParams, IsSqueeze, IsTransform, HasChannels, KeepsWeights, IsPaletteTransform, IsSqueezeTransform};

mod lists;
mod steps;

use crate::param::PaletteTables;
use jxlm_bits::bits::{Bitstream, BitstreamError, U32Spec};
use jxlm_bits::error::{Error, Result};
use jxlm_predictor::predictor::Predictor;
use jxlm_weighted::weights::WpHeader;
use std::alloc::Global;

/// A colour transform of three channels.
#[derive(Clone, Copy)]
pub struct Rct {
    /// The first of the three channels.
    pub begin_c: u32,
    /// How the colours are formed, from 0 to 73.
    pub rct_type: u32,
}

/// A table of colours instead of a range of channels.
#[derive(Clone, Copy)]
pub struct Palette {
    /// The first channel of the range.
    pub begin_c: u32,
    /// How many channels the range has, from 1 to 8192.
    pub num_c: u32,
    /// How many columns the table has, each a colour: at most 70911, and in tables of deltas as many more as there
    /// are deltas.
    pub nb_colours: u32,
    /// How many of them, the first ones, are added to a prediction: at most 66816.
    pub nb_deltas: u32,
    /// The predictor of these.
    pub d_pred: Predictor,
    /// Whether an index outside the table is clamped to it.
    pub clamps_indices: bool,
    /// Whether implicit colours are of RGB alone: 0 in each channel from the fourth on.
    pub implicit_rgb: bool,
    /// The header's weights, where the predictor is the weighted (self-correcting) one.
    pub wp_header: Option<WpHeader>,
}

/// One squeeze of a range of channels: each is halved along one side.
#[derive(Clone, Copy)]
pub struct SqueezeParams {
    /// Whether the width is halved, and not the height.
    pub horizontal: bool,
    /// Whether residuals come right after the range, and not at the end of the list.
    pub in_place: bool,
    /// The first channel of the range.
    pub begin_c: usize,
    /// How many channels the range has.
    pub num_c: usize,
}

/// Squeezes in order. A header that lists none stands for the default squeeze.
#[derive(Drop)]
pub struct Squeeze {
    /// The squeezes.
    pub sp: Vec<SqueezeParams>,
}

/// A transform of an image's channels.
#[derive(Drop)]
pub enum TransformInfo {
    /// A colour transform.
    Rct(Rct),
    /// A palette.
    Palette(Palette),
    /// A squeeze.
    Squeeze(Squeeze),
}

/// A `U32` field.
fn field(
    bits: &mut Bitstream<'_>,
    d0: U32Spec,
    d1: U32Spec,
    d2: U32Spec,
    d3: U32Spec,
) -> std::result::Result<u32, BitstreamError>
    requires fits { FitsU32 d0 × FitsU32 d1 × FitsU32 d2 × FitsU32 d3 }
    ensures gives { Reads (λ v. v) result (position_of bits.new)
        ((the_u32 d0 d1 d2 d3).read (bytes_of bits.old) (position_of bits.old)) }
    ensures minimum { IfOk result (λ v. min_of d0 d1 d2 d3 ≤ v) }
    ensures maximum { IfOk result (λ v. v ≤ max_of d0 d1 d2 d3) }
    ensures bytes { bytes_of bits.new ≡ bytes_of bits.old }
{
    bits.read_u32(d0, d1, d2, d3)
}

/// The first channel of a transform.
fn begin_channel(bits: &mut Bitstream<'_>) -> std::result::Result<u32, BitstreamError>
    ensures gives { Reads (λ v. v) result (position_of bits.new)
        (the_begin_channel.read (bytes_of bits.old) (position_of bits.old)) }
    ensures range { IfOk result (λ v. v ≤ 9287) }
    ensures bytes { bytes_of bits.new ≡ bytes_of bits.old }
{
    field(
        bits,
        U32Spec::Offset(0, 3),
        U32Spec::Offset(8, 6),
        U32Spec::Offset(72, 10),
        U32Spec::Offset(1096, 13),
    )
}

impl Rct {
    /// The colour transform that stands at the reader's position.
    ///
    /// # Errors
    ///
    /// `UnexpectedEof` if the input is truncated; the reader is then after the last field that was read
    /// whole.
    pub fn parse(bits: &mut Bitstream<'_>) -> Result<Rct>
        ensures gives { GivesExactly result (position_of bits.new)
            (rct.read (bytes_of bits.old) (position_of bits.old)) }
        ensures ranges { IfOk result (λ t. IsRct t) }
        ensures bytes { bytes_of bits.new ≡ bytes_of bits.old }
    {
        let begin_c = begin_channel(bits)?;
        let rct_type = field(
            bits,
            U32Spec::Const(6),
            U32Spec::Offset(0, 2),
            U32Spec::Offset(2, 4),
            U32Spec::Offset(10, 6),
        )?;
        Ok(Rct { begin_c, rct_type })
    }

    /// The colour transform that stands at the reader's position in a header with these tables: with tables of deltas its
    /// kind is at most 41.
    ///
    /// # Errors
    ///
    /// As of [`parse`](Rct::parse), and `InvalidRctParams` for a greater kind.
    pub fn parse_by(bits: &mut Bitstream<'_>, tables: PaletteTables) -> Result<Rct>
        ensures gives { GivesExactly result (position_of bits.new)
            ((rct_by tables).read (bytes_of bits.old) (position_of bits.old)) }
        ensures ranges { IfOk result (λ t. IsRct t) }
        ensures bytes { bytes_of bits.new ≡ bytes_of bits.old }
    {
        let colour = Rct::parse(bits)?;
        if tables.has_colour_kind(colour.rct_type) {
            Ok(colour)
        } else {
            Err(Error::InvalidRctParams)
        }
    }
}

/// A predictor by its number of 4 bits.
fn read_predictor(bits: &mut Bitstream<'_>) -> std::result::Result<Predictor, BitstreamError>
    ensures { HasRead Reads (λ v. v) result bits.old bits.new predictor }
{
    let number = bits.read_bits(4)?;
    Predictor::try_from(number)
}

impl Palette {
    /// The palette that stands at the reader's position, whose table is one of colours alone, as by
    /// [`parse_by`](Palette::parse_by).
    ///
    /// # Errors
    ///
    /// As of `parse_by`.
    pub fn parse(bits: &mut Bitstream<'_>, wp_header: &WpHeader) -> Result<Palette>
        ensures gives { GivesExactly result (position_of bits.new)
            ((palette wp_header.now).read (bytes_of bits.old) (position_of bits.old)) }
        ensures ranges { IfOk result (λ t. IsPalette t) }
        ensures colours { IfOk result (λ t. t.nb_colours ≤ 70911) }
        ensures weights { IfOk result (λ t. t.wp_header ≡ weights_for t.d_pred wp_header.now) }
        ensures keeps { IfOk result (λ t. KeepsWeights wp_header.now (OfPalette t)) }
        ensures bytes { bytes_of bits.new ≡ bytes_of bits.old }
    {
        Palette::parse_by(bits, wp_header, PaletteTables::OfColours)
    }

    /// The palette that stands at the reader's position, whose table is one of these. It keeps the weights where its
    /// predictor is the weighted (self-correcting) one.
    ///
    /// # Errors
    ///
    /// `UnexpectedEof` if the input is truncated, and `InvalidEnum` for the number of a predictor that
    /// is none. The reader is then after the last field that was read whole.
    pub fn parse_by(
        bits: &mut Bitstream<'_>,
        wp_header: &WpHeader,
        tables: PaletteTables,
    ) -> Result<Palette>
        ensures gives { GivesExactly result (position_of bits.new)
            ((palette_by tables wp_header.now).read (bytes_of bits.old) (position_of bits.old)) }
        ensures ranges { IfOk result (λ t. IsPalette t) }
        ensures colours { IfOk result (λ t. t.nb_colours ≤ columns tables 70911 t.nb_deltas) }
        ensures weights { IfOk result (λ t. t.wp_header ≡ weights_for t.d_pred wp_header.now) }
        ensures keeps { IfOk result (λ t. KeepsWeights wp_header.now (OfPalette t)) }
        ensures bytes { bytes_of bits.new ≡ bytes_of bits.old }
    {
        let begin_c = begin_channel(bits)?;
        let num_c = field(
            bits,
            U32Spec::Const(1),
            U32Spec::Const(3),
            U32Spec::Const(4),
            U32Spec::Offset(1, 13),
        )?;
        let nb_colours = field(
            bits,
            U32Spec::Offset(0, 8),
            U32Spec::Offset(256, 10),
            U32Spec::Offset(1280, 12),
            U32Spec::Offset(5376, 16),
        )?;
        let nb_deltas = field(
            bits,
            U32Spec::Const(0),
            U32Spec::Offset(1, 8),
            U32Spec::Offset(257, 10),
            U32Spec::Offset(1281, 16),
        )?;
        let d_pred = read_predictor(bits)?;
        Ok(Palette {
            begin_c,
            num_c,
            nb_colours: tables.columns(nb_colours, nb_deltas),
            nb_deltas,
            d_pred,
            clamps_indices: tables.clamp_indices(num_c, nb_deltas, d_pred),
            implicit_rgb: tables.has_deltas(),
            wp_header: kept_weights(d_pred, wp_header),
        })
    }
}

/// The weights that a palette keeps.
fn kept_weights(d_pred: Predictor, wp_header: &WpHeader) -> Option<WpHeader>
    ensures value { result ≡ weights_for d_pred wp_header.now }
    ensures keeps { (result ≡ None) ⊎ (result ≡ Some wp_header.now) }
{
    match d_pred {
        Predictor::SelfCorrecting => Some(*wp_header),
        _ => None,
    }
}

impl SqueezeParams {
    fn parse(bits: &mut Bitstream<'_>) -> std::result::Result<SqueezeParams, BitstreamError>
        ensures gives { Reads (λ v. v) result (position_of bits.new)
            (squeeze_params.read (bytes_of bits.old) (position_of bits.old)) }
        ensures ranges { IfOk result (λ t. IsSqueezeParams t) }
        ensures bytes { bytes_of bits.new ≡ bytes_of bits.old }
    {
        let horizontal = bits.read_bool()?;
        let in_place = bits.read_bool()?;
        let begin_c = begin_channel(bits)?;
        let num_c = field(
            bits,
            U32Spec::Const(1),
            U32Spec::Const(2),
            U32Spec::Const(3),
            U32Spec::Offset(4, 4),
        )?;
        Ok(SqueezeParams {
            horizontal,
            in_place,
            begin_c: begin_c as usize,
            num_c: num_c as usize,
        })
    }
}

impl Squeeze {
    /// The squeeze that stands at the reader's position: how many steps, at most 296, and the steps.
    ///
    /// # Errors
    ///
    /// `UnexpectedEof` if the input is truncated; the reader is then after the last field that was
    /// read whole. `Buffer` if it is out of memory, at any step.
    pub fn parse(alloc: Global, bits: &mut Bitstream<'_>) -> Result<Squeeze>
        ensures gives { Parses (λ s. s.sp.items) result (position_of bits.new)
            (squeeze.read (bytes_of bits.old) (position_of bits.old)) }
        ensures ranges { IfOk result (λ s. IsSqueeze s.sp.items) }
        ensures bytes { bytes_of bits.new ≡ bytes_of bits.old }
    {
        let count = field(
            bits,
            U32Spec::Const(0),
            U32Spec::Offset(1, 4),
            U32Spec::Offset(9, 6),
            U32Spec::Offset(41, 8),
        )?;
        let sp = read_steps(alloc, bits, count)?;
        Ok(Squeeze { sp })
    }
}

/// The `count` steps of a squeeze.
fn read_steps(alloc: Global, bits: &mut Bitstream<'_>, count: u32) -> Result<Vec<SqueezeParams>>
    ensures gives { Parses (λ v. v.items) result (position_of bits.new)
        ((repeated count squeeze_params).read (bytes_of bits.old) (position_of bits.old)) }
    ensures count { IfOk result (λ v. length v.items ≡ count) }
    ensures each { IfOk result (λ v. All IsSqueezeParams v.items) }
    ensures bytes { bytes_of bits.new ≡ bytes_of bits.old }
{
    let mut steps = Vec::new(alloc);
    for _ in 0..count {
        let step = SqueezeParams::parse(bits)?;
        steps.push(step)?;
    }
    Ok(steps)
}

/// The kind of a transform.
fn read_kind(bits: &mut Bitstream<'_>) -> std::result::Result<u32, BitstreamError>
    ensures { HasRead Reads (λ v. v) result bits.old bits.new (number 2) }
{
    bits.read_bits(2)
}

impl TransformInfo {
    /// The transform that stands at the reader's position, after two bits of its kind, as by
    /// [`parse_by`](TransformInfo::parse_by) with tables of colours alone.
    ///
    /// # Errors
    ///
    /// As of `parse_by`.
    pub fn parse(
        alloc: Global,
        bits: &mut Bitstream<'_>,
        wp_header: &WpHeader,
    ) -> Result<TransformInfo>
        ensures gives { Parses transform_of result (position_of bits.new)
            ((transform wp_header.now).read (bytes_of bits.old) (position_of bits.old)) }
        ensures ranges { IfOk result (λ t. IsTransform (transform_of t)) }
        ensures some_channels { IfOk result (λ t. HasChannels (transform_of t)) }
        ensures weights { IfOk result (λ t. KeepsWeights wp_header.now (transform_of t)) }
        ensures bytes { bytes_of bits.new ≡ bytes_of bits.old }
    {
        TransformInfo::parse_by(alloc, bits, wp_header, PaletteTables::OfColours)
    }

    /// The transform that stands at the reader's position, after two bits of its kind. A palette keeps
    /// no weights, or these, and its table is one of `tables`.
    ///
    /// # Errors
    ///
    /// `UnexpectedEof` if the input is truncated; `InvalidEnum` for kind 3, and for the number of
    /// a predictor that is none; `InvalidRctParams` for a colour transform of a kind that such headers
    /// do not have. The reader is then after the last field that was read whole.
    /// `Buffer` if it is out of memory, at any step of a squeeze.
    pub fn parse_by(
        alloc: Global,
        bits: &mut Bitstream<'_>,
        wp_header: &WpHeader,
        tables: PaletteTables,
    ) -> Result<TransformInfo>
        ensures gives { Parses transform_of result (position_of bits.new)
            ((transform_by tables wp_header.now).read (bytes_of bits.old) (position_of bits.old)) }
        ensures ranges { IfOk result (λ t. IsTransform (transform_of t)) }
        ensures some_channels { IfOk result (λ t. HasChannels (transform_of t)) }
        ensures weights { IfOk result (λ t. KeepsWeights wp_header.now (transform_of t)) }
        ensures bytes { bytes_of bits.new ≡ bytes_of bits.old }
    {
        let kind = read_kind(bits)?;
        match kind {
            0 => Ok(TransformInfo::Rct(Rct::parse_by(bits, tables)?)),
            1 => Ok(TransformInfo::Palette(Palette::parse_by(bits, wp_header, tables)?)),
            2 => Ok(TransformInfo::Squeeze(Squeeze::parse(alloc, bits)?)),
            value => {
                let unknown = BitstreamError::InvalidEnum {
                    name: "TransformId",
                    value,
                };
                Err(Error::Bitstream(unknown))
            }
        }
    }

    /// Whether it is a palette.
    pub fn is_palette(&self) -> bool
        ensures palette { IsTrue result ↔ IsPaletteTransform (transform_of self.now) }
        ensures value { result ≡ the_palettes (transform_of self.now) }
    {
        matches!(self, TransformInfo::Palette(_))
    }

    /// Whether it is a squeeze.
    pub fn is_squeeze(&self) -> bool
        ensures squeeze { IsTrue result ↔ IsSqueezeTransform (transform_of self.now) }
        ensures value { result ≡ the_squeezes (transform_of self.now) }
    {
        matches!(self, TransformInfo::Squeeze(_))
    }
}

/// The parser returns a transform exactly if the bits at its position code it.
pub fn transforms_are_read_exactly()
    ensures colour { (tables : PaletteTables) → IsExact (rct_by tables) }
    ensures palette { (tables : PaletteTables) (weights : WpHeader) → IsExact (palette_by tables weights) }
    ensures squeeze { IsExact squeeze }
    ensures all { (tables : PaletteTables) (weights : WpHeader) → IsExact (transform_by tables weights) }
{}

/// The default squeeze halves the first of its channels until no side of it is above 8, and no more
/// often.
pub fn default_squeeze_halves_to_eight()
    ensures steps { TakesFewestSteps }
    ensures sides { LeavesSmallSides }
{}
