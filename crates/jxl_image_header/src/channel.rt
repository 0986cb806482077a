//! Depths of samples, and extra channels.

ghost use Rattle.std.specs.Prelude.{◌≡◌, ◌≤◌, nat_lt, false, codes};
ghost use Rattle.jxlm_bits.specs.Grammar.{Reads, either, flag, part, u32, HasRead};
ghost use Rattle.jxlm_bits.specs.declared.bits.U32Spec.TheVariants.{Const, Offset};
ghost use Rattle.jxl_image_header.specs.Fields.{number_where, ignored_bytes, variant, when};
ghost use Rattle.jxl_image_header.specs.Channels.{bit_depth, extra_channel, fits_float as the_fits_float, kind_of as the_kind_of, is_alpha as the_is_alpha, is_black as the_is_black, is_cfa as the_is_cfa, is_spot_colour as the_is_spot_colour};

use crate::fields::{Result, enum_number, name, number, skip};
use jxlm_bits::bits::{Bitstream, BitstreamError, U32Spec};

/// How a sample is stored.
#[derive(Clone, Copy)]
pub struct BitDepth {
    /// How many bits it has: of whole numbers from 1 to 31, of floats up to 32.
    pub bits_per_sample: u32,
    /// How many of these are a float's exponent, from 2 to 8; 0 for whole numbers.
    pub exp_bits: u32,
}

/// What the samples of an extra channel are.
#[derive(Clone, Copy, Debug, PartialEq, Eq)]
pub enum ExtraChannelKind {
    /// Opacity.
    Alpha = 0,
    /// Distance from the viewer.
    Depth = 1,
    /// The amount of an ink or colour of its own.
    SpotColour = 2,
    /// Which parts of the picture are selected.
    SelectionMask = 3,
    /// The black of CMYK.
    Black = 4,
    /// A channel of a colour filter array.
    Cfa = 5,
    /// Temperature.
    Thermal = 6,
    /// Not known; a decoder that does not know it refuses the image.
    Unknown = 15,
    /// Not known; a decoder may ignore it.
    Optional = 16,
}

/// What the headers say of a channel beside the colours.
#[derive(Clone, Copy)]
pub struct ExtraChannel {
    pub kind: ExtraChannelKind,
    /// How its samples are stored.
    pub bit_depth: BitDepth,
    /// Its sides are those of the picture by 2 to the power of this, rounded up.
    pub dim_shift: u32,
    /// How many bytes its name has.
    pub name_len: u32,
    /// Of alpha, whether colours were multiplied by it.
    pub alpha_associated: bool,
}

const USUAL_DEPTH: BitDepth = BitDepth {
    bits_per_sample: 8,
    exp_bits: 0,
};

const USUAL_CHANNEL: ExtraChannel = ExtraChannel {
    kind: ExtraChannelKind::Alpha,
    bit_depth: USUAL_DEPTH,
    dim_shift: 0,
    name_len: 0,
    alpha_associated: false,
};

// How many bits a sample has.
fn sample_bits(bits: &mut Bitstream<'_>, float: bool) -> Result<u32>
    ensures { HasRead Reads (λ v. v) result bits.old bits.new
        (either float (u32 (Const 32) (Const 16) (Const 24) (Offset 1 6))
        (number_where (codes "bits_per_sample") (λ n. nat_lt n 32) (u32 (Const 8) (Const 10) (Const 12) (Offset 1 6)))) }
{
    if float {
        return bits.read_u32(
            U32Spec::Const(32),
            U32Spec::Const(16),
            U32Spec::Const(24),
            U32Spec::Offset(1, 6),
        );
    }
    let value = bits.read_u32(
        U32Spec::Const(8),
        U32Spec::Const(10),
        U32Spec::Const(12),
        U32Spec::Offset(1, 6),
    )?;
    if value < 32 {
        Ok(value)
    } else {
        let name = "bits_per_sample";
        Err(BitstreamError::InvalidEnum { name, value })
    }
}

// How many of this number of bits are an exponent: none of a whole number.
fn exponent_bits(bits: &mut Bitstream<'_>, float: bool, all: u32) -> Result<u32>
    ensures { HasRead Reads (λ v. v) result bits.old bits.new
        (when float (number_where (codes "exponent_bits") (the_fits_float all) (part (Offset 1 4))) 0) }
{
    if !float {
        return Ok(0);
    }
    let value = 1 + number(bits, 4)?;
    let depth = BitDepth {
        bits_per_sample: all,
        exp_bits: value,
    };
    if depth.is_float() {
        Ok(value)
    } else {
        let name = "exponent_bits";
        Err(BitstreamError::InvalidEnum { name, value })
    }
}

impl BitDepth {
    /// Whether samples are floats: they have 2 to 8 bits of exponent, and besides these and the sign 2 to 23 of mantissa.
    pub fn is_float(self) -> bool
        ensures { result ≡ the_fits_float self.bits_per_sample self.exp_bits }
    {
        let (bits, exponent) = (self.bits_per_sample, self.exp_bits);
        2 <= exponent && exponent <= 8 && exponent + 3 <= bits && bits <= exponent + 24
    }

    /// How samples are stored, as it stands at the reader's position. `InvalidEnum` for whole numbers of more than 31
    /// bits, and for floats whose exponent or mantissa has a size that none may have.
    #[tactic(auto, unfolding(crate::specs::Channels::bit_depth))]
    pub fn parse(bits: &mut Bitstream<'_>) -> Result<BitDepth>
        ensures { HasRead Reads (λ v. v) result bits.old bits.new bit_depth }
    {
        let float = bits.read_bool()?;
        let all = sample_bits(bits, float)?;
        let exponent_bits = exponent_bits(bits, float, all)?;
        Ok(BitDepth {
            bits_per_sample: all,
            exp_bits: exponent_bits,
        })
    }

    // How samples are stored, if the header signals it.
    pub(crate) fn parse_if(bits: &mut Bitstream<'_>, there: bool) -> Result<BitDepth>
        ensures { HasRead Reads (λ v. v) result bits.old bits.new
            (when there bit_depth (record { bits_per_sample = 8; exp_bits = 0 })) }
    {
        if there {
            BitDepth::parse(bits)
        } else {
            Ok(USUAL_DEPTH)
        }
    }
}

// The kind that a number stands for.
fn kind_of(value: u32) -> Option<ExtraChannelKind>
    ensures { result ≡ the_kind_of value }
{
    match value {
        0 => Some(ExtraChannelKind::Alpha),
        1 => Some(ExtraChannelKind::Depth),
        2 => Some(ExtraChannelKind::SpotColour),
        3 => Some(ExtraChannelKind::SelectionMask),
        4 => Some(ExtraChannelKind::Black),
        5 => Some(ExtraChannelKind::Cfa),
        6 => Some(ExtraChannelKind::Thermal),
        15 => Some(ExtraChannelKind::Unknown),
        16 => Some(ExtraChannelKind::Optional),
        _ => None,
    }
}

impl ExtraChannelKind {
    /// Whether it is alpha.
    pub fn is_alpha(&self) -> bool
        ensures { result ≡ the_is_alpha self.now }
    {
        matches!(self, ExtraChannelKind::Alpha)
    }

    /// Whether it is the black of CMYK.
    pub fn is_black(&self) -> bool
        ensures { result ≡ the_is_black self.now }
    {
        matches!(self, ExtraChannelKind::Black)
    }

    fn is_spot_colour(&self) -> bool
        ensures { result ≡ the_is_spot_colour self.now }
    {
        matches!(self, ExtraChannelKind::SpotColour)
    }

    fn is_cfa(&self) -> bool
        ensures { result ≡ the_is_cfa self.now }
    {
        matches!(self, ExtraChannelKind::Cfa)
    }

    fn parse(bits: &mut Bitstream<'_>) -> Result<ExtraChannelKind>
        ensures { HasRead Reads (λ v. v) result bits.old bits.new (variant (codes "ExtraChannelType") the_kind_of) }
    {
        let value = enum_number(bits)?;
        match kind_of(value) {
            Some(kind) => Ok(kind),
            None => {
                let name = "ExtraChannelType";
                Err(BitstreamError::InvalidEnum { name, value })
            }
        }
    }
}

// Of alpha, whether colours were multiplied by it.
fn premultiplied(bits: &mut Bitstream<'_>, kind: ExtraChannelKind) -> Result<bool>
    ensures { HasRead Reads (λ v. v) result bits.old bits.new (when (the_is_alpha kind) flag false) }
{
    if kind.is_alpha() {
        bits.read_bool()
    } else {
        Ok(false)
    }
}

// Passes the four numbers of a spot colour.
fn spot_colour(bits: &mut Bitstream<'_>, kind: ExtraChannelKind) -> Result<()>
    ensures { HasRead Reads (λ v. v) result bits.old bits.new (when (the_is_spot_colour kind) (ignored_bytes 8) tt) }
{
    if kind.is_spot_colour() {
        skip(bits, 8)
    } else {
        Ok(())
    }
}

// The number of a colour filter's channel; 0 of other kinds.
fn filter_channel(bits: &mut Bitstream<'_>, kind: ExtraChannelKind) -> Result<u32>
    ensures { HasRead Reads (λ v. v) result bits.old bits.new
        (when (the_is_cfa kind) (u32 (Const 1) (Offset 0 2) (Offset 3 4) (Offset 19 8)) 0) }
{
    if !kind.is_cfa() {
        return Ok(0);
    }
    bits.read_u32(
        U32Spec::Const(1),
        U32Spec::Offset(0, 2),
        U32Spec::Offset(3, 4),
        U32Spec::Offset(19, 8),
    )
}

impl ExtraChannel {
    /// The channel that stands at the reader's position; its name and what a kind has of its own are passed.
    #[tactic(auto, unfolding(crate::specs::Channels::extra_channel))]
    pub fn parse(bits: &mut Bitstream<'_>) -> Result<ExtraChannel>
        ensures { HasRead Reads (λ v. v) result bits.old bits.new extra_channel }
    {
        if bits.read_bool()? {
            return Ok(USUAL_CHANNEL);
        }
        let kind = ExtraChannelKind::parse(bits)?;
        let depth = BitDepth::parse(bits)?;
        let shift = bits.read_u32(
            U32Spec::Const(0),
            U32Spec::Const(3),
            U32Spec::Const(4),
            U32Spec::Offset(1, 3),
        )?;
        let name_bytes = name(bits)?;
        let premultiplied = premultiplied(bits, kind)?;
        spot_colour(bits, kind)?;
        filter_channel(bits, kind)?;
        Ok(ExtraChannel {
            kind,
            bit_depth: depth,
            dim_shift: shift,
            name_len: name_bytes,
            alpha_associated: premultiplied,
        })
    }
}
