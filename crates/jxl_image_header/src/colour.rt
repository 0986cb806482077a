//! Colour encodings, and what the header says of brightness.

ghost use Rattle.std.specs.Prelude.{◌≡◌, ◌==◌, ◌||◌, ◌&&◌, not, nat_le, ◌*◌, true, codes};
ghost use Rattle.jxlm_bits.specs.Grammar.{Reads, number as the_number, HasRead};
ghost use Rattle.jxl_image_header.specs.Fields.{number_where, enum_number as the_enum_number, variant, when};
ghost use Rattle.jxl_image_header.specs.Colours.{coordinate as the_coordinate, chromaticity, custom_primaries, white_of as the_white_of, white_point, primaries_of as the_primaries_of, primaries, function_of as the_function_of, transfer_function, space_of as the_space_of, is_grey as the_is_grey, is_xyb as the_is_xyb, intent_of as the_intent_of, colour_encoding, is_positive as the_is_positive, is_up_to as the_is_up_to, linear_limit as the_linear_limit, tone_mapping};
ghost use Rattle.jxl_image_header.specs.declared.colour.ColourSpace.TheVariants.{Rgb};
ghost use Rattle.jxl_image_header.specs.declared.colour.RenderingIntent.TheVariants.{Relative};

use crate::fields::{Result, bundle_follows, enum_number, flag_if, number};
use jxlm_bits::bits::{Bitstream, BitstreamError, U32Spec};

/// A colour without its brightness.
#[derive(Clone, Copy)]
pub struct Chromaticity {
    /// In millionths: twice the number, or for negative ones twice the amount less one.
    pub x: u32,
    /// As `x`.
    pub y: u32,
}

/// Three colours that are mixed.
#[derive(Clone, Copy)]
pub struct CustomPrimaries {
    pub red: Chromaticity,
    pub green: Chromaticity,
    pub blue: Chromaticity,
}

/// The colour space of the samples.
#[derive(Clone, Copy, Debug, PartialEq, Eq)]
pub enum ColourSpace {
    /// Red, green and blue.
    Rgb = 0,
    /// One channel.
    Grey = 1,
    Xyb = 2,
    /// Only the profile says it.
    Unknown = 3,
}

/// The colour of white.
#[derive(Clone, Copy)]
pub enum WhitePoint {
    D65,
    /// By its coordinates.
    Custom(Chromaticity),
    /// The equal-energy point.
    E,
    /// That of DCI-P3.
    Dci,
}

/// The colours that are mixed.
#[derive(Clone, Copy)]
pub enum Primaries {
    Srgb,
    /// By their coordinates.
    Custom(CustomPrimaries),
    Bt2100,
    P3,
}

/// How light follows from samples.
#[derive(Clone, Copy)]
pub enum TransferFunction {
    /// By an exponent, in 10 millionths.
    Gamma(u32),
    Bt709,
    Linear,
    Srgb,
    Pq,
    Dci,
    Hlg,
}

/// How colours outside the range of a display are shown.
#[derive(Clone, Copy, Debug, PartialEq, Eq)]
pub enum RenderingIntent {
    Perceptual = 0,
    Relative = 1,
    Saturation = 2,
    Absolute = 3,
}

/// What the samples of colours mean. Of what is not told the usual is given: sRGB's.
#[derive(Clone, Copy)]
pub struct ColourEncoding {
    /// Whether a profile follows the headers, which tells it.
    pub want_icc: bool,
    pub colour_space: ColourSpace,
    pub white_point: WhitePoint,
    pub primaries: Primaries,
    pub transfer_function: TransferFunction,
    pub rendering_intent: RenderingIntent,
}

/// What the header says of brightness: floats of 16 bits, as the numbers of their bits.
#[derive(Clone, Copy)]
pub struct ToneMapping {
    /// The brightness of the maximum, in nits.
    pub intensity_target: u32,
    /// The brightness of the minimum, in nits.
    pub min_nits: u32,
    /// Whether `linear_below` is a part of the display's maximum.
    pub relative_to_max_display: bool,
    /// Below this brightness nothing is changed.
    pub linear_below: u32,
}

#[tactic(auto, unfolding(crate::specs::Colours::coordinate))]
fn coordinate(bits: &mut Bitstream<'_>, there: bool) -> Result<u32>
    ensures { HasRead Reads (λ v. v) result bits.old bits.new (the_coordinate there) }
{
    if !there {
        return Ok(0);
    }
    bits.read_u32(
        U32Spec::Offset(0, 19),
        U32Spec::Offset(524288, 19),
        U32Spec::Offset(1048576, 20),
        U32Spec::Offset(2097152, 21),
    )
}

impl Chromaticity {
    #[tactic(auto, unfolding(crate::specs::Colours::chromaticity))]
    fn parse(bits: &mut Bitstream<'_>, there: bool) -> Result<Chromaticity>
        ensures { HasRead Reads (λ v. v) result bits.old bits.new (chromaticity there) }
    {
        let x = coordinate(bits, there)?;
        let y = coordinate(bits, there)?;
        Ok(Chromaticity { x, y })
    }
}

impl CustomPrimaries {
    #[tactic(auto, unfolding(crate::specs::Colours::custom_primaries))]
    fn parse(bits: &mut Bitstream<'_>, there: bool) -> Result<CustomPrimaries>
        ensures { HasRead Reads (λ v. v) result bits.old bits.new (custom_primaries there) }
    {
        let red = Chromaticity::parse(bits, there)?;
        let green = Chromaticity::parse(bits, there)?;
        let blue = Chromaticity::parse(bits, there)?;
        Ok(CustomPrimaries { red, green, blue })
    }
}

fn white_number(bits: &mut Bitstream<'_>, there: bool) -> Result<u32>
    ensures { HasRead Reads (λ v. v) result bits.old bits.new
        (when there (number_where (codes "WhitePoint") (λ v. (v == 1) || (v == 2) || (v == 10) || (v == 11))
        the_enum_number) 1) }
{
    if !there {
        return Ok(1);
    }
    let value = enum_number(bits)?;
    if value == 1 || value == 2 || value == 10 || value == 11 {
        Ok(value)
    } else {
        let name = "WhitePoint";
        Err(BitstreamError::InvalidEnum { name, value })
    }
}

// The white point that a number stands for, with these coordinates if it has its own.
fn white_of(number: u32, custom: Chromaticity) -> WhitePoint
    ensures { result ≡ the_white_of number custom }
{
    match number {
        1 => WhitePoint::D65,
        2 => WhitePoint::Custom(custom),
        10 => WhitePoint::E,
        _ => WhitePoint::Dci,
    }
}

impl WhitePoint {
    #[tactic(auto, unfolding(crate::specs::Colours::white_point))]
    fn parse(bits: &mut Bitstream<'_>, there: bool) -> Result<WhitePoint>
        ensures { HasRead Reads (λ v. v) result bits.old bits.new (white_point there) }
    {
        let number = white_number(bits, there)?;
        let custom = Chromaticity::parse(bits, number == 2)?;
        Ok(white_of(number, custom))
    }
}

fn primaries_number(bits: &mut Bitstream<'_>, there: bool) -> Result<u32>
    ensures { HasRead Reads (λ v. v) result bits.old bits.new
        (when there (number_where (codes "Primaries") (λ v. (v == 1) || (v == 2) || (v == 9) || (v == 11)) the_enum_number)
        1) }
{
    if !there {
        return Ok(1);
    }
    let value = enum_number(bits)?;
    if value == 1 || value == 2 || value == 9 || value == 11 {
        Ok(value)
    } else {
        let name = "Primaries";
        Err(BitstreamError::InvalidEnum { name, value })
    }
}

// The primaries that a number stands for, with these coordinates if they have their own.
fn primaries_of(number: u32, custom: CustomPrimaries) -> Primaries
    ensures { result ≡ the_primaries_of number custom }
{
    match number {
        1 => Primaries::Srgb,
        2 => Primaries::Custom(custom),
        9 => Primaries::Bt2100,
        _ => Primaries::P3,
    }
}

impl Primaries {
    #[tactic(auto, unfolding(crate::specs::Colours::primaries))]
    fn parse(bits: &mut Bitstream<'_>, there: bool) -> Result<Primaries>
        ensures { HasRead Reads (λ v. v) result bits.old bits.new (primaries there) }
    {
        let number = primaries_number(bits, there)?;
        let custom = CustomPrimaries::parse(bits, number == 2)?;
        Ok(primaries_of(number, custom))
    }
}

// Whether an exponent is one: from 1 in 8192 to 1.
fn is_gamma(value: u32) -> bool
    ensures { result ≡ nat_le value 10000000 && nat_le 10000000 (8192 * value) }
{
    value <= 10000000 && 10000000 <= 8192 * u64::from(value)
}

// The exponent, or 0 where there is none.
fn gamma(bits: &mut Bitstream<'_>, by_gamma: bool) -> Result<u32>
    ensures { HasRead Reads (λ v. v) result bits.old bits.new
        (when by_gamma (number_where (codes "gamma") (λ v. nat_le v 10000000 && nat_le 10000000 (8192 * v))
        (the_number 24)) 0) }
{
    if !by_gamma {
        return Ok(0);
    }
    let value = number(bits, 24)?;
    if is_gamma(value) {
        Ok(value)
    } else {
        let name = "gamma";
        Err(BitstreamError::InvalidEnum { name, value })
    }
}

// The number of a curve, by default 13.
fn curve(bits: &mut Bitstream<'_>, there: bool) -> Result<u32>
    ensures { HasRead Reads (λ v. v) result bits.old bits.new
        (when there (number_where (codes "TransferFunction")
        (λ v. (v == 1) || (v == 8) || (v == 13) || (v == 16) || (v == 17) || (v == 18)) the_enum_number) 13) }
{
    if !there {
        return Ok(13);
    }
    let value = enum_number(bits)?;
    match value {
        1 | 8 | 13 | 16 | 17 | 18 => Ok(value),
        _ => {
            let name = "TransferFunction";
            Err(BitstreamError::InvalidEnum { name, value })
        }
    }
}

// The number of a curve, or 0 where it is by an exponent.
fn curve_if(bits: &mut Bitstream<'_>, by_gamma: bool, there: bool) -> Result<u32>
    ensures { HasRead Reads (λ v. v) result bits.old bits.new
        (when (not by_gamma) (when there (number_where (codes "TransferFunction")
        (λ v. (v == 1) || (v == 8) || (v == 13) || (v == 16) || (v == 17) || (v == 18)) the_enum_number) 13) 0) }
{
    if by_gamma { Ok(0) } else { curve(bits, there) }
}

// The transfer function that a number stands for, of 0 the one with this exponent.
fn function_of(number: u32, gamma: u32) -> TransferFunction
    ensures { result ≡ the_function_of number gamma }
{
    match number {
        0 => TransferFunction::Gamma(gamma),
        1 => TransferFunction::Bt709,
        8 => TransferFunction::Linear,
        13 => TransferFunction::Srgb,
        16 => TransferFunction::Pq,
        17 => TransferFunction::Dci,
        _ => TransferFunction::Hlg,
    }
}

impl TransferFunction {
    #[tactic(auto, unfolding(crate::specs::Colours::transfer_function))]
    fn parse(bits: &mut Bitstream<'_>, there: bool) -> Result<TransferFunction>
        ensures { HasRead Reads (λ v. v) result bits.old bits.new (transfer_function there) }
    {
        let by_gamma = flag_if(bits, there, false)?;
        let gamma = gamma(bits, by_gamma)?;
        let number = curve_if(bits, by_gamma, there)?;
        Ok(function_of(number, gamma))
    }
}

// The rendering intent that a number stands for.
fn intent_of(value: u32) -> Option<RenderingIntent>
    ensures { result ≡ the_intent_of value }
{
    match value {
        0 => Some(RenderingIntent::Perceptual),
        1 => Some(RenderingIntent::Relative),
        2 => Some(RenderingIntent::Saturation),
        3 => Some(RenderingIntent::Absolute),
        _ => None,
    }
}

impl RenderingIntent {
    fn parse(bits: &mut Bitstream<'_>) -> Result<RenderingIntent>
        ensures { HasRead Reads (λ v. v) result bits.old bits.new (variant (codes "RenderingIntent") the_intent_of) }
    {
        let value = enum_number(bits)?;
        match intent_of(value) {
            Some(intent) => Ok(intent),
            None => {
                let name = "RenderingIntent";
                Err(BitstreamError::InvalidEnum { name, value })
            }
        }
    }

    fn parse_if(bits: &mut Bitstream<'_>, there: bool) -> Result<RenderingIntent>
        ensures { HasRead Reads (λ v. v) result bits.old bits.new
            (when there (variant (codes "RenderingIntent") the_intent_of) Relative) }
    {
        if there {
            RenderingIntent::parse(bits)
        } else {
            Ok(RenderingIntent::Relative)
        }
    }
}

// The colour space that a number stands for; one that only a profile says needs a profile.
fn space_of(value: u32, profile: bool) -> Option<ColourSpace>
    ensures { result ≡ the_space_of profile value }
{
    match value {
        0 => Some(ColourSpace::Rgb),
        1 => Some(ColourSpace::Grey),
        2 => Some(ColourSpace::Xyb),
        3 if profile => Some(ColourSpace::Unknown),
        _ => None,
    }
}

impl ColourSpace {
    /// Whether it is grey, which has one channel.
    pub fn is_grey(&self) -> bool
        ensures { result ≡ the_is_grey self.now }
    {
        matches!(self, ColourSpace::Grey)
    }

    /// Whether it is XYB.
    pub fn is_xyb(&self) -> bool
        ensures { result ≡ the_is_xyb self.now }
    {
        matches!(self, ColourSpace::Xyb)
    }

    fn parse(bits: &mut Bitstream<'_>, profile: bool) -> Result<ColourSpace>
        ensures { HasRead Reads (λ v. v) result bits.old bits.new
            (variant (codes "ColourSpace") (the_space_of profile)) }
    {
        let value = enum_number(bits)?;
        match space_of(value, profile) {
            Some(space) => Ok(space),
            None => {
                let name = "ColourSpace";
                Err(BitstreamError::InvalidEnum { name, value })
            }
        }
    }

    fn parse_if(bits: &mut Bitstream<'_>, there: bool, profile: bool) -> Result<ColourSpace>
        ensures { HasRead Reads (λ v. v) result bits.old bits.new
            (when there (variant (codes "ColourSpace") (the_space_of profile)) Rgb) }
    {
        if there {
            ColourSpace::parse(bits, profile)
        } else {
            Ok(ColourSpace::Rgb)
        }
    }
}

impl ColourEncoding {
    /// What the samples of colours mean, as it stands at the reader's position. `InvalidEnum` for a number that names
    /// nothing, for a space that only a profile could tell where there is none, and for an exponent out of range.
    pub fn parse(bits: &mut Bitstream<'_>) -> Result<ColourEncoding>
        ensures { HasRead Reads (λ v. v) result bits.old bits.new (colour_encoding true) }
    {
        ColourEncoding::parse_if(bits, true)
    }

    // What the samples of colours mean, where that may be told.
    #[tactic(auto, unfolding(crate::specs::Colours::colour_encoding))]
    pub(crate) fn parse_if(bits: &mut Bitstream<'_>, there: bool) -> Result<ColourEncoding>
        ensures { HasRead Reads (λ v. v) result bits.old bits.new (colour_encoding there) }
    {
        let follows = bundle_follows(bits, there)?;
        let profile = flag_if(bits, follows, false)?;
        let space = ColourSpace::parse_if(bits, follows, profile)?;
        let explicit = follows & !profile;
        let xyb = space.is_xyb();
        let white = WhitePoint::parse(bits, explicit & !xyb)?;
        let mixed = Primaries::parse(bits, explicit & !(space.is_grey() | xyb))?;
        let function = TransferFunction::parse(bits, explicit & !xyb)?;
        let intent = RenderingIntent::parse_if(bits, explicit)?;
        Ok(ColourEncoding {
            want_icc: profile,
            colour_space: space,
            white_point: white,
            primaries: mixed,
            transfer_function: function,
            rendering_intent: intent,
        })
    }
}

/// Whether a float of 16 bits is above 0, and neither infinite nor no number.
pub fn is_positive(value: u32) -> bool
    ensures { result ≡ the_is_positive value }
{
    0 < value && value < 0x7C00
}

/// Whether a float of 16 bits is from 0 to `most`.
pub fn is_up_to(most: u32, value: u32) -> bool
    ensures { result ≡ the_is_up_to most value }
{
    value <= most || value == 0x8000
}

/// The maximum of `linear_below`, as a float of 16 bits: 1 if it is relative, else the greatest number.
pub fn linear_limit(relative: bool) -> u32
    ensures { result ≡ the_linear_limit relative }
{
    if relative { 0x3C00 } else { 0x7BFF }
}

// The maximum of the brightness in nits, by default 255: a float of 16 bits above 0.
fn intensity_target(bits: &mut Bitstream<'_>, there: bool) -> Result<u32>
    ensures { HasRead Reads (λ v. v) result bits.old bits.new
        (when there (number_where (codes "intensity_target") the_is_positive (the_number 16)) 0x5BF8) }
{
    if !there {
        return Ok(0x5BF8);
    }
    let value = number(bits, 16)?;
    if is_positive(value) {
        Ok(value)
    } else {
        let name = "intensity_target";
        Err(BitstreamError::InvalidEnum { name, value })
    }
}

// The minimum of the brightness in nits, by default 0: a float of 16 bits up to the maximum.
fn min_nits(bits: &mut Bitstream<'_>, there: bool, most: u32) -> Result<u32>
    ensures { HasRead Reads (λ v. v) result bits.old bits.new
        (when there (number_where (codes "min_nits") (the_is_up_to most) (the_number 16)) 0) }
{
    if !there {
        return Ok(0);
    }
    let value = number(bits, 16)?;
    if is_up_to(most, value) {
        Ok(value)
    } else {
        let name = "min_nits";
        Err(BitstreamError::InvalidEnum { name, value })
    }
}

// The brightness up to which nothing changes, by default 0: a float of 16 bits, if it is relative up to 1.
fn linear_below(bits: &mut Bitstream<'_>, there: bool, relative: bool) -> Result<u32>
    ensures { HasRead Reads (λ v. v) result bits.old bits.new
        (when there (number_where (codes "linear_below") (the_is_up_to (the_linear_limit relative)) (the_number 16))
        0) }
{
    if !there {
        return Ok(0);
    }
    let value = number(bits, 16)?;
    if is_up_to(linear_limit(relative), value) {
        Ok(value)
    } else {
        let name = "linear_below";
        Err(BitstreamError::InvalidEnum { name, value })
    }
}

impl ToneMapping {
    /// What the header says of brightness at the reader's position. `InvalidEnum` for an intensity target that is not
    /// above 0, for a minimum below 0 or above it, for a linear range below 0, or above 1 if it is relative, and for a
    /// float that is infinite or no number.
    pub fn parse(bits: &mut Bitstream<'_>) -> Result<ToneMapping>
        ensures { HasRead Reads (λ v. v) result bits.old bits.new (tone_mapping true) }
    {
        ToneMapping::parse_if(bits, true)
    }

    // What the header says of brightness, where something may be.
    #[tactic(auto, unfolding(crate::specs::Colours::tone_mapping))]
    pub(crate) fn parse_if(bits: &mut Bitstream<'_>, there: bool) -> Result<ToneMapping>
        ensures { HasRead Reads (λ v. v) result bits.old bits.new (tone_mapping there) }
    {
        let follows = bundle_follows(bits, there)?;
        let intensity_target = intensity_target(bits, follows)?;
        let min_nits = min_nits(bits, follows, intensity_target)?;
        let relative = flag_if(bits, follows, false)?;
        let linear_below = linear_below(bits, follows, relative)?;
        Ok(ToneMapping {
            intensity_target,
            min_nits,
            relative_to_max_display: relative,
            linear_below,
        })
    }
}
