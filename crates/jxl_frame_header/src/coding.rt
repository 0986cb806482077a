//! How a frame is coded.

ghost use Rattle.std.specs.Prelude.{◌≡◌, ◌==◌, if◌then◌else◌, Some, None};
ghost use Rattle.jxlm_bits.specs.Grammar.{Reads, HasRead};
ghost use Rattle.jxl_image_header.specs.Fields.{when};
ghost use Rattle.jxl_frame_header.specs.Codings.{factor, flags_of as the_flags_of, coding, is_modular as the_is_modular, type_refusal, coding_refusal};
ghost use Rattle.jxl_frame_header.specs.Inner.Checked.{flags as the_flags};
ghost use Rattle.jxl_frame_header.specs.declared.coding.Encoding.TheVariants as encodings;
ghost use Rattle.jxl_frame_header.specs.declared.coding.FrameType.TheVariants as types;
ghost use Rattle.jxl_frame_header.specs.declared.refusal.Refusal.TheVariants as refusals;

use crate::fields::field_if;
use crate::refusal::Refusal;
use jxl_image_header::fields::{Result, flag_if, long_if, number_if};
use jxlm_bits::bits::{Bitstream, U32Spec};

/// What a frame is for.
#[derive(Clone, Copy, Debug, PartialEq, Eq)]
pub enum FrameType {
    /// It is shown.
    Regular,
    /// It holds the low frequencies of a later frame.
    LfFrame,
    /// Later frames use it.
    ReferenceOnly,
    /// It is shown, but not while the image is loaded.
    SkipProgressive,
}

/// How the samples of a frame are coded.
#[derive(Clone, Copy, Debug, PartialEq, Eq)]
pub enum Encoding {
    VarDct,
    Modular,
}

/// What a frame has beside its samples.
#[derive(Clone, Copy)]
pub struct FrameFlags {
    pub noise: bool,
    pub patches: bool,
    pub splines: bool,
    /// An earlier frame holds its low frequencies.
    pub use_lf_frame: bool,
    /// Low frequencies are taken as they are.
    pub skip_adaptive_lf_smoothing: bool,
}

/// How a frame is coded.
#[derive(Clone, Copy)]
pub struct FrameCoding {
    pub frame_type: FrameType,
    pub encoding: Encoding,
    pub flags: FrameFlags,
    /// Whether colours are YCbCr.
    pub do_ycbcr: bool,
    /// The frame's sides are those of its colours by this: 1, 2, 4 or 8.
    pub upsampling: u32,
}

fn type_of(n: u32) -> FrameType
    ensures { result ≡ (if n == 0 then types.Regular else if n == 1 then types.LfFrame else
        if n == 2 then types.ReferenceOnly else types.SkipProgressive) }
{
    if n == 0 {
        FrameType::Regular
    } else if n == 1 {
        FrameType::LfFrame
    } else if n == 2 {
        FrameType::ReferenceOnly
    } else {
        FrameType::SkipProgressive
    }
}

fn encoding_of(modular: bool) -> Encoding
    ensures { result ≡ (if modular then encodings.Modular else encodings.VarDct) }
{
    if modular {
        Encoding::Modular
    } else {
        Encoding::VarDct
    }
}

fn flags_of(v: u64) -> FrameFlags
    ensures { result ≡ the_flags_of v }
{
    FrameFlags {
        noise: v % 2 == 1,
        patches: v / 2 % 2 == 1,
        splines: v / 16 % 2 == 1,
        use_lf_frame: v / 32 % 2 == 1,
        skip_adaptive_lf_smoothing: v / 128 % 2 == 1,
    }
}

impl Encoding {
    /// Whether it is Modular.
    pub fn is_modular(&self) -> bool
        ensures { result ≡ the_is_modular self.now }
    {
        match self {
            Encoding::VarDct => false,
            Encoding::Modular => true,
        }
    }
}

impl FrameFlags {
    fn parse(bits: &mut Bitstream<'_>, follows: bool) -> Result<FrameFlags>
        ensures { HasRead Reads (λ v. v) result bits.old bits.new (the_flags follows) }
    {
        let value = long_if(bits, follows)?;
        Ok(flags_of(value))
    }
}

// How much smaller than the picture something is coded, if the header signals it.
#[tactic(auto, unfolding(crate::specs::Codings::factor))]
fn factor_if(bits: &mut Bitstream<'_>, there: bool) -> Result<u32>
    ensures { HasRead Reads (λ v. v) result bits.old bits.new (when there factor 1) }
{
    field_if(
        bits,
        there,
        U32Spec::Const(1),
        U32Spec::Const(2),
        U32Spec::Const(4),
        U32Spec::Const(8),
        1,
    )
}

impl FrameCoding {
    /// How a frame of an image whose colours are XYB, or are not, is coded, as it stands at the reader's position,
    /// if the header signals it.
    #[tactic(auto, unfolding(crate::specs::Codings::coding))]
    pub fn parse(bits: &mut Bitstream<'_>, follows: bool, xyb: bool) -> Result<FrameCoding>
        ensures { HasRead Reads (λ v. v) result bits.old bits.new (coding follows xyb) }
    {
        let frame_type = number_if(bits, follows, 2, 0)?;
        let modular = flag_if(bits, follows, false)?;
        let flags = FrameFlags::parse(bits, follows)?;
        let ycbcr = flag_if(bits, follows & !xyb, false)?;
        number_if(bits, ycbcr & !flags.use_lf_frame, 6, 0)?;
        let upsampling = factor_if(bits, follows & !flags.use_lf_frame)?;
        Ok(FrameCoding {
            frame_type: type_of(frame_type),
            encoding: encoding_of(modular),
            flags,
            do_ycbcr: ycbcr,
            upsampling,
        })
    }

    fn type_refused(&self) -> Option<Refusal>
        ensures { result ≡ type_refusal self.now.frame_type }
    {
        match self.frame_type {
            FrameType::Regular => None,
            FrameType::LfFrame => Some(Refusal::LfFrame),
            FrameType::ReferenceOnly => None,
            FrameType::SkipProgressive => Some(Refusal::SkippedFrame),
        }
    }

    fn form_refused(&self) -> Option<Refusal>
        ensures { result ≡ (if self.now.do_ycbcr then Some refusals.YCbCr else
            if self.now.upsampling == 1 then None else Some refusals.Upsampling) }
    {
        if self.do_ycbcr {
            Some(Refusal::YCbCr)
        } else if self.upsampling == 1 {
            None
        } else {
            Some(Refusal::Upsampling)
        }
    }

    /// What of it is not supported, of an image that has channels of floats or not, and extra channels of other sizes or
    /// not: the first in the order of the bits, or none.
    pub fn refused(&self, floats: bool, shifts: bool) -> Option<Refusal>
        ensures { result ≡ coding_refusal floats shifts self.now }
    {
        if let Some(refusal) = self.type_refused() {
            Some(refusal)
        } else if !self.encoding.is_modular() {
            Some(Refusal::VarDct)
        } else if self.flags.noise {
            Some(Refusal::Noise)
        } else if self.flags.patches && floats {
            Some(Refusal::FloatPatches)
        } else if self.flags.patches && shifts {
            Some(Refusal::ShiftedPatches)
        } else if self.flags.splines {
            Some(Refusal::Splines)
        } else if self.flags.use_lf_frame {
            Some(Refusal::UseLfFrame)
        } else {
            self.form_refused()
        }
    }
}
