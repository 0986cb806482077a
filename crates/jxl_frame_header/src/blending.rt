//! How a frame is blended with others, and what becomes of it.

ghost use Rattle.std.specs.Prelude.{◌≡◌, ◌==◌, ◌&&◌, ◌||◌, not, nat_lt, [], None, Some, true, false, is_some, if◌then◌else◌};
ghost use Rattle.std.specs.List.{list_any};
ghost use Rattle.std.specs.Option.{option_map_or};
ghost use Rattle.jxlm_bits.specs.Grammar.{Reads, repeated, u32, HasRead, Parses};
ghost use Rattle.jxlm_bits.specs.declared.bits.U32Spec.TheVariants.{Const, Offset};
ghost use Rattle.jxl_image_header.specs.Fields.{when};
ghost use Rattle.jxl_frame_header.specs.Places.{is_reference as the_is_reference};
ghost use Rattle.jxl_frame_header.specs.Blendings.{blending_info, is_replace as the_is_replace, frame_use};
ghost use Rattle.jxl_frame_header.specs.Inner.Checked.{mode_number as the_mode_number, alpha as the_alpha};
ghost use Rattle.jxl_frame_header.specs.declared.blending.BlendMode.TheVariants as modes;
ghost use Rattle.jxl_frame_header.specs.declared.refusal.Refusal.TheVariants as refusals;

use crate::coding::FrameType;
use crate::fields::field_if;
use crate::refusal::Refusal;
use jxl_image_header::fields::{Result, flag_if, number_if};
use jxl_image_header::image::Animation;
use jxlm_bits::bits::{Bitstream, BitstreamError, U32Spec};
use jxlm_bits::error;
use std::alloc::Global;

/// How samples and those of an earlier frame make one picture.
#[derive(Clone, Copy, Debug, PartialEq, Eq)]
pub enum BlendMode {
    /// The frame's.
    Replace,
    /// Their sum.
    Add,
    /// By the frame's alpha.
    Blend,
    /// The earlier ones and the frame's times its alpha.
    MulAdd,
    /// Their product.
    Mul,
}

/// How some channels of a frame are blended.
#[derive(Clone, Copy)]
pub struct BlendingInfo {
    pub mode: BlendMode,
    /// Which extra channel is alpha, where the mode looks at it.
    pub alpha_channel: u32,
    /// Whether alpha, or the product's factor, is kept between 0 and 1.
    pub clamp: bool,
    /// Which of the saved frames they are blended with.
    pub source: u32,
}

/// How a frame is blended.
#[derive(Drop)]
pub struct FrameBlending {
    pub blending_info: BlendingInfo,
    /// Of each extra channel; none for a frame that is not shown, nor where the header says nothing.
    pub ec_blending_info: Vec<BlendingInfo>,
}

/// What becomes of a frame.
#[derive(Clone, Copy)]
pub struct FrameUse {
    /// In an animation, for how many units of time it is shown.
    pub duration: u32,
    /// In an animation with time codes, its code.
    pub timecode: u32,
    pub is_last: bool,
    /// As which of the saved frames it is saved; a frame that is shown for some time is not saved as 0.
    pub save_as_reference: u32,
    /// Whether it is saved before its colours are transformed.
    pub save_before_ct: bool,
}

fn mode_of(n: u32) -> BlendMode
    ensures { result ≡ (if n == 0 then modes.Replace else if n == 1 then modes.Add else
        if n == 2 then modes.Blend else if n == 3 then modes.MulAdd else modes.Mul) }
{
    if n == 0 {
        BlendMode::Replace
    } else if n == 1 {
        BlendMode::Add
    } else if n == 2 {
        BlendMode::Blend
    } else if n == 3 {
        BlendMode::MulAdd
    } else {
        BlendMode::Mul
    }
}

fn mode_number(bits: &mut Bitstream<'_>) -> Result<u32>
    ensures { HasRead Reads (λ v. v) result bits.old bits.new the_mode_number }
{
    let value = bits.read_u32(
        U32Spec::Const(0),
        U32Spec::Const(1),
        U32Spec::Const(2),
        U32Spec::Offset(3, 2),
    )?;
    if value < 5 {
        Ok(value)
    } else {
        let name = "BlendMode";
        Err(BitstreamError::InvalidEnum { name, value })
    }
}

fn mode_if(bits: &mut Bitstream<'_>, there: bool) -> Result<u32>
    ensures { HasRead Reads (λ v. v) result bits.old bits.new (when there the_mode_number 0) }
{
    if there { mode_number(bits) } else { Ok(0) }
}

fn by_alpha(extra: usize, mode: u32) -> bool
    ensures { result ≡ (nat_lt 0 extra && ((mode == 2) || (mode == 3))) }
{
    extra > 0 && (mode == 2 || mode == 3)
}

fn alpha(bits: &mut Bitstream<'_>, extra: usize) -> Result<u32>
    ensures { HasRead Reads (λ v. v) result bits.old bits.new (the_alpha extra) }
{
    let value = bits.read_u32(
        U32Spec::Const(0),
        U32Spec::Const(1),
        U32Spec::Const(2),
        U32Spec::Offset(3, 3),
    )?;
    if (value as usize) < extra {
        Ok(value)
    } else {
        let name = "alpha_channel";
        Err(BitstreamError::InvalidEnum { name, value })
    }
}

fn alpha_if(bits: &mut Bitstream<'_>, there: bool, extra: usize) -> Result<u32>
    ensures { HasRead Reads (λ v. v) result bits.old bits.new (when there (the_alpha extra) 0) }
{
    if there { alpha(bits, extra) } else { Ok(0) }
}

impl BlendingInfo {
    /// How some channels are blended, in an image with this number of extra channels, of a frame that is partial or
    /// not. `InvalidEnum` for a mode that there is not, and for an alpha channel that there is not.
    pub fn parse(bits: &mut Bitstream<'_>, extra: usize, partial: bool) -> Result<BlendingInfo>
        ensures { HasRead Reads (λ v. v) result bits.old bits.new (blending_info true extra partial) }
    {
        BlendingInfo::parse_if(bits, true, extra, partial)
    }

    /// The same if the header signals it; else the frame's samples replace others.
    #[tactic(auto, unfolding(crate::specs::Blendings::blending_info))]
    pub fn parse_if(
        bits: &mut Bitstream<'_>,
        there: bool,
        extra: usize,
        partial: bool,
    ) -> Result<BlendingInfo>
        ensures { HasRead Reads (λ v. v) result bits.old bits.new (blending_info there extra partial) }
    {
        let mode = mode_if(bits, there)?;
        let by_alpha = by_alpha(extra, mode);
        let alpha_channel = alpha_if(bits, by_alpha, extra)?;
        let clamp = flag_if(bits, by_alpha | (mode == 4), false)?;
        let source = number_if(bits, (mode != 0) | (there & partial), 2, 0)?;
        Ok(BlendingInfo {
            mode: mode_of(mode),
            alpha_channel,
            clamp,
            source,
        })
    }

    /// Whether the frame's samples replace others.
    pub fn replaces(&self) -> bool
        ensures { result ≡ the_is_replace self.now.mode }
    {
        match self.mode {
            BlendMode::Replace => true,
            BlendMode::Add => false,
            BlendMode::Blend => false,
            BlendMode::MulAdd => false,
            BlendMode::Mul => false,
        }
    }
}

// This number of extra channels.
fn read_infos(
    alloc: Global,
    bits: &mut Bitstream<'_>,
    count: usize,
    extra: usize,
    partial: bool,
) -> error::Result<Vec<BlendingInfo>>
    ensures { HasRead Parses (λ v. v.items) result bits.old bits.new
        (repeated count (blending_info true extra partial)) }
{
    let mut infos = Vec::new(alloc);
    for _ in 0..count {
        let info = BlendingInfo::parse(bits, extra, partial)?;
        infos.push(info)?;
    }
    Ok(infos)
}

// This number of extra channels, if the header signals them.
pub(crate) fn read_infos_if(
    alloc: Global,
    bits: &mut Bitstream<'_>,
    there: bool,
    extra: usize,
    partial: bool,
) -> error::Result<Vec<BlendingInfo>>
    ensures { HasRead Parses (λ v. v.items) result bits.old bits.new
        (when there (repeated extra (blending_info true extra partial)) []) }
{
    if there {
        read_infos(alloc, bits, extra, extra, partial)
    } else {
        Ok(Vec::new(alloc))
    }
}

// Whether an extra channel does not replace that of the frame before.
fn is_blended(infos: &[BlendingInfo]) -> bool
    ensures { result ≡ list_any (λ b. not (the_is_replace b.mode)) infos.now }
{
    infos.iter().any(|info| !info.replaces())
}

impl FrameBlending {
    /// What of it is not supported: the first channels, in order, that are blended.
    pub fn refused(&self) -> Option<Refusal>
        ensures { result ≡ (if not (the_is_replace self.now.blending_info.mode) then Some refusals.Blending else
            if list_any (λ b. not (the_is_replace b.mode)) self.now.ec_blending_info.items
            then Some refusals.ExtraBlending else None) }
    {
        if !self.blending_info.replaces() {
            Some(Refusal::Blending)
        } else if is_blended(&self.ec_blending_info) {
            Some(Refusal::ExtraBlending)
        } else {
            None
        }
    }
}

// For how long a frame is shown, if the header signals it.
fn duration_if(bits: &mut Bitstream<'_>, there: bool) -> Result<u32>
    ensures { HasRead Reads (λ v. v) result bits.old bits.new
        (when there (u32 (Const 0) (Const 1) (Offset 0 8) (Offset 0 32)) 0) }
{
    field_if(
        bits,
        there,
        U32Spec::Const(0),
        U32Spec::Const(1),
        U32Spec::Offset(0, 8),
        U32Spec::Offset(0, 32),
        0,
    )
}

fn has_timecodes(animation: Option<Animation>) -> bool
    ensures { result ≡ option_map_or (λ a. a.have_timecodes) animation false }
{
    match animation {
        Some(animation) => animation.have_timecodes,
        None => false,
    }
}

fn may_save_before(
    frame_type: FrameType,
    replaced: bool,
    is_last: bool,
    duration: u32,
    reference: u32,
) -> bool
    ensures { result ≡ (the_is_reference frame_type || replaced && not is_last
        && ((duration == 0) || not (reference == 0))) }
{
    frame_type.is_reference() || replaced && !is_last && (duration == 0 || reference != 0)
}

impl FrameUse {
    /// What becomes of a frame of this type, as it stands at the reader's position, if the header signals it, and the
    /// frame is shown or not; it replaces the whole picture or not.
    #[tactic(auto, unfolding(crate::specs::Blendings::frame_use))]
    pub fn parse(
        bits: &mut Bitstream<'_>,
        shown: bool,
        animation: Option<Animation>,
        frame_type: FrameType,
        replaces: bool,
    ) -> Result<FrameUse>
        ensures { HasRead Reads (λ v. v) result bits.old bits.new (frame_use shown animation frame_type replaces) }
    {
        let duration = duration_if(bits, shown & animation.is_some())?;
        let timecode = number_if(bits, shown & has_timecodes(animation), 32, 0)?;
        let is_last = flag_if(bits, shown, frame_type.is_shown())?;
        let kept = !frame_type.is_lf() & !is_last;
        let save_as_reference = number_if(bits, kept, 2, 0)?;
        let replaced = shown & replaces;
        let there = may_save_before(frame_type, replaced, is_last, duration, save_as_reference);
        let save_before_ct = flag_if(bits, there, frame_type.is_lf())?;
        Ok(FrameUse {
            duration,
            timecode,
            is_last,
            save_as_reference,
            save_before_ct,
        })
    }

    /// Whether it is not supported, of a frame of this type: other frames follow one that is shown, or another is saved
    /// after its colours were transformed.
    pub fn refused(&self, frame_type: FrameType) -> Option<Refusal>
        ensures { result ≡ (
            if the_is_reference frame_type && not self.now.save_before_ct then Some refusals.SavedAfter else
            if not (the_is_reference frame_type || self.now.is_last) then Some refusals.Frames else None) }
    {
        if frame_type.is_reference() {
            if self.save_before_ct {
                None
            } else {
                Some(Refusal::SavedAfter)
            }
        } else if self.is_last {
            None
        } else {
            Some(Refusal::Frames)
        }
    }
}
