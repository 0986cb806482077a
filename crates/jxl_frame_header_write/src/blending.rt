//! How a frame is blended with others, and what becomes of it, written.

ghost use Rattle.std.specs.Prelude.{◌≡◌, ◌==◌, ◌||◌, ◌&&◌, not, nat_lt, ◌<◌, length, [], true, false, if◌then◌else◌, is_some, IfOk};
ghost use Rattle.std.specs.List.{list_all};
ghost use Rattle.std.specs.Option.{option_map_or};
ghost use Rattle.jxlm_bits.specs.Grammar.{repeated};
ghost use Rattle.jxlm_bits.specs.declared.bits.U32Spec.TheVariants.{Const, Offset};
ghost use Rattle.jxlm_bit_writer.specs.Fields.{is_spelled as the_is_spelled};
ghost use Rattle.jxlm_bit_writer.specs.Writes.{Spells};
ghost use Rattle.jxl_image_header.specs.Fields.{when};
ghost use Rattle.jxl_frame_header.specs.Blendings.{blending_info, frame_use, is_replace};
ghost use Rattle.jxl_frame_header.specs.Places.{is_shown, is_lf};
ghost use Rattle.jxl_frame_header_write.specs.Inner.Numbers.{IsModeNumber};
ghost use Rattle.jxl_frame_header_write.specs.Writable.{uses_alpha as the_uses_alpha, is_product as the_is_product, is_blending as the_is_blending, are_blendings as the_are_blendings, may_save_before as the_may_save_before, is_use as the_is_use};

use crate::fields::write_field_if;
use jxl_frame_header::blending::{BlendMode, BlendingInfo, FrameUse};
use jxl_frame_header::coding::FrameType;
use jxl_image_header::image::Animation;
use jxl_image_header_write::fields::{write_flag_if, write_number_if};
use jxlm_bit_writer::spelled::is_spelled;
use jxlm_bit_writer::writer::BitWriter;
use jxlm_bits::bits::U32Spec;
use std::alloc::AllocError;

// The number of a mode.
fn mode_number(mode: BlendMode) -> u32
    ensures { IsModeNumber result mode }
{
    match mode {
        BlendMode::Replace => 0,
        BlendMode::Add => 1,
        BlendMode::Blend => 2,
        BlendMode::MulAdd => 3,
        BlendMode::Mul => 4,
    }
}

// Whether a mode looks at alpha.
fn uses_alpha(mode: BlendMode) -> bool
    ensures { result ≡ the_uses_alpha mode }
{
    matches!(mode, BlendMode::Blend | BlendMode::MulAdd)
}

// Whether a mode multiplies.
fn is_product(mode: BlendMode) -> bool
    ensures { result ≡ the_is_product mode }
{
    matches!(mode, BlendMode::Mul)
}

// Whether a mode looks at the alpha of an image with `extra` extra channels.
fn by_alpha(extra: usize, mode: BlendMode) -> bool
    ensures { result ≡ (nat_lt 0 extra && the_uses_alpha mode) }
{
    extra > 0 && uses_alpha(mode)
}

fn is_alpha(extra: usize, info: BlendingInfo) -> bool
    ensures { result ≡ (if nat_lt 0 extra && the_uses_alpha info.mode then
        the_is_spelled (Const 0) (Const 1) (Const 2) (Offset 3 3) info.alpha_channel && nat_lt info.alpha_channel extra
        else info.alpha_channel == 0) }
{
    if !by_alpha(extra, info.mode) {
        return info.alpha_channel == 0;
    }
    let spelled = is_spelled(
        U32Spec::Const(0),
        U32Spec::Const(1),
        U32Spec::Const(2),
        U32Spec::Offset(3, 3),
        info.alpha_channel,
    );
    spelled && (info.alpha_channel as usize) < extra
}

fn is_source(told: bool, partial: bool, info: BlendingInfo) -> bool
    ensures { result ≡ (if not (is_replace info.mode) || told && partial then nat_lt info.source 4
        else info.source == 0) }
{
    if !info.replaces() || told && partial {
        info.source < 4
    } else {
        info.source == 0
    }
}

/// Whether the writer spells how some channels are blended, in an image with `extra` extra channels.
pub fn is_blending(told: bool, extra: usize, partial: bool, info: BlendingInfo) -> bool
    ensures { result ≡ the_is_blending told extra partial info }
{
    (told || info.replaces())
        && is_alpha(extra, info)
        && (by_alpha(extra, info.mode) || is_product(info.mode) || !info.clamp)
        && is_source(told, partial, info)
}

fn all_blendings(extra: usize, partial: bool, infos: &[BlendingInfo]) -> bool
    ensures { result ≡ list_all (the_is_blending true extra partial) infos.now }
{
    for info in infos {
        if !is_blending(true, extra, partial, *info) {
            return false;
        }
    }
    true
}

/// Whether the writer spells how each of `extra` extra channels is blended.
pub fn are_blendings(told: bool, extra: usize, partial: bool, infos: &[BlendingInfo]) -> bool
    ensures { result ≡ the_are_blendings told extra partial infos.now }
{
    if !told {
        return infos.len() == 0;
    }
    infos.len() == extra && all_blendings(extra, partial, infos)
}

/// Adds how some channels are blended, in an image with `extra` extra channels, if it is present.
pub fn write_blending_if(
    bits: &mut BitWriter,
    present: bool,
    extra: usize,
    partial: bool,
    info: BlendingInfo,
) -> Result<(), AllocError>
    requires { the_is_blending present extra partial info ≡ true }
    ensures { IfOk result (λ _. Spells bits.old bits.new (blending_info present extra partial) info) }
{
    let mode = mode_number(info.mode);
    let by_alpha = by_alpha(extra, info.mode);
    write_field_if(
        bits,
        present,
        mode,
        U32Spec::Const(0),
        U32Spec::Const(1),
        U32Spec::Const(2),
        U32Spec::Offset(3, 2),
        0,
    )?;
    write_field_if(
        bits,
        by_alpha,
        info.alpha_channel,
        U32Spec::Const(0),
        U32Spec::Const(1),
        U32Spec::Const(2),
        U32Spec::Offset(3, 3),
        0,
    )?;
    write_flag_if(bits, by_alpha | is_product(info.mode), info.clamp, false)?;
    write_number_if(
        bits,
        !info.replaces() | (present & partial),
        info.source,
        2,
        0,
    )?;
    Ok(())
}

// Adds how extra channels are blended, of which there are `extra`, one after another.
fn write_blendings(
    bits: &mut BitWriter,
    extra: usize,
    partial: bool,
    infos: &[BlendingInfo],
) -> Result<(), AllocError>
    requires { list_all (the_is_blending true extra partial) infos.now ≡ true }
    ensures { IfOk result (λ _. Spells bits.old bits.new
        (repeated (length infos.now) (blending_info true extra partial)) infos.now) }
{
    for info in infos {
        write_blending_if(bits, true, extra, partial, *info)?;
    }
    Ok(())
}

/// Adds how each of `extra` extra channels is blended, if it is present.
pub fn write_blendings_if(
    bits: &mut BitWriter,
    present: bool,
    extra: usize,
    partial: bool,
    infos: &[BlendingInfo],
) -> Result<(), AllocError>
    requires { the_are_blendings present extra partial infos.now ≡ true }
    ensures { IfOk result (λ _. Spells bits.old bits.new
        (when present (repeated extra (blending_info true extra partial)) []) infos.now) }
{
    if !present {
        return Ok(());
    }
    write_blendings(bits, extra, partial, infos)?;
    Ok(())
}

fn has_timecodes(animation: Option<Animation>) -> bool
    ensures { result ≡ option_map_or (λ a. a.have_timecodes) animation false }
{
    match animation {
        Some(animation) => animation.have_timecodes,
        None => false,
    }
}

fn may_save_before(shown: bool, frame_type: FrameType, replaces: bool, usage: FrameUse) -> bool
    ensures { result ≡ the_may_save_before shown frame_type replaces usage }
{
    let kept = usage.duration == 0 || usage.save_as_reference != 0;
    frame_type.is_reference() || shown && replaces && !usage.is_last && kept
}

fn is_saved_as(frame_type: FrameType, usage: FrameUse) -> bool
    ensures { result ≡ (if not (is_lf frame_type) && not usage.is_last then nat_lt usage.save_as_reference 4
        else usage.save_as_reference == 0) }
{
    if !frame_type.is_lf() && !usage.is_last {
        usage.save_as_reference < 4
    } else {
        usage.save_as_reference == 0
    }
}

/// Whether the writer spells what becomes of a frame.
pub fn is_use(
    shown: bool,
    animation: Option<Animation>,
    frame_type: FrameType,
    replaces: bool,
    usage: FrameUse,
) -> bool
    ensures { result ≡ the_is_use shown animation frame_type replaces usage }
{
    let saved = may_save_before(shown, frame_type, replaces, usage)
        || usage.save_before_ct == frame_type.is_lf();
    (shown && animation.is_some() || usage.duration == 0)
        && (shown && has_timecodes(animation) || usage.timecode == 0)
        && (shown || !usage.is_last)
        && is_saved_as(frame_type, usage)
        && saved
}

/// Adds what becomes of a frame, which is shown or not, and replaces the whole picture or not.
pub fn write_use(
    bits: &mut BitWriter,
    shown: bool,
    animation: Option<Animation>,
    frame_type: FrameType,
    replaces: bool,
    usage: FrameUse,
) -> Result<(), AllocError>
    requires shown { shown ≡ is_shown frame_type }
    requires spelled { the_is_use shown animation frame_type replaces usage ≡ true }
    ensures { IfOk result (λ _. Spells bits.old bits.new (frame_use shown animation frame_type replaces) usage) }
{
    let before = may_save_before(shown, frame_type, replaces, usage);
    write_field_if(
        bits,
        shown & animation.is_some(),
        usage.duration,
        U32Spec::Const(0),
        U32Spec::Const(1),
        U32Spec::Offset(0, 8),
        U32Spec::Offset(0, 32),
        0,
    )?;
    write_number_if(
        bits,
        shown & has_timecodes(animation),
        usage.timecode,
        32,
        0,
    )?;
    write_flag_if(bits, shown, usage.is_last, frame_type.is_shown())?;
    let kept = !frame_type.is_lf() & !usage.is_last;
    write_number_if(bits, kept, usage.save_as_reference, 2, 0)?;
    write_flag_if(bits, before, usage.save_before_ct, frame_type.is_lf())?;
    Ok(())
}
