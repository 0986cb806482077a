//! Depths of samples and extra channels, written.

ghost use Rattle.std.specs.Prelude.{◌≡◌, ◌≢◌, true, false, IfOk, Some, length};
ghost use Rattle.jxlm_bits.specs.Grammar.{repeated};
ghost use Rattle.jxlm_bits.specs.declared.bits.U32Spec.TheVariants.{Const, Offset};
ghost use Rattle.jxlm_bit_writer.specs.Fields.{is_spelled as spelled};
ghost use Rattle.jxlm_bit_writer.specs.Writes.{Spells};
ghost use Rattle.std.specs.List.{list_all};
ghost use Rattle.jxl_image_header.specs.Channels.{bit_depth, extra_channel, kind_of};
ghost use Rattle.jxl_image_header.specs.Fields.{when};
ghost use Rattle.jxl_image_header_write.specs.Writable.{is_depth, is_usual_depth as usual_depth, is_channel, is_usual_channel as usual_channel};

use crate::fields::{write_enum_if, write_flag_if, write_no_name};
use jxl_image_header::channel::{BitDepth, ExtraChannel, ExtraChannelKind};
use jxlm_bit_writer::spelled::{write_flag, write_number, write_u32};
use jxlm_bit_writer::writer::BitWriter;
use jxlm_bits::bits::U32Spec;
use std::alloc::AllocError;

/// Whether samples are whole numbers of 8 bits, as by default.
pub fn is_usual_depth(depth: BitDepth) -> bool
    ensures { result ≡ usual_depth depth }
{
    depth.bits_per_sample == 8 && depth.exp_bits == 0
}

fn write_whole_depth(bits: &mut BitWriter, depth: BitDepth) -> Result<(), AllocError>
    requires whole { depth.exp_bits ≡ 0 }
    requires spelled { is_depth depth ≡ true }
    ensures { IfOk result (λ _. Spells bits.old bits.new bit_depth depth) }
{
    write_flag(bits, false)?;
    write_u32(
        bits,
        depth.bits_per_sample,
        U32Spec::Const(8),
        U32Spec::Const(10),
        U32Spec::Const(12),
        U32Spec::Offset(1, 6),
    )?;
    Ok(())
}

fn write_float_depth(bits: &mut BitWriter, depth: BitDepth) -> Result<(), AllocError>
    requires float { depth.exp_bits ≢ 0 }
    requires spelled { is_depth depth ≡ true }
    ensures { IfOk result (λ _. Spells bits.old bits.new bit_depth depth) }
{
    write_flag(bits, true)?;
    write_u32(
        bits,
        depth.bits_per_sample,
        U32Spec::Const(32),
        U32Spec::Const(16),
        U32Spec::Const(24),
        U32Spec::Offset(1, 6),
    )?;
    write_number(bits, depth.exp_bits - 1, 4)?;
    Ok(())
}

/// Adds how samples are stored.
pub fn write_depth(bits: &mut BitWriter, depth: BitDepth) -> Result<(), AllocError>
    requires { is_depth depth ≡ true }
    ensures { IfOk result (λ _. Spells bits.old bits.new bit_depth depth) }
{
    if depth.exp_bits == 0 {
        write_whole_depth(bits, depth)
    } else {
        write_float_depth(bits, depth)
    }
}

/// Adds how samples are stored, if it is present; else they are whole numbers of 8 bits.
pub fn write_depth_if(
    bits: &mut BitWriter,
    present: bool,
    depth: BitDepth,
) -> Result<(), AllocError>
    requires spelled { is_depth depth ≡ true }
    requires usual { present ≡ false → usual_depth depth ≡ true }
    ensures { IfOk result (λ _. Spells bits.old bits.new
        (when present bit_depth (record { bits_per_sample = 8; exp_bits = 0 })) depth) }
{
    if !present {
        return Ok(());
    }
    write_depth(bits, depth)?;
    Ok(())
}

// The number of a kind.
fn kind_number(kind: ExtraChannelKind) -> u32
    ensures meant { kind_of result ≡ Some kind }
    ensures spelled { spelled (Const 0) (Const 1) (Offset 2 4) (Offset 18 6) result ≡ true }
{
    match kind {
        ExtraChannelKind::Alpha => 0,
        ExtraChannelKind::Depth => 1,
        ExtraChannelKind::SpotColour => 2,
        ExtraChannelKind::SelectionMask => 3,
        ExtraChannelKind::Black => 4,
        ExtraChannelKind::Cfa => 5,
        ExtraChannelKind::Thermal => 6,
        ExtraChannelKind::Unknown => 15,
        ExtraChannelKind::Optional => 16,
    }
}

// Whether a channel is alpha as by default.
fn is_usual_channel(channel: ExtraChannel) -> bool
    ensures { result ≡ usual_channel channel }
{
    channel.kind.is_alpha()
        && is_usual_depth(channel.bit_depth)
        && channel.dim_shift == 0
        && channel.name_len == 0
        && !channel.alpha_associated
}

// Adds a channel, field by field.
fn write_told_channel(bits: &mut BitWriter, channel: ExtraChannel) -> Result<(), AllocError>
    requires { is_channel channel ≡ true }
    ensures { IfOk result (λ _. Spells bits.old bits.new extra_channel channel) }
{
    write_flag(bits, false)?;
    write_enum_if(bits, true, kind_number(channel.kind), 0)?;
    write_depth(bits, channel.bit_depth)?;
    write_u32(
        bits,
        channel.dim_shift,
        U32Spec::Const(0),
        U32Spec::Const(3),
        U32Spec::Const(4),
        U32Spec::Offset(1, 3),
    )?;
    write_no_name(bits)?;
    write_flag_if(
        bits,
        channel.kind.is_alpha(),
        channel.alpha_associated,
        false,
    )?;
    Ok(())
}

/// Adds an extra channel.
pub fn write_channel(bits: &mut BitWriter, channel: ExtraChannel) -> Result<(), AllocError>
    requires { is_channel channel ≡ true }
    ensures { IfOk result (λ _. Spells bits.old bits.new extra_channel channel) }
{
    if is_usual_channel(channel) {
        write_flag(bits, true)?;
        return Ok(());
    }
    write_told_channel(bits, channel)
}

/// Adds extra channels, one after another.
pub fn write_channels(bits: &mut BitWriter, channels: &[ExtraChannel]) -> Result<(), AllocError>
    requires { list_all is_channel channels.now ≡ true }
    ensures { IfOk result (λ _. Spells bits.old bits.new (repeated (length channels.now) extra_channel) channels.now) }
{
    for channel in channels {
        write_channel(bits, *channel)?;
    }
    Ok(())
}
