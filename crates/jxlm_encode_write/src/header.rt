//! Headers written (ISO/IEC 18181-1, Modular: Modular header, TransformInfo).

ghost use Rattle.std.specs.Prelude.{◌≡◌, ◌≤◌, ◌++◌, ◌↔◌, IsTrue, IfOk, length, map};
ghost use Rattle.std.specs.List.{All};
ghost use Rattle.jxlm_transform.specs.Transforms.{IsSqueeze, IsSqueezeParams, IsTransform};
ghost use Rattle.jxlm_encode_write.specs.Headers.{params_of, transform_of, begin_bits};
ghost use Rattle.jxlm_encode_write.specs.Headers.{params_bits, squeeze_bits, transform_bits, header_bits};

use jxlm_bit_writer::writer::BitWriter;
use jxlm_bits::bits::U32Spec;
use std::alloc::AllocError;

/// One squeeze step of some channels.
#[derive(Clone, Copy, Debug, PartialEq, Eq)]
pub struct SqueezeStep {
    /// Whether the width is halved, and not the height.
    pub horizontal: bool,
    /// Whether residuals come right after the channels, and not at the end of the list.
    pub in_place: bool,
    /// The first channel.
    pub begin_c: u32,
    /// How many channels there are.
    pub num_c: u32,
}

/// A transform that an image is coded by.
#[derive(Drop)]
pub enum EncodeTransform {
    /// A colour transform of three channels.
    Rct {
        /// The first channel.
        begin_c: u32,
        /// How the colours are formed.
        rct_type: u32,
    },
    /// Squeeze steps in order; none stand for the default squeeze.
    Squeeze(Vec<SqueezeStep>),
}

/// Adds the number of a transform's first channel, at most 9287.
#[tactic(auto, using(crate::proofs::Spelled::begin_spelled))]
fn write_begin(bits: &mut BitWriter, begin_c: u32) -> Result<(), AllocError>
    requires { begin_c ≤ 9287 }
    ensures { IfOk result (λ _. bits.new ≡ bits.old ++ begin_bits begin_c) }
{
    bits.put_u32(
        begin_c,
        U32Spec::Offset(0, 3),
        U32Spec::Offset(8, 6),
        U32Spec::Offset(72, 10),
        U32Spec::Offset(1096, 13),
    )
}

impl SqueezeStep {
    /// Whether a header can spell the step.
    fn is_spelled(&self) -> bool
        ensures { IsTrue result ↔ IsSqueezeParams (params_of self.now) }
    {
        self.begin_c <= 9287 && 1 <= self.num_c && self.num_c <= 19
    }

    /// Adds a step that a header can spell.
    #[tactic(auto, using(crate::proofs::Spelled::count_spelled))]
    fn write(&self, bits: &mut BitWriter) -> Result<(), AllocError>
        requires { IsSqueezeParams (params_of self.now) }
        ensures { IfOk result (λ _. bits.new ≡ bits.old ++ params_bits (params_of self.now)) }
    {
        bits.put_flag(self.horizontal)?;
        bits.put_flag(self.in_place)?;
        write_begin(bits, self.begin_c)?;
        bits.put_u32(
            self.num_c,
            U32Spec::Const(1),
            U32Spec::Const(2),
            U32Spec::Const(3),
            U32Spec::Offset(4, 4),
        )
    }
}

/// Adds steps that a header can spell, and before them how many there are, at most 296.
#[tactic(auto, using(crate::proofs::Spelled::steps_spelled))]
fn write_steps(bits: &mut BitWriter, steps: &[SqueezeStep]) -> Result<(), AllocError>
    requires few { length steps.now ≤ 296 }
    requires each { All (λ s. IsSqueezeParams (params_of s)) steps.now }
    ensures { IfOk result (λ _. bits.new ≡ bits.old ++ squeeze_bits (map params_of steps.now)) }
{
    bits.put_u32(
        steps.len() as u32,
        U32Spec::Const(0),
        U32Spec::Offset(1, 4),
        U32Spec::Offset(9, 6),
        U32Spec::Offset(41, 8),
    )?;
    for step in steps {
        step.write(bits)?;
    }
    Ok(())
}

/// Whether a header can spell each of the steps.
fn all_spelled(steps: &[SqueezeStep]) -> bool
    ensures { IsTrue result ↔ All (λ s. IsSqueezeParams (params_of s)) steps.now }
{
    steps.iter().all(|step| step.is_spelled())
}

/// Whether a header can spell the steps.
#[tactic(auto, using(crate::proofs::Spelled::squeeze_iff))]
fn is_squeeze(steps: &[SqueezeStep]) -> bool
    ensures { IsTrue result ↔ IsSqueeze (map params_of steps.now) }
{
    steps.len() <= 296 && all_spelled(steps)
}

impl EncodeTransform {
    /// Whether a header can spell the transform: a first channel of at most 9287, a kind of at most 73, at most 296
    /// steps, from 1 to 19 channels a step.
    pub fn is_spelled(&self) -> bool
        ensures { IsTrue result ↔ IsTransform (transform_of self.now) }
    {
        match self {
            EncodeTransform::Rct { begin_c, rct_type } => *begin_c <= 9287 && *rct_type <= 73,
            EncodeTransform::Squeeze(steps) => is_squeeze(steps),
        }
    }

    /// Adds a transform that a header can spell.
    #[tactic(auto, using(crate::proofs::Spelled::kind_spelled))]
    fn write(&self, bits: &mut BitWriter) -> Result<(), AllocError>
        requires { IsTransform (transform_of self.now) }
        ensures { IfOk result (λ _. bits.new ≡ bits.old ++ transform_bits (transform_of self.now)) }
    {
        match self {
            EncodeTransform::Rct { begin_c, rct_type } => {
                bits.put(0, 2)?;
                write_begin(bits, *begin_c)?;
                bits.put_u32(
                    *rct_type,
                    U32Spec::Const(6),
                    U32Spec::Offset(0, 2),
                    U32Spec::Offset(2, 4),
                    U32Spec::Offset(10, 6),
                )
            }
            EncodeTransform::Squeeze(steps) => {
                bits.put(2, 2)?;
                write_steps(bits, steps)
            }
        }
    }
}

/// Adds a header: no global tree, default weights, and these transforms, at most 273, each of which it can spell.
///
/// # Errors
///
/// `AllocError` if it is out of memory, and then nothing is promised of the bits.
#[tactic(auto, using(crate::proofs::Spelled::transforms_spelled))]
pub fn write_header(bits: &mut BitWriter, transforms: &[EncodeTransform]) -> Result<(), AllocError>
    requires few { length transforms.now ≤ 273 }
    requires each { All (λ t. IsTransform (transform_of t)) transforms.now }
    ensures { IfOk result (λ _. bits.new ≡ bits.old ++ header_bits (map transform_of transforms.now)) }
{
    bits.put_flag(false)?;
    bits.put_flag(true)?;
    bits.put_u32(
        transforms.len() as u32,
        U32Spec::Const(0),
        U32Spec::Const(1),
        U32Spec::Offset(2, 4),
        U32Spec::Offset(18, 8),
    )?;
    for transform in transforms {
        transform.write(bits)?;
    }
    Ok(())
}
