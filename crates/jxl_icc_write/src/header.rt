//! The first 128 bytes of a profile, less what is predicted for them.

ghost use Rattle.std.specs.Prelude.{◌≡◌, ◌+◌, ◌<◌, ◌^◌, ◌%◌, drop, length, min, IfOk};
ghost use Rattle.jxl_icc_write.specs.Inner.Streams.{AreResiduals};

use jxl_icc::header::{HEADER, predicted};
use std::alloc::{AllocError, Global};

/// What is left of a byte without its prediction.
fn residual(byte: u8, predicted: u8) -> u8
    ensures { (result + predicted) % 256 ≡ byte }
{
    byte.wrapping_sub(predicted)
}

/// The first bytes of the profile, at most 128, each less what is predicted for it.
pub fn residuals(alloc: Global, icc: &[u8]) -> Result<Vec<u8>, AllocError>
    requires { length icc.now < 2 ^ 32 }
    ensures each { IfOk result (λ v. AreResiduals icc.now v.items) }
    ensures count { IfOk result (λ v. length v.items ≡ min (length icc.now) 128) }
{
    let size = icc.len() as u32;
    let count = HEADER.min(icc.len());
    let mut residuals = Vec::new(alloc);
    for i in 0..count {
        residuals.push(residual(icc[i], predicted(size, &icc[..i], i)))?;
    }
    Ok(residuals)
}

/// The bytes of a profile after its header.
#[tactic(auto, using(std::proofs::lemmas::List::take_rest))]
pub fn after_header(icc: &[u8]) -> &[u8]
    ensures { result.now ≡ drop (min (length icc.now) 128) icc.now }
{
    &icc[HEADER.min(icc.len())..]
}
