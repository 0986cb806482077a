//! Fields of frame headers.

ghost use Rattle.jxlm_bits.specs.Grammar.{FitsU32, Reads, repeated, u32 as the_u32, HasRead, Parses};
ghost use Rattle.jxl_image_header.specs.Fields.{when};

use jxl_image_header::fields::Result;
use jxlm_bits::bits::{Bitstream, U32Spec};
use jxlm_bits::error;
use std::alloc::Global;

/// This number of `U32` fields of one kind.
pub fn fields(
    alloc: Global,
    bits: &mut Bitstream<'_>,
    count: usize,
    d0: U32Spec,
    d1: U32Spec,
    d2: U32Spec,
    d3: U32Spec,
) -> error::Result<Vec<u32>>
    requires fits { FitsU32 d0 × FitsU32 d1 × FitsU32 d2 × FitsU32 d3 }
    ensures { HasRead Parses (λ v. v.items) result bits.old bits.new (repeated count (the_u32 d0 d1 d2 d3)) }
{
    let mut values = Vec::new(alloc);
    for _ in 0..count {
        let value = bits.read_u32(d0, d1, d2, d3)?;
        values.push(value)?;
    }
    Ok(values)
}

/// A `U32` field where it is there, and else `usual`.
pub fn field_if(
    bits: &mut Bitstream<'_>,
    there: bool,
    d0: U32Spec,
    d1: U32Spec,
    d2: U32Spec,
    d3: U32Spec,
    usual: u32,
) -> Result<u32>
    requires fits { FitsU32 d0 × FitsU32 d1 × FitsU32 d2 × FitsU32 d3 }
    ensures { HasRead Reads (λ v. v) result bits.old bits.new (when there (the_u32 d0 d1 d2 d3) usual) }
{
    if there {
        bits.read_u32(d0, d1, d2, d3)
    } else {
        Ok(usual)
    }
}
