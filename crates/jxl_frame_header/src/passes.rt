//! The passes of a frame.

ghost use Rattle.std.specs.Prelude.{◌≡◌, ◌<◌, ◌≤◌, nat_lt, suc, None, true, IfOk};
ghost use Rattle.std.specs.Option.{option_map_or};
ghost use Rattle.jxlm_bits.specs.Grammar.{Reads, repeated, u32, HasRead, Parses};
ghost use Rattle.jxlm_bits.specs.declared.bits.U32Spec.TheVariants.{Const, Offset};
ghost use Rattle.jxl_image_header.specs.Fields.{when};
ghost use Rattle.jxl_frame_header.specs.Codings.{factor};
ghost use Rattle.jxl_frame_header.specs.Passes.{IsPassCount, passes_of, in_turn as the_list, passes, shift_of as the_shift_of, least_shift as the_least_shift, pass_shifts};
ghost use Rattle.jxl_frame_header.specs.Inner.Checked.{finer as the_finer, later as the_later, next as the_next, resolutions as the_resolutions};
ghost use Rattle.jxl_frame_header.specs.Inner.Ended.{ended as the_ended};

use crate::fields::fields as fields_of;
use jxl_image_header::fields;
use jxlm_base::grid::OutOfMemory;
use jxlm_bits::bits::{Bitstream, BitstreamError, U32Spec};
use jxlm_bits::error::Result;
use std::alloc::Global;
use std::collections::BTreeMap;

/// In which passes a frame comes.
#[derive(Drop)]
pub struct Passes {
    /// How many there are, from 1 to 11.
    pub num_passes: u32,
    /// Of each but the last, by how many bits its numbers are shifted: 0 to 3.
    pub shift: Vec<u32>,
    /// Resolutions that are whole after some passes: the frame's sides by 1, 2, 4 or 8. Each is finer than the one
    /// before, and there are at most as many as passes.
    pub downsample: Vec<u32>,
    /// The last pass of each of these, later than that of the one before.
    pub last_pass: Vec<u32>,
}

// Numbers of a list that each stand in this order: factors, or last passes of this number.
#[derive(Clone, Copy)]
enum Order {
    Finer,
    Later(u32),
}

fn shifts(alloc: Global, bits: &mut Bitstream<'_>, count: usize) -> Result<Vec<u32>>
    ensures { HasRead Parses (λ v. v.items) result bits.old bits.new
        (repeated count (u32 (Const 0) (Const 1) (Const 2) (Const 3))) }
{
    fields_of(
        alloc,
        bits,
        count,
        U32Spec::Const(0),
        U32Spec::Const(1),
        U32Spec::Const(2),
        U32Spec::Const(3),
    )
}

/// This number of factors: 1, 2, 4 or 8.
#[tactic(auto, unfolding(crate::specs::Codings::factor))]
pub fn factors(alloc: Global, bits: &mut Bitstream<'_>, count: usize) -> Result<Vec<u32>>
    ensures { HasRead Parses (λ v. v.items) result bits.old bits.new (repeated count factor) }
{
    fields_of(
        alloc,
        bits,
        count,
        U32Spec::Const(1),
        U32Spec::Const(2),
        U32Spec::Const(4),
        U32Spec::Const(8),
    )
}

fn resolutions(bits: &mut Bitstream<'_>, count: u32) -> fields::Result<u32>
    ensures { HasRead Reads (λ v. v) result bits.old bits.new (the_resolutions count) }
{
    let value = bits.read_u32(
        U32Spec::Const(0),
        U32Spec::Const(1),
        U32Spec::Const(2),
        U32Spec::Offset(3, 1),
    )?;
    if value <= count {
        Ok(value)
    } else {
        let name = "num_downsample";
        Err(BitstreamError::InvalidEnum { name, value })
    }
}

fn resolutions_if(bits: &mut Bitstream<'_>, there: bool, count: u32) -> fields::Result<u32>
    ensures { HasRead Reads (λ v. v) result bits.old bits.new (when there (the_resolutions count) 0) }
{
    if there {
        resolutions(bits, count)
    } else {
        Ok(0)
    }
}

fn is_below(before: Option<u32>, value: u32) -> bool
    ensures { result ≡ option_map_or (λ b. nat_lt value b) before true }
{
    match before {
        Some(before) => value < before,
        None => true,
    }
}

fn is_above(before: Option<u32>, value: u32) -> bool
    ensures { result ≡ option_map_or (λ b. nat_lt b value) before true }
{
    match before {
        Some(before) => before < value,
        None => true,
    }
}

#[tactic(auto, unfolding(crate::specs::Codings::factor))]
fn finer(bits: &mut Bitstream<'_>, before: Option<u32>) -> fields::Result<u32>
    ensures { HasRead Reads (λ v. v) result bits.old bits.new (the_finer before) }
{
    let value = bits.read_u32(
        U32Spec::Const(1),
        U32Spec::Const(2),
        U32Spec::Const(4),
        U32Spec::Const(8),
    )?;
    if is_below(before, value) {
        Ok(value)
    } else {
        let name = "downsample";
        Err(BitstreamError::InvalidEnum { name, value })
    }
}

fn later(bits: &mut Bitstream<'_>, count: u32, before: Option<u32>) -> fields::Result<u32>
    ensures { HasRead Reads (λ v. v) result bits.old bits.new (the_later count before) }
{
    let value = bits.read_u32(
        U32Spec::Const(0),
        U32Spec::Const(1),
        U32Spec::Const(2),
        U32Spec::Offset(0, 3),
    )?;
    if is_above(before, value) && value < count {
        Ok(value)
    } else {
        let name = "last_pass";
        Err(BitstreamError::InvalidEnum { name, value })
    }
}

// The next number of such a list.
fn next(bits: &mut Bitstream<'_>, order: Order, before: Option<u32>) -> fields::Result<u32>
    ensures { HasRead Reads (λ v. v) result bits.old bits.new (the_next order before) }
{
    match order {
        Order::Finer => finer(bits, before),
        Order::Later(count) => later(bits, count, before),
    }
}

// This number of numbers in this order.
fn in_turn(alloc: Global, bits: &mut Bitstream<'_>, n: usize, order: Order) -> Result<Vec<u32>>
    ensures { HasRead Parses (λ v. v.items) result bits.old bits.new (the_list n (the_next order) None) }
{
    let mut values = Vec::new(alloc);
    let mut before = None;
    for _ in 0..n {
        let value = next(bits, order, before)?;
        values.push(value)?;
        before = Some(value);
    }
    Ok(values)
}

// How many passes there are.
fn pass_count(bits: &mut Bitstream<'_>) -> fields::Result<u32>
    ensures reads { HasRead Reads (λ v. v) result bits.old bits.new (u32 (Const 1) (Const 2) (Const 3) (Offset 4 3)) }
    ensures counted { IfOk result IsPassCount }
{
    bits.read_u32(
        U32Spec::Const(1),
        U32Spec::Const(2),
        U32Spec::Const(3),
        U32Spec::Offset(4, 3),
    )
}

fn pass_count_if(bits: &mut Bitstream<'_>, there: bool) -> fields::Result<u32>
    ensures reads { HasRead Reads (λ v. v) result bits.old bits.new
        (when there (u32 (Const 1) (Const 2) (Const 3) (Offset 4 3)) 1) }
    ensures counted { IfOk result IsPassCount }
{
    if there { pass_count(bits) } else { Ok(1) }
}

fn shift_of(factor: u32) -> u32
    ensures is { result ≡ the_shift_of factor }
    ensures small { result ≤ 3 }
{
    if factor == 1 {
        0
    } else if factor == 2 {
        1
    } else if factor == 4 {
        2
    } else {
        3
    }
}

impl Passes {
    /// The passes that stand at the reader's position, if the header signals them; else there is one. `InvalidEnum` of
    /// `num_downsample` for more resolutions than passes, of `downsample` for one that is not finer than the one
    /// before, and of `last_pass` for a last pass that there is not, or that is not later than the one before.
    #[tactic(auto, unfolding(crate::specs::Passes::passes))]
    pub fn parse(alloc: Global, bits: &mut Bitstream<'_>, there: bool) -> Result<Passes>
        ensures reads { HasRead Parses passes_of result bits.old bits.new (passes there) }
        ensures counted { IfOk result (λ p. IsPassCount p.num_passes) }
    {
        let count = pass_count_if(bits, there)?;
        let n = resolutions_if(bits, count != 1, count)?;
        let shift = shifts(alloc, bits, count.saturating_sub(1) as usize)?;
        let downsample = in_turn(alloc, bits, n as usize, Order::Finer)?;
        let last_pass = in_turn(alloc, bits, n as usize, Order::Later(count))?;
        Ok(Passes {
            num_passes: count,
            shift,
            downsample,
            last_pass,
        })
    }

    // The factor of the resolution that is whole after this pass.
    fn ended(&self, pass: u32) -> Option<u32>
        ensures { result ≡ the_ended self.now.downsample.items self.now.last_pass.items pass }
    {
        for place in 0..self.last_pass.len() {
            if self.last_pass[place] == pass {
                return self.downsample.get(place).copied();
            }
        }
        None
    }

    // The least shift that passes up to this one hold; those before it hold this one, or more.
    fn least_shift(&self, pass: u32, before: u32) -> u32
        requires pass { pass < self.now.num_passes }
        requires before { before ≡ the_least_shift (passes_of self.now) pass }
        requires small { before ≤ 3 }
        ensures is { result ≡ the_least_shift (passes_of self.now) (suc pass) }
        ensures small { result ≤ 3 }
    {
        let count = self.num_passes;
        if pass + 1 == count {
            return 0;
        }
        match self.ended(pass) {
            Some(factor) => shift_of(factor),
            None => before,
        }
    }

    /// The passes by their numbers, each with the first shift that it holds, and the first after it that it does not
    /// hold (ISO/IEC 18181-1, Modular: the shifts of a pass). Shifts from 3 on are of no pass.
    ///
    /// # Errors
    ///
    /// `OutOfMemory`, and no other.
    pub fn shifts(
        &self,
        alloc: Global,
    ) -> std::result::Result<BTreeMap<u32, (i32, i32)>, OutOfMemory>
        ensures { IfOk result (λ held. held.entries ≡ pass_shifts (passes_of self.now)) }
    {
        let mut held = BTreeMap::new(alloc);
        let mut end = 3;
        for pass in 0..self.num_passes {
            let first = self.least_shift(pass, end);
            held.insert(pass, (first as i32, end as i32))?;
            end = first;
        }
        Ok(held)
    }
}
