// Worked examples of what is named in other files of this folder.

use super::fields::{number, number_of, weights};
use crate::compare;
use jxl_modular::bits::{Bitstream, BitstreamError};
use jxl_modular::grid::{AlignedGrid, OutOfMemory};
use jxl_modular::groups::Part;
use jxl_modular::predictor::{Predictor, WpHeader};
use jxl_modular::sample::Sample;
use std::alloc::Global;
use std::process::Abort;
use std::result::Result;

// The calls of single samples: 1 - 3, 10 * 2 + 1, the minimum of three, and a number both ways.
fn samples<S: Sample>() -> (i32, i32, i32, i64) {
    let sum: S = S::unpack_signed_u32(2).add(S::from_i32(-3));
    let product: S = S::from_u32(10).wrapping_muladd_i32(2, 1);
    let clamped: S = S::grad_clamped(S::from_i32(1), S::from_i32(2), S::from_i32(5));
    (
        sum.to_i32(),
        product.to_i32(),
        clamped.to_i32(),
        sum.to_i64(),
    )
}

// Whether the grid is one of 32 bits, and whether it is one of 16.
fn widths<S: Sample>(grid: AlignedGrid<S>) -> (bool, bool) {
    let wide: Result<AlignedGrid<i32>, AlignedGrid<S>> = S::try_into_grid_i32(grid);
    match wide {
        Ok(_) => (true, false),
        Err(grid) => {
            let narrow: Result<AlignedGrid<i16>, AlignedGrid<S>> = S::try_into_grid_i16(grid);
            (false, narrow.is_ok())
        }
    }
}

fn width_of_new<S: Sample>(alloc: Global) -> Result<(bool, bool), OutOfMemory> {
    Ok(widths(AlignedGrid::<S>::new(alloc, 1, 1)?))
}

#[test]
fn samples_of_both_widths(rt: HostRuntime) {
    let alloc = rt.alloc();
    compare(&rt, samples::<i32>(), (-2, 21, 1, -2));
    compare(&rt, samples::<i16>(), (-2, 21, 1, -2));
    let wide = width_of_new::<i32>(alloc).ok();
    let narrow = width_of_new::<i16>(alloc).ok();
    compare(&rt, wide, Some((true, false)));
    compare(&rt, narrow, Some((false, true)));
}

#[test]
fn predictors(rt: HostRuntime) {
    for number in 0..14 {
        let predictor: Result<Predictor, BitstreamError> = Predictor::try_from(number);
        compare(&rt, predictor.ok().map(number_of), Some(number));
    }
    compare(&rt, Predictor::try_from(14).ok().map(number_of), None);
}

#[test]
fn weights_of_headers(rt: HostRuntime) {
    let usual = [16, 10, 7, 7, 7, 0, 0, 13, 12, 12, 12];
    let read = WpHeader::parse(&mut Bitstream::new(&[0x01])).ok();
    compare(&rt, read.map(weights), Some((true, usual)));
    let listed = [31, 1, 2, 3, 4, 5, 6, 15, 7, 8, 9];
    let bytes = [0x7E, 0x10, 0x83, 0x14, 0xF3, 0x87, 0x09];
    let read = WpHeader::parse(&mut Bitstream::new(&bytes)).ok();
    compare(&rt, read.map(weights), Some((false, listed)));
}

#[test]
fn parts(rt: HostRuntime) {
    compare(&rt, number(Part::Lf(4).into()), (1, 4));
    compare(&rt, number(Part::Pass(2, 4).into()), (2, 4));
}
