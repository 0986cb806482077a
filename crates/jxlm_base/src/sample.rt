//! The two types of a sample.
ghost use Rattle.std.specs.Prelude.{◌≡◌, ◌↔◌, ◌⊎◌, ◌+◌, ◌≤◌, ℤ, pos, IsOk, ◌+ℤ◌, ◌*ℤ◌, FitsSigned, refl, length, map, IfOk, IfErr, MatchResult};
ghost use Rattle.std.specs.Int.{Width, w16, w32, int_wrap};
ghost use Rattle.jxlm_lanes.specs.Colour.{FinishesRows};
ghost use Rattle.jxlm_base.specs.Grid.{meanings};
ghost use Rattle.jxlm_bits.specs.Numbers.{unpack, clamped_gradient};
ghost use Rattle.jxlm_base.specs.SqueezedGrids.{AreGridSamples, squeezed_rows, squeezed_columns};
ghost use Rattle.jxlm_base.specs.Subgrid.{whole, KeepsOutside, numbers_in};
ghost use Rattle.jxlm_base.specs.Inner.SampleLaws.{fits_wider, int_wrap-narrow, int_wrap_again};

use crate::grid::{AlignedGrid, OutOfMemory};
use crate::squeeze;
use crate::subgrid::MutableSubgrid;
use jxlm_kernels::colour::{finish_narrow_rows, finish_rows};
use std::alloc::Global;

/// What a sample's type computes. Contracts see a sample as the whole number that it stands for.
pub trait Sealed: Copy + Default {
    // the number that a sample stands for, the sample of a number, and the type's width
    ghost to_int: { Self → ℤ };

    ghost from_int: { ℤ → Self };

    ghost width: { Width };

    /// The signed number of a token, reduced to the type's width (ISO/IEC 18181-1, Modular: signed numbers): 2k
    /// stands for k, and 2k + 1 for -k - 1.
    fn unpack_signed_u32(value: u32) -> Self
        ensures { result ≡ Self.from_int (int_wrap Self.width (unpack value)) };

    /// The sum, reduced to the type's width.
    fn add(self, rhs: Self) -> Self
        ensures { result ≡ Self.from_int (int_wrap Self.width (Self.to_int self +ℤ Self.to_int rhs)) };

    /// The product with `mul`, and `add` more, reduced to the type's width.
    fn wrapping_muladd_i32(self, mul: i32, add: i32) -> Self
        ensures { result ≡ Self.from_int (int_wrap Self.width (Self.to_int self *ℤ mul +ℤ add)) };

    /// `n + w - nw`, clamped between the minimum and the maximum of `n` and `w` (ISO/IEC 18181-1, Modular:
    /// predictors).
    fn grad_clamped(n: Self, w: Self, nw: Self) -> Self
        ensures { result ≡ Self.from_int (clamped_gradient (Self.to_int n) (Self.to_int w) (Self.to_int nw)) };

    /// The grid itself, `Ok` where its samples are `i32`.
    fn try_into_grid_i32(grid: AlignedGrid<Self>) -> Result<AlignedGrid<i32>, AlignedGrid<Self>>
        ensures same { MatchResult result (λ g. g ≡ meanings Self.to_int grid) (λ g. g ≡ grid) }
        ensures kind { IsOk result ↔ (Self.width ≡ w32) };

    /// The grid itself, `Ok` where its samples are `i16`.
    fn try_into_grid_i16(grid: AlignedGrid<Self>) -> Result<AlignedGrid<i16>, AlignedGrid<Self>>
        ensures same { MatchResult result (λ g. g ≡ meanings Self.to_int grid) (λ g. g ≡ grid) }
        ensures kind { IsOk result ↔ (Self.width ≡ w16) };

    /// Undoes one of the seven kinds of colour on three rows of one length, cell by cell, in the order of the rows
    /// (ISO/IEC 18181-1, Modular: reversible colour transforms).
    ///
    /// `ty` is at most 6.
    fn rct_rows(ty: u32, a: &mut [Self], b: &mut [Self], c: &mut [Self])
        requires kind { ty ≤ 6 }
        requires second { length b.old ≡ length a.old }
        requires third { length c.old ≡ length a.old }
        ensures { FinishesRows Self.width ty (map Self.to_int a.old) (map Self.to_int b.old) (map Self.to_int c.old)
            (map Self.to_int a.new) (map Self.to_int b.new) (map Self.to_int c.new) };

    /// Undoes a horizontal squeeze in place (ISO/IEC 18181-1, Modular: squeeze): each row of the rectangle is
    /// averages and then residuals, and afterwards the row that becomes them when it is squeezed. Nothing outside
    /// changes.
    ///
    /// Memory is asked for once, for some rows; a rectangle without cells takes none. `OutOfMemory` if it is not given:
    /// then no cell has changed.
    fn squeeze_rows(
        alloc: Global,
        subgrid: &mut MutableSubgrid<'_, Self>,
    ) -> Result<(), OutOfMemory>
        ensures kept { KeepsOutside subgrid.old subgrid.new }
        ensures undone { IfOk result (λ _. squeezed_rows Self.width (numbers_in Self.to_int subgrid.new)
            ≡ numbers_in Self.to_int subgrid.old) }
        ensures samples { IfOk result (λ _. AreGridSamples Self.width (numbers_in Self.to_int subgrid.new)) }
        ensures unchanged { IfErr result (λ _. whole subgrid.new ≡ whole subgrid.old) }
        ensures no_cells { (subgrid.old.width ≡ 0) ⊎ (subgrid.old.height ≡ 0) → IsOk result };

    /// Undoes a vertical squeeze in place: each column of the rectangle is averages and then, below them, residuals,
    /// and afterwards the column that becomes them when it is squeezed. Nothing outside changes.
    ///
    /// Memory is asked for once, for some columns; a rectangle without cells takes none. `OutOfMemory` if it is not
    /// given: then no cell has changed.
    fn squeeze_columns(
        alloc: Global,
        subgrid: &mut MutableSubgrid<'_, Self>,
    ) -> Result<(), OutOfMemory>
        ensures kept { KeepsOutside subgrid.old subgrid.new }
        ensures undone { IfOk result (λ _. squeezed_columns Self.width (numbers_in Self.to_int subgrid.new)
            ≡ numbers_in Self.to_int subgrid.old) }
        ensures samples { IfOk result (λ _. AreGridSamples Self.width (numbers_in Self.to_int subgrid.new)) }
        ensures unchanged { IfErr result (λ _. whole subgrid.new ≡ whole subgrid.old) }
        ensures no_cells { (subgrid.old.width ≡ 0) ⊎ (subgrid.old.height ≡ 0) → IsOk result };

    /// As `squeeze_rows`, with `scratch`, which has room for a row. If it has room for 32 rows twice, with a cell more
    /// each, as many are undone at a time.
    fn squeeze_rows_in(subgrid: &mut MutableSubgrid<'_, Self>, scratch: &mut [Self])
        requires room { subgrid.old.width ≤ length scratch.old }
        ensures len { length scratch.new ≡ length scratch.old }
        ensures kept { KeepsOutside subgrid.old subgrid.new }
        ensures undone { squeezed_rows Self.width (numbers_in Self.to_int subgrid.new)
            ≡ numbers_in Self.to_int subgrid.old }
        ensures samples { AreGridSamples Self.width (numbers_in Self.to_int subgrid.new) };

    /// As `squeeze_columns`, with `scratch`, which has room for a column and a cell more. The more columns it has
    /// room for, up to 256, the more are undone at a time.
    fn squeeze_columns_in(subgrid: &mut MutableSubgrid<'_, Self>, scratch: &mut [Self])
        requires room { subgrid.old.height + 1 ≤ length scratch.old }
        ensures len { length scratch.new ≡ length scratch.old }
        ensures kept { KeepsOutside subgrid.old subgrid.new }
        ensures undone { squeezed_columns Self.width (numbers_in Self.to_int subgrid.new)
            ≡ numbers_in Self.to_int subgrid.old }
        ensures samples { AreGridSamples Self.width (numbers_in Self.to_int subgrid.new) };

    ghost to_int_from_int: { (n : ℤ) → to_int (from_int n) ≡ n };

    ghost from_int_to_int: { (x : Self) → from_int (to_int x) ≡ x };

    ghost default_is_zero: { (x : Self) → Self.is_default x → x ≡ from_int (pos 0) };

    ghost clone_is_same: { (x y : Self) → Self.is_clone x y → y ≡ x };

    ghost fits_i32: { (z : ℤ) → FitsSigned width z → FitsSigned w32 z };

    ghost wraps_after_i32: { (z : ℤ) → int_wrap width (int_wrap w32 z) ≡ int_wrap width z };
}

/// A sample of a Modular image: `i32` or `i16`.
pub trait Sample: Copy + Default + Sealed + 'static {
    /// The number, reduced to the type's width.
    fn from_i32(value: i32) -> Self
        ensures { result ≡ Self.from_int (int_wrap Self.width value) };

    /// The number, reduced to the type's width.
    fn from_u32(value: u32) -> Self
        ensures { result ≡ Self.from_int (int_wrap Self.width (pos value)) };

    /// The number itself.
    fn to_i64(self) -> i64
        ensures value { result ≡ Self.to_int self }
        ensures fits { FitsSigned Self.width (Self.to_int self) };

    /// The number itself.
    fn to_i32(self) -> i32
        ensures value { result ≡ Self.to_int self }
        ensures fits { FitsSigned Self.width (Self.to_int self) };
}

fn reduced_to_i16(value: i32) -> i16
    ensures { result ≡ int_wrap w16 value }
{
    (value.rem_euclid(65536) as u16).cast_signed()
}

impl Sealed for i32 {
    ghost to_int = { λ x. x };

    ghost from_int = { λ n. n };

    ghost width = { w32 };

    fn unpack_signed_u32(value: u32) -> i32 {
        let half = (value / 2) as i32;
        if value % 2 == 0 { half } else { -1 - half }
    }

    #[tactic(auto, using(std::proofs::lemmas::Int::wraps))]
    fn add(self, rhs: i32) -> i32 {
        self.wrapping_add(rhs)
    }

    fn wrapping_muladd_i32(self, mul: i32, add: i32) -> i32 {
        self.wrapping_mul(mul).wrapping_add(add)
    }

    fn grad_clamped(n: i32, w: i32, nw: i32) -> i32 {
        // the same number, by fewer steps that wait for the sample to the left
        let between = w.clamp(n.min(nw), n.max(nw));
        n.wrapping_add(w).wrapping_sub(between)
    }

    fn try_into_grid_i32(grid: AlignedGrid<i32>) -> Result<AlignedGrid<i32>, AlignedGrid<i32>>
        ensures { result ≡ Ok grid }
    {
        Ok(grid)
    }

    fn try_into_grid_i16(grid: AlignedGrid<i32>) -> Result<AlignedGrid<i16>, AlignedGrid<i32>>
        ensures { result ≡ Err grid }
    {
        Err(grid)
    }

    fn rct_rows(ty: u32, a: &mut [i32], b: &mut [i32], c: &mut [i32]) {
        finish_rows(ty, a, b, c);
    }

    fn squeeze_rows(
        alloc: Global,
        subgrid: &mut MutableSubgrid<'_, i32>,
    ) -> Result<(), OutOfMemory> {
        squeeze::rows(alloc, 0, subgrid)
    }

    fn squeeze_columns(
        alloc: Global,
        subgrid: &mut MutableSubgrid<'_, i32>,
    ) -> Result<(), OutOfMemory> {
        squeeze::columns(alloc, 0, subgrid)
    }

    fn squeeze_rows_in(subgrid: &mut MutableSubgrid<'_, i32>, scratch: &mut [i32]) {
        squeeze::undo_rows(subgrid, scratch);
    }

    fn squeeze_columns_in(subgrid: &mut MutableSubgrid<'_, i32>, scratch: &mut [i32]) {
        squeeze::undo_columns(subgrid, scratch);
    }

    ghost to_int_from_int = { λ n. refl };

    ghost from_int_to_int = { λ x. refl };

    ghost default_is_zero = { λ x h. h };

    ghost clone_is_same = { λ x y h. h };

    ghost fits_i32 = { λ z h. h };

    ghost wraps_after_i32 = { int_wrap_again };
}

impl Sealed for i16 {
    ghost to_int = { λ x. x };

    ghost from_int = { λ n. n };

    ghost width = { w16 };

    fn unpack_signed_u32(value: u32) -> i16 {
        reduced_to_i16(i32::unpack_signed_u32(value))
    }

    #[tactic(auto, using(std::proofs::lemmas::Int::wraps))]
    fn add(self, rhs: i16) -> i16 {
        self.wrapping_add(rhs)
    }

    fn wrapping_muladd_i32(self, mul: i32, add: i32) -> i16 {
        self.wrapping_mul(reduced_to_i16(mul))
            .wrapping_add(reduced_to_i16(add))
    }

    fn grad_clamped(n: i16, w: i16, nw: i16) -> i16 {
        let low = n.min(w);
        let high = n.max(w);
        if nw < low {
            high
        } else if high < nw {
            low
        } else {
            n.wrapping_sub(nw).wrapping_add(w)
        }
    }

    fn try_into_grid_i32(grid: AlignedGrid<i16>) -> Result<AlignedGrid<i32>, AlignedGrid<i16>>
        ensures { result ≡ Err grid }
    {
        Err(grid)
    }

    fn try_into_grid_i16(grid: AlignedGrid<i16>) -> Result<AlignedGrid<i16>, AlignedGrid<i16>>
        ensures { result ≡ Ok grid }
    {
        Ok(grid)
    }

    fn rct_rows(ty: u32, a: &mut [i16], b: &mut [i16], c: &mut [i16]) {
        finish_narrow_rows(ty, a, b, c);
    }

    fn squeeze_rows(
        alloc: Global,
        subgrid: &mut MutableSubgrid<'_, i16>,
    ) -> Result<(), OutOfMemory> {
        squeeze::rows(alloc, 0, subgrid)
    }

    fn squeeze_columns(
        alloc: Global,
        subgrid: &mut MutableSubgrid<'_, i16>,
    ) -> Result<(), OutOfMemory> {
        squeeze::columns(alloc, 0, subgrid)
    }

    fn squeeze_rows_in(subgrid: &mut MutableSubgrid<'_, i16>, scratch: &mut [i16]) {
        squeeze::undo_rows(subgrid, scratch);
    }

    fn squeeze_columns_in(subgrid: &mut MutableSubgrid<'_, i16>, scratch: &mut [i16]) {
        squeeze::undo_columns(subgrid, scratch);
    }

    ghost to_int_from_int = { λ n. refl };

    ghost from_int_to_int = { λ x. refl };

    ghost default_is_zero = { λ x h. h };

    ghost clone_is_same = { λ x y h. h };

    ghost fits_i32 = { fits_wider };

    ghost wraps_after_i32 = { int_wrap-narrow };
}

impl Sample for i32 {
    fn from_i32(value: i32) -> i32 {
        value
    }

    fn from_u32(value: u32) -> i32 {
        value.cast_signed()
    }

    fn to_i64(self) -> i64 {
        self.into()
    }

    fn to_i32(self) -> i32 {
        self
    }
}

impl Sample for i16 {
    fn from_i32(value: i32) -> i16 {
        reduced_to_i16(value)
    }

    fn from_u32(value: u32) -> i16 {
        reduced_to_i16(value.cast_signed())
    }

    fn to_i64(self) -> i64 {
        i64::from(self)
    }

    fn to_i32(self) -> i32 {
        i32::from(self)
    }
}
