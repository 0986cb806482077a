//! The colour of rows of samples, inverse-transformed for both types by one body.
ghost use Rattle.std.specs.Prelude.{◌≡◌, ℤ, FitsSigned, length, map};
ghost use Rattle.std.specs.Int.{Width, w16, w32};
ghost use Rattle.jxlm_lanes.specs.Colour.{triple, plus, minus, floor_half, finished_by, FinishesRows, from_luma as the_luma_undone, from_differences as the_differences_undone};
ghost use Rattle.jxlm_lanes.specs.FinishedCells.{FinishesCells};

use jxlm_lanes::colour_lanes;

/// Numbers of one width. What is computed is reduced to it.
pub trait Arithmetic: Copy {
    ghost to_int: { Self → ℤ };

    ghost width: { Width };

    /// The sum.
    fn sum(self, rhs: Self) -> Self
        ensures { Self.to_int result ≡ plus Self.width (Self.to_int self) (Self.to_int rhs) };

    /// The difference.
    fn difference(self, rhs: Self) -> Self
        ensures { Self.to_int result ≡ minus Self.width (Self.to_int self) (Self.to_int rhs) };

    /// Half of the number, rounded down.
    fn half(self) -> Self
        ensures { Self.to_int result ≡ floor_half (Self.to_int self) };

    /// The number itself, which is one of the width.
    fn known(self) -> Self
        ensures same { result ≡ self }
        ensures fits { FitsSigned Self.width (Self.to_int self) };
}

impl Arithmetic for i32 {
    ghost to_int = { λ x. x };

    ghost width = { w32 };

    #[tactic(auto, using(std::proofs::lemmas::Int::wraps))]
    fn sum(self, rhs: i32) -> i32 {
        self.wrapping_add(rhs)
    }

    #[tactic(auto, using(std::proofs::lemmas::Int::wraps))]
    fn difference(self, rhs: i32) -> i32 {
        self.wrapping_sub(rhs)
    }

    fn half(self) -> i32 {
        self >> 1
    }

    fn known(self) -> i32 {
        self
    }
}

impl Arithmetic for i16 {
    ghost to_int = { λ x. x };

    ghost width = { w16 };

    #[tactic(auto, using(std::proofs::lemmas::Int::wraps))]
    fn sum(self, rhs: i16) -> i16 {
        self.wrapping_add(rhs)
    }

    #[tactic(auto, using(std::proofs::lemmas::Int::wraps))]
    fn difference(self, rhs: i16) -> i16 {
        self.wrapping_sub(rhs)
    }

    fn half(self) -> i16 {
        self >> 1
    }

    fn known(self) -> i16 {
        self
    }
}

/// The finished samples of luma and two differences.
fn from_luma<S: Arithmetic>(a: S, b: S, c: S) -> (S, S, S)
    ensures { triple (S.to_int result.0) (S.to_int result.1) (S.to_int result.2) ≡ the_luma_undone S.width
        (triple (S.to_int a) (S.to_int b) (S.to_int c)) }
{
    let middle = a.difference(c.half());
    let e = c.sum(middle);
    let f = middle.difference(b.half());
    (f.sum(b), e, f)
}

/// The finished samples of a sample and what the others lost of it.
fn from_differences<S: Arithmetic>(ty: u32, a: S, b: S, c: S) -> (S, S, S)
    ensures { triple (S.to_int result.0) (S.to_int result.1) (S.to_int result.2) ≡ the_differences_undone S.width ty
        (triple (S.to_int a) (S.to_int b) (S.to_int c)) }
{
    let f = if ty % 2 == 1 { c.sum(a) } else { c };
    let e = match ty / 2 {
        1 => b.sum(a),
        2 => b.sum(a.sum(f).half()),
        _ => b,
    };
    (a, e, f)
}

/// The finished samples of three coded ones, in the order of those.
fn finished<S: Arithmetic>(ty: u32, a: S, b: S, c: S) -> (S, S, S)
    ensures { triple (S.to_int result.0) (S.to_int result.1) (S.to_int result.2) ≡ finished_by S.width ty
        (triple (S.to_int a) (S.to_int b) (S.to_int c)) }
{
    if ty == 6 {
        from_luma(a, b, c)
    } else {
        from_differences(ty, a, b, c)
    }
}

/// Finishes the cells from `from` on of three rows of one length, cell by cell.
#[inline(always)]
fn finish_from<S: Arithmetic>(from: usize, ty: u32, a: &mut [S], b: &mut [S], c: &mut [S])
    requires second { length b.old ≡ length a.old }
    requires third { length c.old ≡ length a.old }
    ensures { FinishesCells S.width ty from (length a.old) (map S.to_int a.old) (map S.to_int b.old)
        (map S.to_int c.old) (map S.to_int a.new) (map S.to_int b.new) (map S.to_int c.new) }
{
    for i in from..a.len() {
        let (d, e, f) = finished(ty, a[i].known(), b[i].known(), c[i].known());
        a[i] = d;
        b[i] = e;
        c[i] = f;
    }
}

/// Finishes three rows of one length, cell by cell.
pub fn finish_rows<S: Arithmetic>(ty: u32, a: &mut [S], b: &mut [S], c: &mut [S])
    requires second { length b.old ≡ length a.old }
    requires third { length c.old ≡ length a.old }
    ensures { FinishesRows S.width ty (map S.to_int a.old) (map S.to_int b.old) (map S.to_int c.old)
        (map S.to_int a.new) (map S.to_int b.new) (map S.to_int c.new) }
{
    finish_from(0, ty, a, b, c);
}

/// Finishes three rows of one length of samples of 16 bits, eight cells at a time and the rest cell by cell.
pub fn finish_narrow_rows(ty: u32, a: &mut [i16], b: &mut [i16], c: &mut [i16])
    requires second { length b.old ≡ length a.old }
    requires third { length c.old ≡ length a.old }
    ensures { FinishesRows w16 ty (map (λ x. x) a.old) (map (λ x. x) b.old) (map (λ x. x) c.old)
        (map (λ x. x) a.new) (map (λ x. x) b.new) (map (λ x. x) c.new) }
{
    let from = colour_lanes::finish_eights(ty, a, b, c);
    finish_from(from, ty, a, b, c);
}
