//! The weighted (self-correcting) predictor: the errors that it remembers, and what it makes of a cell.

ghost use Rattle.jxlm_bits.specs.Numbers.{floor_log2};
ghost use Rattle.jxlm_weighted.specs.SelfCorrectingRanges.{AlwaysInRange};
ghost use Rattle.jxlm_weighted.specs.SelfCorrecting.{IsHeader, errors_above, errors_left, errors_near, errors_of, greatest, is_clamped, predicted, reciprocal, self_unclamped, shift_down, sub_predictions, weighted_average, weight_of, weighted_sum, weights};
ghost use Rattle.std.specs.Int.{int_shr};
ghost use Rattle.std.specs.Prelude.{◌≡◌, ◌+◌, ◌-◌, ◌*◌, ◌<◌, ◌≤◌, ◌^◌, ◌+ℤ◌, ◌-ℤ◌, ◌*ℤ◌, pos, ℕ, ℤ, List, [], ◌∷◌, ◌++◌, length, Option, Some, ◌/◌, ◌%◌, nat_lt, max, if◌then◌else◌, not, IfOk, false, vec_len, slice_index_or, sum, unsigned_abs};

use crate::around::Around;
use crate::reduced::reduced;
use crate::weights::WpHeader;
use jxlm_base::grid::OutOfMemory;
use std::alloc::Global;
use std::mem;

/// 2^24 divided by each number from 1 to 64, rounded down.
const RECIPROCALS: [u32; 65] = [
    0, 16777216, 8388608, 5592405, 4194304, 3355443, 2796202, 2396745, 2097152, 1864135, 1677721,
    1525201, 1398101, 1290555, 1198372, 1118481, 1048576, 986895, 932067, 883011, 838860, 798915,
    762600, 729444, 699050, 671088, 645277, 621378, 599186, 578524, 559240, 541200, 524288, 508400,
    493447, 479349, 466033, 453438, 441505, 430185, 419430, 409200, 399457, 390167, 381300, 372827,
    364722, 356962, 349525, 342392, 335544, 328965, 322638, 316551, 310689, 305040, 299593, 294337,
    289262, 284359, 279620, 275036, 270600, 266305, 262144,
];

/// A number for each of the four sub-predictions: their errors, the sums of these, or their weights.
#[derive(Clone, Copy)]
pub(crate) struct Counts {
    pub(crate) s0: u32,
    pub(crate) s1: u32,
    pub(crate) s2: u32,
    pub(crate) s3: u32,
}

/// The four sub-predictions, times 8.
#[derive(Clone, Copy)]
pub(crate) struct SubPredictions {
    pub(crate) s0: i64,
    pub(crate) s1: i64,
    pub(crate) s2: i64,
    pub(crate) s3: i64,
    ghost below0: { unsigned_abs s0 < 2 ^ 37 },
    ghost below1: { unsigned_abs s1 < 2 ^ 37 },
    ghost below2: { unsigned_abs s2 < 2 ^ 37 },
    ghost below3: { unsigned_abs s3 < 2 ^ 37 },
}

/// What is known of a cell after it.
#[derive(Clone, Copy)]
pub(crate) struct CellErrors {
    /// The prediction less the sample, both times 8.
    pub(crate) true_error: i32,
    /// How far each sub-prediction was from the sample.
    pub(crate) sub_errors: Counts,
}

const NO_COUNTS: Counts = Counts {
    s0: 0,
    s1: 0,
    s2: 0,
    s3: 0,
};

const NO_ERRORS: CellErrors = CellErrors {
    true_error: 0,
    sub_errors: NO_COUNTS,
};

/// The errors at the neighbours of a cell.
#[derive(Clone, Copy)]
pub(crate) struct ErrorsAround {
    /// The true error to the left.
    pub(crate) w: i32,
    /// The one above.
    pub(crate) n: i32,
    /// The one above left.
    pub(crate) nw: i32,
    /// The one above right.
    pub(crate) ne: i32,
    /// The sums of the errors of the sub-predictions.
    pub(crate) sums: Counts,
}

/// What the weighted predictor makes of a cell.
#[derive(Clone, Copy)]
pub struct PredictionResult {
    /// The prediction times 8.
    pub(crate) prediction: i64,
    /// The errors around.
    pub(crate) errors: ErrorsAround,
    /// The sub-predictions, times 8.
    pub(crate) subpred: SubPredictions,
    ghost bound: { unsigned_abs prediction < 2 ^ 41 },
}

/// The weights, and the errors of the last two rows.
#[derive(Drop)]
pub struct Corrector {
    pub(crate) header: WpHeader,
    pub(crate) width: u32,
    pub(crate) previous: Vec<CellErrors>,
    pub(crate) current: Vec<CellErrors>,
    ghost is_header: { IsHeader header },
    ghost previous_len: { width ≤ vec_len previous },
    ghost current_len: { width ≤ vec_len current },
}

/// The maximum k for which 2^k is at most `n`; 0 where `n` is 0.
fn floor_log2(n: u64) -> u32
    ensures value { result ≡ floor_log2 n }
    ensures narrow { n < 2 ^ 32 → result < 32 }
{
    63u32.saturating_sub((n | 1).leading_zeros())
}

/// 2^24 divided by `i`, rounded down.
fn reciprocal(i: usize) -> u32
    requires some { 1 ≤ i }
    requires listed { i ≤ 64 }
    ensures { result ≡ reciprocal i }
{
    RECIPROCALS[i]
}

/// How much a sub-prediction counts whose errors have this sum, where the header gives it `w`.
fn weight(w: u32, sum: u32) -> u32
    requires { w < 16 }
    ensures value { result ≡ weight_of w sum }
    ensures bound { result ≤ 4 + 15 * 2 ^ 24 }
{
    let shift = floor_log2((sum as u64 + 1) / 32);
    4 + ((w * reciprocal((sum >> shift) as usize + 1)) >> shift)
}

/// The sum of the errors of a sub-prediction at five neighbours, reduced to 32 bits. In the last column the error
/// above right is what those above and to the left give together.
fn error_sum(nw: u32, ww: u32, n: u32, w: u32, ne: u32, last: bool) -> u32
    ensures { result ≡ (nw + ww + n + w + (if last then n + w else ne)) % 2 ^ 32 }
{
    let north_east = if last { n as u64 + w as u64 } else { ne as u64 };
    let sum = nw as u64 + ww as u64 + n as u64 + w as u64 + north_east;
    (sum % 4294967296) as u32
}

/// The one that is further from 0; `a` where neither is. `far` and `other` are how far they are.
#[inline(always)]
fn further(a: i32, b: i32, far: u32, other: u32) -> i32
    requires far { far ≡ unsigned_abs a }
    requires other { other ≡ unsigned_abs b }
    ensures value { result ≡ if nat_lt (unsigned_abs a) (unsigned_abs b) then b else a }
    ensures far { unsigned_abs result ≡ max far other }
{
    if far < other { b } else { a }
}

/// How far a sub-prediction times 8 was from the sample.
fn sub_error(sub_prediction: i64, sample: i32) -> u32
    requires { unsigned_abs sub_prediction < 2 ^ 37 }
    ensures { result ≡ (unsigned_abs (sub_prediction -ℤ sample *ℤ pos 8) + 3) / 8 % 2 ^ 32 }
{
    let distance = (sub_prediction - sample as i64 * 8).unsigned_abs();
    ((distance + 3) / 8 % 4294967296) as u32
}

fn scaled(value: i64, factor: u32) -> i64
    requires small { unsigned_abs value < 2 ^ 37 }
    requires few { factor < 32 }
    ensures value { result ≡ value *ℤ pos factor }
    ensures bound { unsigned_abs result ≤ 31 * unsigned_abs value }
{
    value * factor as i64
}

/// The difference of two samples, times 8.
fn difference(a: i32, b: i32) -> i64
    ensures value { result ≡ a *ℤ pos 8 -ℤ b *ℤ pos 8 }
    ensures bound { unsigned_abs result ≤ 2 ^ 35 }
{
    a as i64 * 8 - b as i64 * 8
}

/// A sample times 8, less 1/32 of `steer`.
fn eased(sample: i32, steer: i64) -> i64
    requires { unsigned_abs steer ≤ 93 * 2 ^ 31 + 62 * 2 ^ 35 }
    ensures value { result ≡ sample *ℤ pos 8 -ℤ int_shr steer 5 }
    ensures bound { unsigned_abs result < 2 ^ 37 }
{
    sample as i64 * 8 - (steer >> 5)
}

/// A sample times 8, less 1/32 of `factor` times the sum of three true errors.
fn steered(sample: i32, a: i32, b: i32, c: i32, factor: u32) -> i64
    requires { factor < 32 }
    ensures value { result ≡ sample *ℤ pos 8 -ℤ int_shr ((a +ℤ b +ℤ c) *ℤ pos factor) 5 }
    ensures bound { unsigned_abs result < 2 ^ 37 }
{
    let errors = a as i64 + b as i64 + c as i64;
    eased(sample, scaled(errors, factor))
}

impl ErrorsAround {
    ghost use Rattle.jxlm_weighted.specs.Around.{neighbours_of};
    ghost use Rattle.jxlm_weighted.specs.Correcting.{near_of};
    ghost use Rattle.jxlm_weighted.specs.Inner.CorrectingSteps.{clamped_around};

    fn greatest(&self) -> i32
        ensures { result ≡ greatest (near_of self.now) }
    {
        let (w, n) = (self.w.unsigned_abs(), self.n.unsigned_abs());
        let (nw, ne) = (self.nw.unsigned_abs(), self.ne.unsigned_abs());
        let above = further(self.w, self.n, w, n);
        let left = further(above, self.nw, w.max(n), nw);
        further(left, self.ne, w.max(n).max(nw), ne)
    }

    fn is_clamped(&self) -> bool
        ensures { result ≡ is_clamped (near_of self.now) }
    {
        let two_signs = ((self.w < 0) != (self.n < 0)) | ((self.w < 0) != (self.nw < 0));
        two_signs | ((self.w == self.n) & (self.w == self.nw))
    }

    /// The prediction: clamped where the errors say so. The clamped one is computed in any case, so that no branch
    /// depends on the errors.
    #[inline(always)]
    fn settled(&self, around: &Around, unclamped: i64) -> i64
        requires { unsigned_abs unclamped < 2 ^ 40 }
        ensures value { result ≡
            if is_clamped (near_of self.now) then clamped_around (neighbours_of around.now) unclamped else unclamped }
        ensures bound { unsigned_abs result < 2 ^ 40 }
    {
        let clamped = around.clamped(unclamped);
        if self.is_clamped() {
            clamped
        } else {
            unclamped
        }
    }

    fn weighed(&self, header: &WpHeader) -> i64
        requires { IsHeader header.now }
        ensures value { result ≡ self.now.nw *ℤ pos header.now.wp_p3a +ℤ self.now.n *ℤ pos header.now.wp_p3b
            +ℤ self.now.ne *ℤ pos header.now.wp_p3c }
        ensures bound { unsigned_abs result ≤ 93 * 2 ^ 31 }
    {
        scaled(self.nw as i64, header.wp_p3a)
            + scaled(self.n as i64, header.wp_p3b)
            + scaled(self.ne as i64, header.wp_p3c)
    }
}

impl Counts {
    ghost use Rattle.jxlm_weighted.specs.Correcting.{counts_of};
    ghost use Rattle.jxlm_weighted.specs.Inner.CorrectingSteps.{sums_from};

    /// The sums of the errors: these are two columns to the left, and the others at the other neighbours.
    fn summed(&self, nw: &Counts, n: &Counts, w: &Counts, ne: &Counts, last: bool) -> Counts
        ensures { counts_of result ≡ sums_from (counts_of nw.now) (counts_of self.now) (counts_of n.now)
            (counts_of w.now) (counts_of ne.now) last }
    {
        Counts {
            s0: error_sum(nw.s0, self.s0, n.s0, w.s0, ne.s0, last),
            s1: error_sum(nw.s1, self.s1, n.s1, w.s1, ne.s1, last),
            s2: error_sum(nw.s2, self.s2, n.s2, w.s2, ne.s2, last),
            s3: error_sum(nw.s3, self.s3, n.s3, w.s3, ne.s3, last),
        }
    }

    fn total(&self) -> u32
        requires { sum (counts_of self.now) < 2 ^ 32 }
        ensures { result ≡ sum (counts_of self.now) }
    {
        self.s0 + self.s1 + self.s2 + self.s3
    }

    fn shifted(&self) -> Counts
        requires { sum (counts_of self.now) < 2 ^ 32 }
        ensures { counts_of result ≡ shift_down (counts_of self.now) }
    {
        let shift = floor_log2((self.total() / 16) as u64);
        Counts {
            s0: self.s0 >> shift,
            s1: self.s1 >> shift,
            s2: self.s2 >> shift,
            s3: self.s3 >> shift,
        }
    }

    /// The weights of the four sub-predictions, whose errors have these sums.
    fn weights(&self, header: &WpHeader) -> Counts
        requires { IsHeader header.now }
        ensures value { counts_of result ≡ weights header.now (counts_of self.now) }
        ensures least { 13 ≤ sum (counts_of result) }
        ensures greatest { sum (counts_of result) ≤ 31 }
    {
        let weights = Counts {
            s0: weight(header.wp_w0, self.s0),
            s1: weight(header.wp_w1, self.s1),
            s2: weight(header.wp_w2, self.s2),
            s3: weight(header.wp_w3, self.s3),
        };
        weights.shifted()
    }
}

impl SubPredictions {
    ghost use Rattle.jxlm_weighted.specs.Around.{neighbours_of};
    ghost use Rattle.jxlm_weighted.specs.Correcting.{counts_of, near_of, predicted_by};

    #[inline(always)]
    fn of_place(header: &WpHeader, around: &Around, errors: &ErrorsAround) -> SubPredictions
        requires { IsHeader header.now }
        ensures { predicted_by result ≡ sub_predictions header.now (neighbours_of around.now) (near_of errors.now) }
    {
        SubPredictions {
            s0: around.slope(),
            s1: steered(around.n, errors.w, errors.n, errors.ne, header.wp_p1),
            s2: steered(around.w, errors.w, errors.n, errors.nw, header.wp_p2),
            s3: SubPredictions::last(header, around, errors),
        }
    }

    fn last(header: &WpHeader, around: &Around, errors: &ErrorsAround) -> i64
        requires { IsHeader header.now }
        ensures value { result ≡
            slice_index_or (sub_predictions header.now (neighbours_of around.now) (near_of errors.now)) 3 (pos 0) }
        ensures bound { unsigned_abs result < 2 ^ 37 }
    {
        let down = scaled(difference(around.nn, around.n), header.wp_p3d);
        let right = scaled(difference(around.nw, around.w), header.wp_p3e);
        let steer = errors.weighed(header) + down + right;
        eased(around.n, steer)
    }

    fn sum(&self, weights: &Counts) -> i64
        requires least { 13 ≤ sum (counts_of weights.now) }
        requires greatest { sum (counts_of weights.now) ≤ 31 }
        ensures value { result ≡ weighted_sum (predicted_by self.now) (counts_of weights.now) }
        ensures bound { unsigned_abs result < 2 ^ 42 }
    {
        (weights.total() / 2 - 1) as i64
            + scaled(self.s0, weights.s0)
            + scaled(self.s1, weights.s1)
            + scaled(self.s2, weights.s2)
            + scaled(self.s3, weights.s3)
    }

    /// Their sum by these weights, divided by the sum of the weights.
    fn weighted(&self, weights: &Counts) -> i64
        requires least { 13 ≤ sum (counts_of weights.now) }
        requires greatest { sum (counts_of weights.now) ≤ 31 }
        ensures value { result ≡ weighted_average (predicted_by self.now) (counts_of weights.now) }
        ensures bound { unsigned_abs result < 2 ^ 40 }
    {
        let reciprocal = reciprocal(weights.total() as usize);
        (self.sum(weights) * reciprocal as i64) >> 24
    }
}

impl PredictionResult {
    ghost use Rattle.jxlm_weighted.specs.Around.{neighbours_of};
    ghost use Rattle.jxlm_weighted.specs.Correcting.{IsMade, cell_errors, near_of, predicted_by};
    ghost use Rattle.jxlm_weighted.specs.Inner.CorrectingSteps.{errors_from};
    ghost use Rattle.jxlm_weighted.specs.SelfCorrecting.{weighted_prediction, error_property};
    ghost use Rattle.jxlm_weighted.specs.declared.weights.WpHeader.{WpHeader};

    /// Property 15: the maximum error, or 0 where nothing was made.
    pub fn maximum_error(made: &Option<PredictionResult>) -> i32
        ensures { (weights : Option WpHeader) (width : ℕ) (samples : List ℤ) → IsMade made.now weights width samples
            → result ≡ error_property weights samples width }
    {
        match made {
            Some(made) => made.errors.greatest(),
            None => 0,
        }
    }

    /// The prediction times 8, or 0 where nothing was made.
    pub fn eightfold(made: &Option<PredictionResult>) -> i64
        ensures value { (weights : Option WpHeader) (width : ℕ) (samples : List ℤ) → IsMade made.now weights width
            samples → result ≡ weighted_prediction weights samples width }
        ensures bound { unsigned_abs result < 2 ^ 62 }
    {
        match made {
            Some(made) => made.prediction,
            None => 0,
        }
    }

    #[inline(always)]
    fn of_place(header: &WpHeader, around: &Around, errors: &ErrorsAround) -> PredictionResult
        requires { IsHeader header.now }
        ensures prediction { result.prediction ≡ predicted header.now (neighbours_of around.now) (near_of errors.now) }
        ensures errors { result.errors ≡ errors.now }
        ensures subpred { predicted_by result.subpred ≡
            sub_predictions header.now (neighbours_of around.now) (near_of errors.now) }
    {
        let subpred = SubPredictions::of_place(header, around, errors);
        let unclamped = subpred.weighted(&errors.sums.weights(header));
        PredictionResult {
            prediction: errors.settled(around, unclamped),
            errors: *errors,
            subpred,
        }
    }

    fn errors_after(&self, sample: i32) -> CellErrors
        ensures { cell_errors result ≡ errors_from self.now.prediction (predicted_by self.now.subpred) sample }
    {
        CellErrors {
            true_error: reduced(self.prediction - sample as i64 * 8),
            sub_errors: Counts {
                s0: sub_error(self.subpred.s0, sample),
                s1: sub_error(self.subpred.s1, sample),
                s2: sub_error(self.subpred.s2, sample),
                s3: sub_error(self.subpred.s3, sample),
            },
        }
    }
}

impl Corrector {
    ghost use Rattle.jxlm_weighted.specs.Around.{neighbours_of};
    ghost use Rattle.jxlm_weighted.specs.Correcting.{Corrects, CorrectsBy, HasRows, IsMade, IsMadeBy, cell_errors, header_of, counts_of, near_of, AtPlace, CorrectsAfter, HoldsColumn};
    ghost use Rattle.jxlm_weighted.specs.Inner.CorrectingSteps.{CorrectsNext, errors_above_left, errors_above_right};
    ghost use Rattle.jxlm_weighted.specs.declared.weights.WpHeader.{WpHeader};

    /// Rows for channels up to this width.
    pub fn with_room(alloc: Global, header: WpHeader, widest: u32) -> Result<Corrector, OutOfMemory>
        requires { IsHeader header }
        ensures header { IfOk result (λ c. c.header ≡ header) }
        ensures rows { IfOk result (λ c. HasRows (Some c) widest) }
    {
        Ok(Corrector {
            header,
            width: 0,
            previous: vec![in alloc; NO_ERRORS; widest as usize]?,
            current: vec![in alloc; NO_ERRORS; widest as usize]?,
        })
    }

    /// Begins at the first cell of a channel of this width, where there are weights.
    pub fn restart_where_kept(corrector: &mut Option<Corrector>, width: u32)
        requires { HasRows corrector.old width }
        ensures corrects { Corrects corrector.new (header_of corrector.old) width 0 0 [] }
        ensures header { header_of corrector.new ≡ header_of corrector.old }
        ensures rows { (room : ℕ) → HasRows corrector.old room → HasRows corrector.new room }
    {
        match corrector {
            Some(corrector) => corrector.width = width,
            None => (),
        }
    }

    /// What is made of the cell in column `x` of row `y`, with these neighbours. It is inlined, and what it made stays
    /// in registers.
    #[inline(always)]
    pub fn predict<const EDGE: bool>(&self, x: usize, y: usize, around: &Around) -> PredictionResult
        requires in_row { x < self.now.width }
        requires inner { EDGE ≡ false → (2 ≤ y) × (2 ≤ x) × (x + 2 < self.now.width) }
        ensures { AtPlace self.now x y (neighbours_of around.now) (IsMadeBy result) }
    {
        let errors = self.errors_around::<EDGE>(x, y);
        PredictionResult::of_place(&self.header, around, &errors)
    }

    /// The prediction in eighths before its clamp, at column `x` of row `y` with these neighbours.
    pub fn unclamped(&self, x: usize, y: usize, around: &Around) -> i64
        requires { x < self.now.width }
        ensures { AtPlace self.now x y (neighbours_of around.now) (λ h w s. result ≡ self_unclamped h s w) }
    {
        let errors = self.errors_around::<true>(x, y);
        let subpred = SubPredictions::of_place(&self.header, around, &errors);
        subpred.weighted(&errors.sums.weights(&self.header))
    }

    fn above<const EDGE: bool>(&self, x: usize, y: usize) -> CellErrors
        requires in_row { x < self.now.width }
        requires inner { EDGE ≡ false → 2 ≤ y }
        ensures { (header : WpHeader) (width place : ℕ) (samples : List ℤ) → CorrectsBy self.now header width place y
            samples → cell_errors result ≡ errors_above (errors_of header samples width (length samples)) width x y }
    {
        if EDGE && y == 0 {
            NO_ERRORS
        } else {
            self.previous[x]
        }
    }

    fn above_left<const EDGE: bool>(&self, x: usize, y: usize) -> CellErrors
        requires in_row { x < self.now.width }
        requires inner { EDGE ≡ false → (2 ≤ y) × (2 ≤ x) × (x + 2 < self.now.width) }
        ensures { (header : WpHeader) (width place : ℕ) (samples : List ℤ) → CorrectsBy self.now header width place y
            samples → cell_errors result ≡ errors_above_left (errors_of header samples width (length samples)) width x
            y }
    {
        if EDGE && x == 0 {
            self.above::<EDGE>(x, y)
        } else {
            self.above::<EDGE>(x - 1, y)
        }
    }

    fn is_last<const EDGE: bool>(&self, x: usize) -> bool
        requires in_row { x < self.now.width }
        requires inner { EDGE ≡ false → x + 2 < self.now.width }
        ensures { result ≡ not (nat_lt (x + 1) self.now.width) }
    {
        EDGE && x + 1 >= self.width as usize
    }

    fn above_right<const EDGE: bool>(&self, x: usize, y: usize, last: bool) -> CellErrors
        requires in_row { x < self.now.width }
        requires inner { EDGE ≡ false → 2 ≤ y }
        requires last { last ≡ not (nat_lt (x + 1) self.now.width) }
        ensures { (header : WpHeader) (width place : ℕ) (samples : List ℤ) → CorrectsBy self.now header width place y
            samples → cell_errors result ≡ errors_above_right (errors_of header samples width (length samples)) width
            x y }
    {
        if last {
            self.above::<EDGE>(x, y)
        } else {
            self.above::<EDGE>(x + 1, y)
        }
    }

    fn left<const EDGE: bool>(&self, x: usize) -> CellErrors
        requires in_row { x < self.now.width }
        requires inner { EDGE ≡ false → 1 ≤ x }
        ensures { (header : WpHeader) (width y : ℕ) (samples : List ℤ) → CorrectsBy self.now header width x y samples →
            cell_errors result ≡ errors_left (errors_of header samples width (length samples)) width x y }
    {
        if EDGE && x == 0 {
            NO_ERRORS
        } else {
            self.current[x - 1]
        }
    }

    fn two_left<const EDGE: bool>(&self, x: usize) -> CellErrors
        requires in_row { x < self.now.width }
        requires inner { EDGE ≡ false → 2 ≤ x }
        ensures { (header : WpHeader) (width y : ℕ) (samples : List ℤ) → CorrectsBy self.now header width x y samples →
            cell_errors result ≡ errors_left (errors_of header samples width (length samples)) width (x - 1) y }
    {
        if EDGE && x == 0 {
            NO_ERRORS
        } else {
            self.left::<EDGE>(x - 1)
        }
    }

    fn errors_around<const EDGE: bool>(&self, x: usize, y: usize) -> ErrorsAround
        requires in_row { x < self.now.width }
        requires inner { EDGE ≡ false → (2 ≤ y) × (2 ≤ x) × (x + 2 < self.now.width) }
        ensures { (header : WpHeader) (width : ℕ) (samples : List ℤ) → CorrectsBy self.now header width x y samples →
            near_of result ≡ errors_near (errors_of header samples width (length samples)) width x y }
    {
        let n = self.above::<EDGE>(x, y);
        let nw = self.above_left::<EDGE>(x, y);
        let last = self.is_last::<EDGE>(x);
        let ne = self.above_right::<EDGE>(x, y, last);
        let w = self.left::<EDGE>(x);
        let ww = self.two_left::<EDGE>(x).sub_errors;
        ErrorsAround {
            w: w.true_error,
            n: n.true_error,
            nw: nw.true_error,
            ne: ne.true_error,
            sums: ww.summed(
                &nw.sub_errors,
                &n.sub_errors,
                &w.sub_errors,
                &ne.sub_errors,
                last,
            ),
        }
    }

    /// Goes on to the cell after the sample in column `x`, where there are weights and `made` was made. Without `EDGE`
    /// the column is not one of the last two.
    #[inline(always)]
    pub fn record_where_made<const EDGE: bool>(
        corrector: &mut Option<Corrector>,
        x: usize,
        made: Option<PredictionResult>,
        sample: i32,
    )
        requires in_row { HoldsColumn corrector.old x }
        requires inner { EDGE ≡ false → HoldsColumn corrector.old (x + 2) }
        ensures corrects { (weights : Option WpHeader) (width y : ℕ) (samples : List ℤ)
            → Corrects corrector.old weights width x y samples → length samples ≡ y * width + x
            → IsMade made weights width samples → CorrectsAfter corrector.new weights width x y
            (samples ++ sample ∷ []) }
        ensures header { header_of corrector.new ≡ header_of corrector.old }
        ensures rows { (room : ℕ) → HasRows corrector.old room → HasRows corrector.new room }
    {
        match corrector {
            Some(corrector) => match made {
                Some(made) => corrector.record::<EDGE>(x, &made, sample),
                None => (),
            },
            None => (),
        }
    }

    /// Goes on to the cell after the sample in column `x`, of which `made` was made.
    #[inline(always)]
    pub(crate) fn record<const EDGE: bool>(
        &mut self,
        x: usize,
        made: &PredictionResult,
        sample: i32,
    )
        requires in_row { x < self.old.width }
        requires inner { EDGE ≡ false → x + 2 < self.old.width }
        ensures next { (header : WpHeader) (width y : ℕ) (samples : List ℤ) → CorrectsBy self.old header width x y
            samples → length samples ≡ y * width + x → IsMadeBy made.now header width samples
            → CorrectsNext self.new header width x y (samples ++ sample ∷ []) }
        ensures header { self.new.header ≡ self.old.header }
        ensures rows { (room : ℕ) → HasRows (Some self.old) room → HasRows (Some self.new) room }
    {
        let last = self.is_last::<EDGE>(x);
        self.current[x] = made.errors_after(sample);
        if last {
            mem::swap(&mut self.previous, &mut self.current);
        }
    }
}

/// The numbers of the weighted predictor stay in their ranges, for all samples of 32 bits
/// and all weights of a header.
pub fn self_correcting_stays_in_range()
    ensures { AlwaysInRange }
{}
