//! The state between two samples of a channel.

ghost use Rattle.std.specs.Prelude.{◌≡◌, ◌+◌, ◌*◌, ◌<◌, ◌≤◌, ◌^◌, ℕ, ℤ, List, [], ◌∷◌, ◌++◌, false, None, IfOk, IfErr, OnErr, if◌then◌else◌, vec_len};
ghost use Rattle.std.specs.Option.{option_copied, ForSome};
ghost use Rattle.jxlm_bits.specs.ErrorKind.{NoMemory, kind_of};
ghost use Rattle.jxlm_weighted.specs.Correcting.{HasRows};
ghost use Rattle.jxlm_weighted.specs.SelfCorrecting.{IsHeader};

use jxlm_base::grid::{OutOfMemory, Region};
use jxlm_bits::error::Result;
use jxlm_weighted::around::Around;
use jxlm_weighted::self_correcting::{Corrector, PredictionResult};
use jxlm_weighted::weights::WpHeader;
use std::alloc::Global;
use std::marker::PhantomData;
use std::mem;

/// What the prediction of a channel's samples remembers of those before: the last two rows, and where there are
/// weights, the errors of the weighted (self-correcting) predictor in them.
#[derive(Drop)]
pub struct PredictorState<S> {
    alloc: Global,
    pub(crate) width: u32,
    // For channels up to this width there is memory.
    pub(crate) room: u32,
    pub(crate) x: u32,
    pub(crate) y: u32,
    pub(crate) w: i32,
    pub(crate) n: i32,
    pub(crate) nw: i32,
    pub(crate) gradient: i32,
    pub(crate) previous: Vec<i32>,
    pub(crate) current: Vec<i32>,
    // The nearest last.
    pub(crate) earlier: Vec<Region>,
    // In use in this channel.
    pub(crate) corrector: Option<Corrector>,
    // Kept for a later channel.
    pub(crate) resting: Option<Corrector>,
    marker: PhantomData<S>,
    ghost within_room: { width ≤ room },
    ghost narrow: { room ≤ 2 ^ 30 },
    ghost previous_len: { room ≤ vec_len previous },
    ghost current_len: { room ≤ vec_len current },
    ghost corrector_rows: { HasRows corrector room },
    ghost resting_rows: { HasRows resting room },
}

impl<S> PredictorState<S> {
    ghost use Rattle.jxlm_predictor.specs.Inner.StateSteps.{DiffersInWeights, IsNext, KeepsSetting, RollsIn};
    ghost use Rattle.jxlm_predictor.specs.Standing.{Setting, StandsAt, Stands, HasEarlier, IsInner, HasSameRoom, setting, room_of, earlier_room_of, earlier_count, used_weights, weights_of};
    ghost use Rattle.jxlm_weighted.specs.Neighbours.{neighbours, north_east, north_east_east, north_north, west_west};
    ghost use Rattle.jxlm_weighted.specs.Around.{neighbours_of};
    ghost use Rattle.jxlm_weighted.specs.Correcting.{IsMade};

    /// A state that is at no cell, with no room, no weights and no earlier channel: it is to be reset before its
    /// first use.
    pub fn new(alloc: Global) -> PredictorState<S>
        ensures room { room_of result ≡ 0 }
        ensures none { earlier_count result ≡ 0 }
        ensures weights { weights_of result ≡ None }
    {
        PredictorState {
            alloc,
            width: 0,
            room: 0,
            x: 0,
            y: 0,
            w: 0,
            n: 0,
            nw: 0,
            gradient: 0,
            previous: Vec::new(alloc),
            current: Vec::new(alloc),
            earlier: Vec::new(alloc),
            corrector: None,
            resting: None,
            marker: PhantomData,
        }
    }

    /// Puts the state at the first cell of a channel of this width, from 1 to 2^30.
    ///
    /// `earlier` are the regions of the earlier channels of equal size, the nearest first. The weighted predictor and
    /// property 15 need weights: those of a header that was read, or the default ones. All memory for the channel is
    /// allocated here.
    ///
    /// # Errors
    ///
    /// `Buffer` if it is out of memory, and no other; the state is then as before.
    pub fn reset(
        &mut self,
        width: u32,
        earlier: &[Region],
        wp_header: Option<&WpHeader>,
    ) -> Result<()>
        requires some { 0 < width }
        requires narrow { width ≤ 2 ^ 30 }
        requires weights { ForSome (option_copied wp_header) IsHeader }
        ensures ok { IfOk result (λ _. StandsAt self.new (setting width (option_copied wp_header.entry) earlier.now)
            []) }
        ensures err { OnErr result (self.new ≡ self.old) }
        ensures memory { IfErr result (λ e. kind_of e ≡ NoMemory) }
    {
        *self = PredictorState::standing(self.alloc, width, earlier, wp_header)?;
        Ok(())
    }

    fn standing(
        alloc: Global,
        width: u32,
        earlier: &[Region],
        wp_header: Option<&WpHeader>,
    ) -> std::result::Result<PredictorState<S>, OutOfMemory>
        requires some { 0 < width }
        requires narrow { width ≤ 2 ^ 30 }
        requires weights { ForSome (option_copied wp_header) IsHeader }
        ensures { IfOk result (λ s. StandsAt s (setting width (option_copied wp_header.entry) earlier.now) []) }
    {
        let mut state = PredictorState::roomy(alloc, width, 0, wp_header)?;
        state.earlier = Vec::from_slice(alloc, earlier)?;
        state.earlier.reverse();
        state.begin(width);
        Ok(state)
    }

    /// A state that is at no channel yet, with memory for each channel up to the width `widest`, at most 2^30, with
    /// up to `earlier` earlier ones, and with these weights: `restart`, `restart_alike` and `add_earlier` then
    /// allocate nothing.
    ///
    /// The weights are those of a header that was read, or the default ones.
    ///
    /// # Errors
    ///
    /// `Buffer` if it is out of memory, and no other.
    pub fn with_room(
        alloc: Global,
        widest: u32,
        earlier: usize,
        wp_header: Option<&WpHeader>,
    ) -> Result<PredictorState<S>>
        requires narrow { widest ≤ 2 ^ 30 }
        requires weights { ForSome (option_copied wp_header) IsHeader }
        ensures room { IfOk result (λ s. room_of s ≡ widest) }
        ensures earlier_room { IfOk result (λ s. earlier_room_of s ≡ earlier) }
        ensures weights { IfOk result (λ s. weights_of s ≡ option_copied wp_header.entry) }
        ensures err { IfErr result (λ e. kind_of e ≡ NoMemory) }
    {
        let state = PredictorState::roomy(alloc, widest, earlier, wp_header)?;
        Ok(state)
    }

    fn roomy(
        alloc: Global,
        widest: u32,
        earlier: usize,
        wp_header: Option<&WpHeader>,
    ) -> std::result::Result<PredictorState<S>, OutOfMemory>
        requires narrow { widest ≤ 2 ^ 30 }
        requires weights { ForSome (option_copied wp_header) IsHeader }
        ensures room { IfOk result (λ s. room_of s ≡ widest) }
        ensures earlier_room { IfOk result (λ s. earlier_room_of s ≡ earlier) }
        ensures weights { IfOk result (λ s. weights_of s ≡ option_copied wp_header.entry) }
        ensures used { IfOk result (λ s. used_weights s ≡ option_copied wp_header.entry) }
    {
        let corrector = match wp_header {
            Some(weights) => Some(Corrector::with_room(alloc, *weights, widest)?),
            None => None,
        };
        Ok(PredictorState {
            alloc,
            width: 0,
            room: widest,
            x: 0,
            y: 0,
            w: 0,
            n: 0,
            nw: 0,
            gradient: 0,
            previous: vec![in alloc; 0i32; widest as usize]?,
            current: vec![in alloc; 0i32; widest as usize]?,
            earlier: Vec::with_capacity(alloc, earlier)?,
            corrector,
            resting: None,
            marker: PhantomData,
        })
    }

    /// Puts the state at the first cell of a channel of this width, from 1 to that for which there is room, with the
    /// weights as they are and no earlier channel.
    pub fn restart(&mut self, width: u32)
        requires some { 0 < width }
        requires roomy { width ≤ room_of self.old }
        ensures stands { StandsAt self.new (setting width (weights_of self.old) []) [] }
        ensures none { earlier_count self.new ≡ 0 }
        ensures room { HasSameRoom self.old self.new }
    {
        self.restart_by(width, true);
    }

    /// The same, and the weights, if there are any, are used in this channel only where `weighted`: without them a
    /// sample costs less. They are kept for the channels after it.
    pub fn restart_by(&mut self, width: u32, weighted: bool)
        requires some { 0 < width }
        requires roomy { width ≤ room_of self.old }
        ensures stands { StandsAt self.new (setting width (if weighted then weights_of self.old else None) []) [] }
        ensures none { earlier_count self.new ≡ 0 }
        ensures room { HasSameRoom self.old self.new }
    {
        self.earlier.clear();
        if weighted {
            self.use_weights();
        } else {
            self.rest_weights();
        }
        self.begin(width);
    }

    // The weights are in use.
    fn use_weights(&mut self)
        ensures used { used_weights self.new ≡ weights_of self.old }
        ensures rest { DiffersInWeights self.old self.new }
    {
        if self.corrector.is_none() {
            self.corrector = self.resting.take();
        }
    }

    // No weights are in use.
    fn rest_weights(&mut self)
        ensures used { used_weights self.new ≡ None }
        ensures rest { DiffersInWeights self.old self.new }
    {
        if self.corrector.is_some() {
            self.resting = self.corrector.take();
        }
    }

    /// Puts the state at the first cell of another channel of the same width, with weights and earlier channels as
    /// they are.
    pub fn restart_alike(&mut self)
        requires stands { Stands self.old }
        ensures stands { (s : Setting) (samples : List ℤ) → StandsAt self.old s samples → StandsAt self.new s [] }
        ensures same { earlier_count self.new ≡ earlier_count self.old }
        ensures room { HasSameRoom self.old self.new }
    {
        self.begin(self.width);
    }

    // At the first cell of a channel of this width; the earlier channels stay.
    fn begin(&mut self, width: u32)
        requires some { 0 < width }
        requires roomy { width ≤ room_of self.old }
        ensures stands { (earlier : List Region) → HasEarlier self.old earlier → StandsAt self.new
            (setting width (used_weights self.old) earlier) [] }
        ensures same { earlier_count self.new ≡ earlier_count self.old }
        ensures room { HasSameRoom self.old self.new }
    {
        self.width = width;
        self.x = 0;
        self.y = 0;
        self.w = 0;
        self.n = 0;
        self.nw = 0;
        self.gradient = 0;
        Corrector::restart_where_kept(&mut self.corrector, width);
    }

    /// One earlier channel more, nearer than those before: the region of one that is as large as the channel.
    ///
    /// There is room for it.
    pub fn add_earlier(&mut self, region: Region)
        requires { earlier_count self.old < earlier_room_of self.old }
        ensures stands { (s : Setting) (samples : List ℤ) → StandsAt self.old s samples → StandsAt self.new
            (setting s.width s.weights (region ∷ s.earlier)) samples }
        ensures more { earlier_count self.new ≡ earlier_count self.old + 1 }
        ensures room { HasSameRoom self.old self.new }
    {
        self.earlier.push_reserved(region);
    }

    /// The state, in whose place one is left that is at no cell.
    #[inline(always)]
    pub fn take(&mut self) -> PredictorState<S>
        ensures { result ≡ self.old }
    {
        let alloc = self.alloc;
        mem::replace(self, PredictorState::new(alloc))
    }

    /// Whether weights are used in this channel.
    #[inline(always)]
    pub fn is_weighted(&self) -> bool
        ensures { result ≡ false → used_weights self.now ≡ None }
    {
        self.corrector.is_some()
    }

    fn north_east<const EDGE: bool>(&self) -> i32
        requires in_row { self.now.x < self.now.width }
        requires inner { EDGE ≡ false → IsInner self.now }
        ensures { (s : Setting) (samples : List ℤ) → StandsAt self.now s samples → result ≡ north_east samples s.width
            self.now.x self.now.y }
    {
        if EDGE && (self.y == 0 || self.x + 1 >= self.width) {
            self.n
        } else {
            self.previous[self.x as usize + 1]
        }
    }

    fn north_east_east<const EDGE: bool>(&self) -> i32
        requires in_row { self.now.x < self.now.width }
        requires inner { EDGE ≡ false → IsInner self.now }
        ensures { (s : Setting) (samples : List ℤ) → StandsAt self.now s samples → result
            ≡ north_east_east samples s.width self.now.x self.now.y }
    {
        if EDGE && (self.y == 0 || self.x + 2 >= self.width) {
            self.north_east::<EDGE>()
        } else {
            self.previous[self.x as usize + 2]
        }
    }

    fn north_north<const EDGE: bool>(&self) -> i32
        requires in_row { self.now.x < self.now.width }
        requires inner { EDGE ≡ false → IsInner self.now }
        ensures { (s : Setting) (samples : List ℤ) → StandsAt self.now s samples → result
            ≡ north_north samples s.width self.now.x self.now.y }
    {
        if EDGE && self.y < 2 {
            self.n
        } else {
            self.current[self.x as usize]
        }
    }

    fn west_west<const EDGE: bool>(&self) -> i32
        requires in_row { self.now.x < self.now.width }
        requires inner { EDGE ≡ false → IsInner self.now }
        ensures { (s : Setting) (samples : List ℤ) → StandsAt self.now s samples → result ≡ west_west samples s.width
            self.now.x self.now.y }
    {
        if EDGE && self.x < 2 {
            self.w
        } else {
            self.current[self.x as usize - 2]
        }
    }

    /// The neighbours of the cell.
    pub(crate) fn around<const EDGE: bool>(&self) -> Around
        requires in_row { self.now.x < self.now.width }
        requires inner { EDGE ≡ false → IsInner self.now }
        ensures { (s : Setting) (samples : List ℤ) → StandsAt self.now s samples → neighbours_of result
            ≡ neighbours samples s.width }
    {
        Around {
            w: self.w,
            n: self.n,
            nw: self.nw,
            ne: self.north_east::<EDGE>(),
            nee: self.north_east_east::<EDGE>(),
            nn: self.north_north::<EDGE>(),
            ww: self.west_west::<EDGE>(),
        }
    }

    /// What the weighted predictor makes of the cell with these neighbours, where there are weights.
    #[inline(always)]
    pub(crate) fn correction<const EDGE: bool>(&self, around: &Around) -> Option<PredictionResult>
        requires stands { Stands self.now }
        requires inner { EDGE ≡ false → IsInner self.now }
        ensures { (s : Setting) (samples : List ℤ) → StandsAt self.now s samples → neighbours_of around.now
            ≡ neighbours samples s.width → IsMade result s.weights s.width samples }
    {
        match &self.corrector {
            Some(corrector) => {
                Some(corrector.predict::<EDGE>(self.x as usize, self.y as usize, around))
            }
            None => None,
        }
    }

    /// The same; without `WEIGHTED` there are none.
    #[inline(always)]
    pub(crate) fn correction_by<const EDGE: bool, const WEIGHTED: bool>(
        &self,
        around: &Around,
    ) -> Option<PredictionResult>
        requires stands { Stands self.now }
        requires inner { EDGE ≡ false → IsInner self.now }
        requires without { WEIGHTED ≡ false → used_weights self.now ≡ None }
        ensures { (s : Setting) (samples : List ℤ) → StandsAt self.now s samples → neighbours_of around.now
            ≡ neighbours samples s.width → IsMade result s.weights s.width samples }
    {
        if WEIGHTED {
            self.correction::<EDGE>(around)
        } else {
            None
        }
    }

    /// Goes on to the cell after `sample`; `correction` is what `correction` gave for the cell. Without `EDGE` the cell is
    /// two or more columns and rows away from every edge but the last row.
    #[inline(always)]
    pub(crate) fn advance<const EDGE: bool>(
        &mut self,
        sample: i32,
        correction: Option<PredictionResult>,
    )
        requires stands { Stands self.old }
        requires inner { EDGE ≡ false → IsInner self.old }
        requires few_rows { self.old.y < 2 ^ 30 }
        ensures stands { (s : Setting) (samples : List ℤ) → StandsAt self.old s samples → IsMade correction s.weights
            s.width samples → StandsAt self.new s (samples ++ sample ∷ []) }
        ensures room { HasSameRoom self.old self.new }
    {
        let column = self.x as usize;
        Corrector::record_where_made::<EDGE>(&mut self.corrector, column, correction, sample);
        self.roll_by::<EDGE>(sample);
    }

    #[inline(always)]
    fn roll_by<const EDGE: bool>(&mut self, sample: i32)
        requires in_row { self.old.x < self.old.width }
        requires few_rows { self.old.y < 2 ^ 30 }
        requires inner { EDGE ≡ false → IsInner self.old }
        ensures rolls { (samples : List ℤ) → RollsIn self.old samples → RollsIn self.new (samples ++ sample ∷ []) }
        ensures kept { KeepsSetting self.old self.new }
        ensures place { IsNext self.old self.new }
    {
        if EDGE {
            self.roll(sample);
        } else {
            self.roll_within(sample);
        }
    }

    // In a cell that is neither in the first row nor the last of its row.
    #[inline(always)]
    fn roll_within(&mut self, sample: i32)
        requires below { 0 < self.old.y }
        requires in_row { self.old.x + 1 < self.old.width }
        ensures rolls { (samples : List ℤ) → RollsIn self.old samples → RollsIn self.new (samples ++ sample ∷ []) }
        ensures kept { KeepsSetting self.old self.new }
        ensures place { IsNext self.old self.new }
    {
        let x = self.x;
        let above = self.n;
        self.gradient = self.w.wrapping_sub(self.nw).wrapping_add(above);
        self.current[x as usize] = sample;
        self.x = x + 1;
        self.w = sample;
        self.nw = above;
        self.n = self.previous[x as usize + 1];
    }

    #[inline(always)]
    fn roll(&mut self, sample: i32)
        requires in_row { self.old.x < self.old.width }
        requires few_rows { self.old.y < 2 ^ 30 }
        ensures rolls { (samples : List ℤ) → RollsIn self.old samples → RollsIn self.new (samples ++ sample ∷ []) }
        ensures kept { KeepsSetting self.old self.new }
        ensures place { IsNext self.old self.new }
    {
        let gradient = self.w.wrapping_sub(self.nw).wrapping_add(self.n);
        self.current[self.x as usize] = sample;
        self.x += 1;
        if self.x < self.width {
            self.gradient = gradient;
            self.w = sample;
            if self.y == 0 {
                self.nw = sample;
                self.n = sample;
            } else {
                self.nw = self.n;
                self.n = self.previous[self.x as usize];
            }
        } else {
            self.y += 1;
            self.x = 0;
            self.gradient = 0;
            mem::swap(&mut self.previous, &mut self.current);
            let above = self.previous[0];
            self.w = above;
            self.n = above;
            self.nw = above;
        }
    }
}
