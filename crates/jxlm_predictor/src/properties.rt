//! The properties of a cell, which hold the state until the cell's sample is recorded.

ghost use Rattle.std.specs.Prelude.{◌≡◌, ◌+◌, ◌-◌, ◌<◌, ◌≤◌, ◌^◌, ℕ, ℤ, pos, List, [], ◌∷◌, ◌++◌, false, None, slice_index_or, map};
ghost use Rattle.std.specs.Int.{w32, int_wrap};
ghost use Rattle.jxlm_base.specs.Regions.{store_meanings};
ghost use Rattle.jxlm_weighted.specs.Around.{neighbours_of};
ghost use Rattle.jxlm_predictor.specs.EarlierRows.{HoldRows};
ghost use Rattle.jxlm_predictor.specs.Inner.OwnProperties.{own_list};
ghost use Rattle.jxlm_predictor.specs.Holding.{AreOwn, IsCurrent, surroundings, state_of, store_of};
ghost use Rattle.jxlm_predictor.specs.Properties.{place_property, earlier_property};
ghost use Rattle.jxlm_predictor.specs.Standing.{Setting, StandsAt, IsReady, IsInner, HasSameRoom, used_weights};

use crate::earlier::EarlierRow;
use crate::place::{AskedProperty, PlaceProperties};
use crate::state::PredictorState;
use jxlm_base::grid::AlignedGrid;
use jxlm_base::sample::{Sample, Sealed};
use jxlm_weighted::around::Around;
use jxlm_weighted::reduced::{read_as_signed, reduced_absolute};
use jxlm_weighted::self_correcting::PredictionResult;

/// The properties of the cell that a state is at (ISO/IEC 18181-1, Modular: properties).
#[derive(Drop)]
pub struct Properties<'p, S> {
    pub(crate) state: &'p mut PredictorState<S>,
    pub(crate) store: &'p [AlignedGrid<S>],
    pub(crate) rows: &'p [EarlierRow<'p, S>],
    pub(crate) around: Around,
    pub(crate) correction: Option<PredictionResult>,
}

/// The same properties, of which those of the cell itself are listed beforehand: a walk that asks for many of them finds
/// each by its number.
#[derive(Drop)]
pub struct ListedProperties<'l, 'p, S> {
    pub(crate) properties: &'l Properties<'p, S>,
    pub(crate) own: &'l [i32; 16],
}

impl<S> PredictorState<S> {
    /// One of properties 0 to 15, of which 0 and 1 are 0, at the cell with these neighbours; `error` is property 15.
    #[inline(always)]
    #[tactic(auto, using(std::proofs::lemmas::Int::wraps))]
    fn own_property(&self, property: usize, around: &Around, error: i32) -> i32
        requires { property < 16 }
        ensures { result ≡ int_wrap w32 (slice_index_or
            (own_list self.now.x self.now.y (neighbours_of around.now) self.now.gradient error) property (pos 0)) }
    {
        let Around { w, n, nw, .. } = *around;
        match property {
            2 => read_as_signed(self.y),
            3 => read_as_signed(self.x),
            4 => reduced_absolute(n),
            5 => reduced_absolute(w),
            6 => n,
            7 => w,
            8 => w.wrapping_sub(self.gradient),
            9 => w.wrapping_sub(nw).wrapping_add(n),
            10 => w.wrapping_sub(nw),
            11 => nw.wrapping_sub(n),
            12 => n.wrapping_sub(around.ne),
            13 => n.wrapping_sub(around.nn),
            14 => w.wrapping_sub(around.ww),
            15 => error,
            _ => 0,
        }
    }

    /// All of them, in order.
    #[inline(always)]
    fn own_properties(&self, around: &Around, error: i32) -> [i32; 16]
        ensures { result ≡ map (int_wrap w32)
            (own_list self.now.x self.now.y (neighbours_of around.now) self.now.gradient error) }
    {
        let Around { w, n, nw, .. } = *around;
        [
            0,
            0,
            read_as_signed(self.y),
            read_as_signed(self.x),
            reduced_absolute(n),
            reduced_absolute(w),
            n,
            w,
            w.wrapping_sub(self.gradient),
            w.wrapping_sub(nw).wrapping_add(n),
            w.wrapping_sub(nw),
            nw.wrapping_sub(n),
            n.wrapping_sub(around.ne),
            n.wrapping_sub(around.nn),
            w.wrapping_sub(around.ww),
            error,
        ]
    }

    /// The properties of the cell that the state is at.
    pub fn properties<'p, const EDGE: bool>(
        &'p mut self,
        store: &'p [AlignedGrid<S>],
    ) -> Properties<'p, S>
        requires ready { IsReady self.old store.now }
        requires inner { EDGE ≡ false → IsInner self.old }
        ensures same_reference { result.state.ghost_name ≡ self.entry.ghost_name }
        ensures unchanged { state_of result ≡ self.old }
        ensures store { store_of result ≡ store.now }
        ensures current { IsCurrent result }
    {
        self.properties_by_rows::<EDGE>(store, &[])
    }

    /// The properties of the cell that the state is at, with rows of the nearest earlier channels from which theirs are
    /// taken: `EarlierRows` has them, for each cell of the row.
    #[inline(always)]
    pub fn properties_by_rows<'p, const EDGE: bool>(
        &'p mut self,
        store: &'p [AlignedGrid<S>],
        rows: &'p [EarlierRow<'p, S>],
    ) -> Properties<'p, S>
        requires ready { IsReady self.old store.now }
        requires inner { EDGE ≡ false → IsInner self.old }
        requires rows { HoldRows self.old store.now rows.now }
        ensures same_reference { result.state.ghost_name ≡ self.entry.ghost_name }
        ensures unchanged { state_of result ≡ self.old }
        ensures store { store_of result ≡ store.now }
        ensures current { IsCurrent result }
    {
        self.properties_in_row::<EDGE, true>(store, rows)
    }

    /// The same; without `WEIGHTED` no weights are used in the channel, and none are looked for.
    #[inline(always)]
    pub fn properties_in_row<'p, const EDGE: bool, const WEIGHTED: bool>(
        &'p mut self,
        store: &'p [AlignedGrid<S>],
        rows: &'p [EarlierRow<'p, S>],
    ) -> Properties<'p, S>
        requires ready { IsReady self.old store.now }
        requires inner { EDGE ≡ false → IsInner self.old }
        requires rows { HoldRows self.old store.now rows.now }
        requires without { WEIGHTED ≡ false → used_weights self.old ≡ None }
        ensures same_reference { result.state.ghost_name ≡ self.entry.ghost_name }
        ensures unchanged { state_of result ≡ self.old }
        ensures store { store_of result ≡ store.now }
        ensures current { IsCurrent result }
    {
        let around = self.around::<EDGE>();
        let correction = self.correction_by::<EDGE, WEIGHTED>(&around);
        Properties {
            state: self,
            store,
            rows,
            around,
            correction,
        }
    }
}

impl<'p, S: Sample> Properties<'p, S> {
    /// A property by its number.
    #[inline(always)]
    pub fn get(&self, property: usize) -> i32
        requires { IsCurrent self.now }
        ensures { (s : Setting) (samples : List ℤ) → StandsAt (state_of self.now) s samples → result ≡ place_property
            (surroundings s (store_meanings S.to_int (store_of self.now)) samples) property }
    {
        if property < 16 {
            let error = PredictionResult::maximum_error(&self.correction);
            self.state.own_property(property, &self.around, error)
        } else {
            self.of_earlier(property - 16)
        }
    }

    /// Properties 0 to 15, in order.
    #[inline(always)]
    pub fn own(&self) -> [i32; 16]
        requires { IsCurrent self.now }
        ensures { AreOwn S.to_int self.now result }
    {
        let error = PredictionResult::maximum_error(&self.correction);
        self.state.own_properties(&self.around, error)
    }

    /// The same properties for walks of trees, with those that `own` gave.
    #[inline(always)]
    pub fn listed<'l>(&'l self, own: &'l [i32; 16]) -> ListedProperties<'l, 'p, S>
        requires current { IsCurrent self.now }
        requires own { AreOwn S.to_int self.now own.now }
        ensures properties { result.properties.now ≡ self.now }
        ensures own { result.own.now ≡ own.now }
    {
        ListedProperties {
            properties: self,
            own,
        }
    }

    #[inline(always)]
    fn of_earlier(&self, number: usize) -> i32
        requires { IsCurrent self.now }
        ensures { (s : Setting) (samples : List ℤ) → StandsAt (state_of self.now) s samples → result ≡ int_wrap w32
            (earlier_property (surroundings s (store_meanings S.to_int (store_of self.now)) samples) number) }
    {
        let nearer = number / 4;
        if nearer < self.rows.len() {
            let (x, y) = (self.state.x as usize, self.state.y as usize);
            self.rows[nearer].property(x, y, number % 4)
        } else {
            farther_property(self.state, self.store, number)
        }
    }
}

// A property of an earlier channel of which no row is at hand, or 0 where there is none.
#[inline]
fn farther_property<S: Sample>(
    state: &PredictorState<S>,
    store: &[AlignedGrid<S>],
    number: usize,
) -> i32
    requires { IsReady state.now store.now }
    ensures { (s : Setting) (samples : List ℤ) → StandsAt state.now s samples → result ≡ int_wrap w32
        (earlier_property (surroundings s (store_meanings S.to_int store.now) samples) number) }
{
    let earlier = &state.earlier;
    let nearer = number / 4;
    if nearer < earlier.len() {
        let (x, y) = (state.x as usize, state.y as usize);
        let region = earlier[earlier.len() - 1 - nearer];
        EarlierRow::property_in(store, region, x, y, number % 4)
    } else {
        0
    }
}

impl<S: Sample> PlaceProperties for Properties<'_, S> {
    ghost use Rattle.std.specs.Prelude.{◌≡◌, ℕ, ℤ, List};
    ghost use Rattle.jxlm_base.specs.Regions.{store_meanings};
    ghost use Rattle.jxlm_predictor.specs.Holding.{IsCurrent, state_of, store_of, surroundings};
    ghost use Rattle.jxlm_predictor.specs.Properties.{place_property};
    ghost use Rattle.jxlm_predictor.specs.Standing.{Setting, StandsAt};

    ghost IsCurrent = { λ p. IsCurrent p };

    ghost gives = { λ p k v. (s : Setting) (samples : List ℤ) → StandsAt (state_of p) s samples → v ≡ place_property
        (surroundings s (store_meanings S.to_int (store_of p)) samples) k };

    #[inline(always)]
    fn property(&self, asked: &AskedProperty) -> i32 {
        self.get(asked.number() as usize)
    }
}

impl<S: Sample> PlaceProperties for ListedProperties<'_, '_, S> {
    ghost use Rattle.std.specs.Prelude.{◌≡◌, ℕ, ℤ, List};
    ghost use Rattle.jxlm_base.specs.Regions.{store_meanings};
    ghost use Rattle.jxlm_predictor.specs.Holding.{IsListed, state_of, store_of, surroundings};
    ghost use Rattle.jxlm_predictor.specs.Properties.{place_property};
    ghost use Rattle.jxlm_predictor.specs.Standing.{Setting, StandsAt};

    ghost IsCurrent = { λ p. IsListed S.to_int p.properties.now p.own.now };

    ghost gives = { λ p k v. (s : Setting) (samples : List ℤ) → StandsAt (state_of p.properties.now) s samples → v
        ≡ place_property (surroundings s (store_meanings S.to_int (store_of p.properties.now)) samples) k };

    #[inline(always)]
    fn property(&self, asked: &AskedProperty) -> i32 {
        let number = asked.number() as usize;
        if number < 16 {
            self.own[number]
        } else {
            self.properties.of_earlier(number - 16)
        }
    }
}

impl<S> Properties<'_, S> {
    /// Records the sample of this cell in the state.
    ///
    /// The state is then after the samples before and this one, at the next cell, and has the room that it had.
    #[inline(always)]
    pub fn record(self, sample: i32)
        requires { IsCurrent self }
        ensures stands { (s : Setting) (samples : List ℤ) → StandsAt self.entry.state.now s samples
            → StandsAt self.exit.0.now s (samples ++ sample ∷ []) }
        ensures room { HasSameRoom self.entry.state.now self.exit.0.now }
    {
        self.record_in_row::<true>(sample);
    }

    /// The same. Without `EDGE` the cell is two or more columns and rows away from every edge but the last row.
    #[inline(always)]
    pub fn record_in_row<const EDGE: bool>(self, sample: i32)
        requires current { IsCurrent self }
        requires inner { EDGE ≡ false → IsInner (state_of self) }
        ensures stands { (s : Setting) (samples : List ℤ) → StandsAt self.entry.state.now s samples
            → StandsAt self.exit.0.now s (samples ++ sample ∷ []) }
        ensures room { HasSameRoom self.entry.state.now self.exit.0.now }
    {
        let correction = self.correction;
        let Properties { state, .. } = self;
        state.advance::<EDGE>(sample, correction);
    }
}
