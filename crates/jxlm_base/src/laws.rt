//! Laws of the definitions that contracts cite: each is the contract of a function that does nothing.
ghost use Rattle.std.specs.Prelude.{◌≡◌, ◌↔◌, ℕ, ℤ, ◌+◌, ◌+ℤ◌, ◌*ℤ◌, ◌^◌, ◌<◌, FitsSigned, List, Some};
ghost use Rattle.std.specs.Int.{Width, w16, w32, int_wrap};
ghost use Rattle.jxlm_lanes.specs.Colour.{ColourIsLossless, ColourIsOneToOne};
ghost use Rattle.jxlm_base.specs.Grid.{Grid, IsFull, cell, grid_by};
ghost use Rattle.jxlm_bits.specs.Numbers.{unpack, clamped_gradient};
ghost use Rattle.jxlm_base.specs.Regions.{Region, LieApart, WritesChangeOneGrid};
ghost use Rattle.jxlm_lanes.specs.Squeeze.{SqueezeLosesNothing};

/// What is computed in 16 bits is what is computed in 32, reduced.
pub fn narrow_samples_are_wide_ones_reduced()
    ensures unpacked { (token : ℕ) → int_wrap w16 (int_wrap w32 (unpack token)) ≡ int_wrap w16 (unpack token) }
    ensures added { (a b : ℤ) → int_wrap w16 (int_wrap w32 (a +ℤ b)) ≡ int_wrap w16 (int_wrap w16 a +ℤ int_wrap w16 b) }
    ensures multiplied { (a m d : ℤ) → int_wrap w16 (int_wrap w32 (a *ℤ m +ℤ d)) ≡ int_wrap w16
        (int_wrap w16 a *ℤ m +ℤ d) }
{}

/// A gradient of samples of a width is one, whatever the sample above and to the left.
pub fn gradients_fit()
    ensures { (w : Width) (n west nw : ℤ) → FitsSigned w n → FitsSigned w west → FitsSigned w
        (clamped_gradient n west nw) }
{}

/// Each whole number is that of exactly one token, and the tokens of 32 bits have the numbers of 32 bits.
pub fn each_number_has_one_token()
    ensures each { (z : ℤ) → (token : ℕ) × (unpack token ≡ z) }
    ensures one { (s t : ℕ) → unpack s ≡ unpack t → s ≡ t }
    ensures in_32_bits { (token : ℕ) → FitsSigned w32 (unpack token) ↔ (token < 2 ^ 32) }
{}

/// A grid is its sides and its cells by coordinates: there is one for each choice of them, and no other.
pub fn grids_are_their_cells<S>()
    ensures full { (w h : ℕ) (f : ℕ → ℕ → S) → IsFull (grid_by w h f) }
    ensures each { (w h : ℕ) (f : ℕ → ℕ → S) (x y : ℕ) → x < w → y < h → cell (grid_by w h f) x y ≡ Some (f x y) }
    ensures one { (g h : Grid S) → IsFull g → IsFull h → g.width ≡ h.width → g.height ≡ h.height
        → ((x y : ℕ) → x < g.width → y < g.height → cell g x y ≡ cell h x y) → g ≡ h }
{}

/// Where no two regions share a cell, a write to a cell of one changes that cell of its grid, and no other grid.
pub fn writes_change_one_region()
    ensures { (rs : List Region) → LieApart rs → WritesChangeOneGrid rs }
{}

/// Colour loses nothing: each of its kinds can be undone and done again, on all triples of either type.
pub fn colour_loses_nothing()
    ensures lossless { (w : Width) → ColourIsLossless w }
    ensures one { (w : Width) → ColourIsOneToOne w }
{}

/// Squeezing loses nothing on rows of any length, at any width of samples.
pub fn squeeze_loses_nothing()
    ensures { (w : Width) → SqueezeLosesNothing w }
{}
