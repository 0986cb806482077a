//! The transforms of an image that an encoder runs forward and writes.

use crate::colours::ColourOrder;
use jxlm_transform::transform::{Palette, Rct};

/// A transform of an image.
#[derive(Clone, Copy)]
pub enum ImageTransform {
    /// A colour transform.
    Colour(Rct),
    /// A palette without differences.
    Palette(Palette),
}

/// Channels of an image that become a palette, if their colours are few.
#[derive(Clone, Copy, Debug, PartialEq, Eq)]
pub struct PalettePlan {
    /// The first of the channels.
    pub first: usize,
    /// How many there are, one to four.
    pub count: usize,
    /// The order of their colours.
    pub order: ColourOrder,
    /// The most colours that they may have.
    pub most: usize,
}

/// The transforms that an image is coded by, where they suit its channels.
#[derive(Clone, Copy)]
pub struct ImagePlan<'a> {
    /// Palettes, one after another.
    pub palettes: &'a [PalettePlan],
    /// The kind of the colour transform of the first three channels after them, if there is one.
    pub colour: Option<u32>,
}
