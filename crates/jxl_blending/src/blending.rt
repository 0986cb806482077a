//! What samples of a frame and of the picture below it make.

ghost use Rattle.std.specs.Prelude.{◌≡◌};
ghost use Rattle.jxl_blending.specs.Blends.{blended_sample, blended_value, clamped, factor as the_factor, over as the_over, parts_of, premultiplied_over as the_premultiplied_over, reciprocal as the_reciprocal, sum_by_alpha as the_sum_by_alpha, union as the_union, weight as the_weight};

use crate::scale::Scale;

/// How the samples of a channel are made from those of a frame and of the picture below it.
#[derive(Clone, Copy, Debug, PartialEq, Eq)]
pub enum BlendKind {
    /// Those of the picture stay.
    Keep,
    /// Those of the frame replace them.
    Replace,
    /// Their sums.
    Add,
    /// Of an alpha channel: how much of a pixel either of them covers.
    Alpha,
    /// Those of the frame over those of the picture, by the alpha of both.
    Over,
    /// The same, where samples were multiplied by their alpha before they were coded.
    OverPremultiplied,
    /// The samples of the picture and those of the frame times its alpha.
    AddByAlpha,
    /// Their products.
    Multiply,
}

/// How a channel is blended.
#[derive(Clone, Copy)]
pub struct ChannelBlending {
    pub kind: BlendKind,
    /// What the channel's samples stand for.
    pub samples: Scale,
    /// What those of the alpha channel stand for.
    pub alpha: Scale,
    /// Whether the factor, alpha or of a product, is kept between 0 and 1.
    pub clamp: bool,
}

/// A sample of a channel, with the alpha of its pixel.
#[derive(Clone, Copy)]
pub struct Point {
    pub sample: i32,
    pub alpha: i32,
}

/// What a sample of a channel and the alpha of its pixel stand for.
#[derive(Clone, Copy)]
pub struct Parts {
    pub sample: f32,
    pub alpha: f32,
}

// The nearest number between 0 and 1.
fn clamp(value: f32) -> f32
    ensures { result ≡ clamped value }
{
    if value < 1.0 {
        if value < 0.0 { 0.0 } else { value }
    } else {
        1.0
    }
}

// 1 - (1 - front)(1 - back).
fn union(front: f32, back: f32) -> f32
    ensures { result ≡ the_union front back }
{
    1.0 - (1.0 - front) * (1.0 - back)
}

// 1 over a number, or 0 where it is 0 or less.
fn reciprocal(value: f32) -> f32
    ensures { result ≡ the_reciprocal value }
{
    if value > 0.0 { 1.0 / value } else { 0.0 }
}

// (front * alpha + back * alpha of back * (1 - alpha)) over the alpha of both.
fn over(alpha: f32, front: f32, back: f32, below: f32) -> f32
    ensures { result ≡ the_over alpha front back below }
{
    (front * alpha + back * below * (1.0 - alpha)) * reciprocal(union(alpha, below))
}

// front + back * (1 - alpha).
fn premultiplied_over(alpha: f32, front: f32, back: f32) -> f32
    ensures { result ≡ the_premultiplied_over alpha front back }
{
    front + back * (1.0 - alpha)
}

// back + front * alpha.
fn sum_by_alpha(alpha: f32, front: f32, back: f32) -> f32
    ensures { result ≡ the_sum_by_alpha alpha front back }
{
    back + front * alpha
}

impl BlendKind {
    // What the picture below is weighed by: the frame's sample, or its alpha.
    fn factor(self, front: Parts) -> f32
        ensures { result ≡ the_factor self front }
    {
        match self {
            BlendKind::Alpha | BlendKind::Multiply => front.sample,
            _ => front.alpha,
        }
    }
}

impl ChannelBlending {
    // The factor, kept between 0 and 1 if the header says so.
    fn weight(self, front: Parts) -> f32
        ensures { result ≡ the_weight self front }
    {
        let factor = self.kind.factor(front);
        if self.clamp { clamp(factor) } else { factor }
    }

    // What a point stands for.
    fn parts(self, point: Point) -> Parts
        ensures { result ≡ parts_of self point }
    {
        Parts {
            sample: self.samples.load(point.sample),
            alpha: self.alpha.load(point.alpha),
        }
    }

    // What is made of what samples stand for.
    fn blend_parts(self, front: Parts, back: Parts) -> f32
        ensures { result ≡ blended_value self front back }
    {
        let weight = self.weight(front);
        match self.kind {
            BlendKind::Keep => back.sample,
            BlendKind::Replace => front.sample,
            BlendKind::Add => back.sample + front.sample,
            BlendKind::Alpha => union(weight, back.sample),
            BlendKind::Over => over(weight, front.sample, back.sample, back.alpha),
            BlendKind::OverPremultiplied => premultiplied_over(weight, front.sample, back.sample),
            BlendKind::AddByAlpha => sum_by_alpha(weight, front.sample, back.sample),
            BlendKind::Multiply => back.sample * weight,
        }
    }

    /// What a sample of a frame makes of what one of the picture below it stands for.
    pub fn blend_onto(self, front: Point, back: Parts) -> f32
        ensures { result ≡ blended_value self (parts_of self front) back }
    {
        self.blend_parts(self.parts(front), back)
    }

    /// What a sample of a frame makes of one of the picture below it. Where samples are kept, replaced or added they are
    /// whole numbers throughout; else the result is the nearest one.
    pub fn blend(self, front: Point, back: Point) -> i32
        ensures { result ≡ blended_sample self front back }
    {
        match self.kind {
            BlendKind::Keep => back.sample,
            BlendKind::Replace => front.sample,
            BlendKind::Add => front.sample.saturating_add(back.sample),
            _ => self.samples.show(self.blend_onto(front, self.parts(back))),
        }
    }
}
