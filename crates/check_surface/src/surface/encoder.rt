// The surface of the encoder.

use super::names::named;
use jxl_modular::encode::{
    EncodeError, EncodeNode, EncodeTransform, SqueezeStep, encode, encode2, token_of,
};
use jxl_modular::predictor::Predictor;
use jxl_modular::sample::Sample;

// Which error it is, and its number.
fn kind_of_error(error: EncodeError) -> (u32, u32) {
    match error {
        EncodeError::InvalidTransform(number) => (0, number),
        EncodeError::InvalidTree => (1, 0),
        EncodeError::OutOfMemory => (2, 0),
    }
}

// A decision's numbers, or a leaf's predictor and offset.
fn numbers_of(node: EncodeNode) -> (Option<(u32, i32)>, Option<(Predictor, i32)>) {
    match node {
        EncodeNode::Decision { property, value } => (Some((property, value)), None),
        EncodeNode::Leaf { predictor, offset } => (None, Some((predictor, offset))),
    }
}

// A colour transform's numbers, or the steps of a squeeze.
fn fields_of(transform: EncodeTransform) -> (Option<(u32, u32)>, Option<Vec<SqueezeStep>>) {
    match transform {
        EncodeTransform::Rct { begin_c, rct_type } => (Some((begin_c, rct_type)), None),
        EncodeTransform::Squeeze(steps) => (None, Some(steps)),
    }
}

fn step(step: SqueezeStep) -> (bool, bool, u32, u32) {
    let SqueezeStep {
        horizontal,
        in_place,
        begin_c,
        num_c,
    } = step;
    (horizontal, in_place, begin_c, num_c)
}

fn functions<S: Sample>() {
    named(encode::<S>);
    named(encode2::<S>);
    named(token_of);
}

#[test]
fn functions_at_both_widths() {
    functions::<i32>();
    functions::<i16>();
}
