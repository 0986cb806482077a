//! Modular images of JPEG XL (ISO/IEC 18181-1).
#![tactic(auto)]

pub mod groups;
pub mod image;
pub mod laws;
mod picture;
pub mod recursive;
mod root;
pub mod sections;

/// Bits of the input.
pub mod bits {
    pub use jxlm_bits::bits::{Bitstream, BitstreamError, U32Spec};
}

/// Entropy decoders.
pub mod decoder {
    pub use jxlm_bits::decoder::{Decoder, DecoderError, RleToken, TokensError};
}

/// A lossless encoder, over either plain format.
pub mod encode {
    pub use jxlm_encode::encode::{
        EncodeError, EncodeNode, EncodeTransform, SqueezeStep, encode, encode2, token_of,
    };
}

/// Errors.
pub mod error {
    pub use jxlm_bits::error::{Error, Result};
}

/// Trees as the samples of one channel walk them.
pub mod flat {
    pub use jxlm_tree::flat::{FlatMaTree, Leaf, Steps};
}

/// Grids of samples, and rectangles in them.
pub mod grid {
    pub use jxlm_base::grid::{AlignedGrid, MutableSubgrid, OutOfMemory, Region, Rows};
}

/// Meta-adaptive trees.
pub mod ma {
    pub use jxlm_tree::ma::{MaConfig, MaConfigParams};
}

/// What an image is read by.
pub mod param {
    pub use jxlm_transform::param::{
        ChannelShift, GradientSums, ModularChannelParams, ModularParams, PaletteTables,
    };
}

/// The plain decoders.
pub mod plain {
    pub use jxlm_plain::plain::PlainDecoder;
    pub use jxlm_plain::plain2::PlainDecoder2;
}

/// Predictors, and the properties of a cell of a channel.
pub mod predictor {
    pub use jxlm_predictor::predictor::{
        PredictionResult, Predictor, PredictorState, Properties, WpHeader,
    };
}

/// Colour transforms, inverse-transformed.
pub mod rct {
    pub use jxlm_inverse::rct::inverse_rct;
}

/// The two types of a sample.
pub mod sample {
    pub use jxlm_base::sample::{Sample, Sealed};
}

/// Squeeze steps, inverse-transformed.
pub mod squeeze {
    pub use jxlm_inverse::squeeze::{inverse_h, inverse_v};
}

/// The headers of transforms.
pub mod transform {
    pub use jxlm_transform::transform::{Palette, Rct, Squeeze, SqueezeParams, TransformInfo};
}

pub use jxlm_base::sample::Sample;
pub use jxlm_bits::error::{Error, Result};
pub use jxlm_transform::channels::ModularChannelInfo;
pub use jxlm_transform::param::{
    ChannelShift, GradientSums, ModularChannelParams, ModularParams, PaletteTables,
};
pub use jxlm_tree::flat::FlatMaTree;
pub use jxlm_tree::ma::{MaConfig, MaConfigParams};
pub use picture::decode_picture;
pub use root::Modular;
