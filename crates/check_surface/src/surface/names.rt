// The functions, each by its name.

use jxl_modular::bits::{Bitstream, BitstreamError};
use jxl_modular::decoder::{Decoder, DecoderError};
use jxl_modular::error::Error;
use jxl_modular::flat::{FlatMaTree, Steps};
use jxl_modular::grid::{AlignedGrid, MutableSubgrid};
use jxl_modular::image::{
    ModularImageDestination, RecursiveModularImage, TransformedGlobalModular,
    TransformedModularSubimage,
};
use jxl_modular::ma::MaConfig;
use jxl_modular::param::{ChannelShift, ModularChannelParams, ModularParams};
use jxl_modular::plain::{PlainDecoder, PlainDecoder2};
use jxl_modular::predictor::{PredictorState, Properties, WpHeader};
use jxl_modular::rct::inverse_rct;
use jxl_modular::recursive::NestedSubimage;
use jxl_modular::sample::Sample;
use jxl_modular::sections::{decode_sections, sections_fit};
use jxl_modular::squeeze::{inverse_h, inverse_v};
use jxl_modular::transform::{Palette, Rct, Squeeze, TransformInfo};
use jxl_modular::{Modular, ModularChannelInfo, decode_picture};

/// Takes what has this name.
pub fn named<F: Drop>(_: F) {}

fn of_bits() {
    named(Bitstream::new);
    named(Bitstream::position);
    named(Bitstream::read_bits);
    named(Bitstream::read_bool);
    named(Bitstream::read_u32);
    named(Bitstream::read_numbers);
    named(Bitstream::read_either);
    named(BitstreamError::unexpected_eof);
    named(DecoderError::unexpected_eof);
    named(Error::unexpected_eof);
}

fn of_decoders<D: Decoder>() {
    named(D::parse);
    named(D::try_clone);
    named(D::begin);
    named(D::read_varint);
    named(D::read_varint_with_multiplier_clustered);
    named(D::read_varints_with_multiplier_clustered);
    named(D::read_varint_clustered);
    named(D::single_token);
    named(D::cluster_map);
    named(D::as_rle);
    named(D::finalize);
}

fn of_samples<S: Sample>() {
    named(S::from_i32);
    named(S::from_u32);
    named(S::to_i32);
    named(S::to_i64);
    named(S::unpack_signed_u32);
    named(S::add);
    named(S::wrapping_muladd_i32);
    named(S::grad_clamped);
    named(S::try_into_grid_i32);
    named(S::try_into_grid_i16);
    named(S::rct_rows);
    named(S::squeeze_rows);
    named(S::squeeze_columns);
}

fn of_grids<S: Sample>() {
    named(AlignedGrid::<S>::new);
    named(AlignedGrid::<S>::try_clone);
    named(AlignedGrid::<S>::width);
    named(AlignedGrid::<S>::height);
    named(AlignedGrid::<S>::get);
    named(AlignedGrid::<S>::get_mut);
    named(AlignedGrid::<S>::get_row);
    named(AlignedGrid::<S>::get_row_mut);
    named(AlignedGrid::<S>::buf);
    named(AlignedGrid::<S>::rows);
    named(MutableSubgrid::<S>::new);
    named(MutableSubgrid::<S>::width);
    named(MutableSubgrid::<S>::height);
    named(MutableSubgrid::<S>::get);
    named(inverse_h::<S>);
    named(inverse_v::<S>);
    named(inverse_rct::<S, 0>);
}

fn of_params<D: Decoder>() {
    named(ChannelShift::from_shift);
    named(ChannelShift::from_jpeg_upsampling);
    named(ChannelShift::hshift);
    named(ChannelShift::vshift);
    named(ChannelShift::shift_size);
    named(ModularChannelParams::new);
    named(ModularChannelParams::jpeg);
    named(ModularChannelParams::with_shift);
    named(ModularChannelParams::with_palette_tables);
    named(ModularChannelParams::with_gradient_sums);
    named(ModularParams::<D>::new);
    named(ModularParams::<D>::with_channels);
    named(ModularParams::<D>::is_valid);
    named(ModularChannelInfo::shift);
    named(ModularChannelInfo::original_size);
}

fn of_trees<S: Sample, D: Decoder>() {
    named(MaConfig::<D>::parse);
    named(MaConfig::<D>::try_clone);
    named(MaConfig::<D>::decoder);
    named(MaConfig::<D>::make_flat_tree);
    named(MaConfig::<D>::num_tree_nodes);
    named(MaConfig::<D>::tree_depth);
    named(FlatMaTree::need_self_correcting);
    named(FlatMaTree::num_nodes);
    named(FlatMaTree::max_prev_channel_depth);
    named(FlatMaTree::leaf::<Properties<'_, S>>);
    named(FlatMaTree::decode_sample::<D, Properties<'_, S>>);
    named(Steps::new);
}

fn of_predictors<S: Sample>() {
    named(WpHeader::parse);
    named(PredictorState::<S>::new);
    named(PredictorState::<S>::reset);
    named(PredictorState::<S>::properties::<true>);
    named(PredictorState::<S>::properties::<false>);
    named(Properties::<S>::get);
    named(Properties::<S>::record);
}

fn of_transforms() {
    named(TransformInfo::parse);
    named(TransformInfo::parse_by);
    named(TransformInfo::is_palette);
    named(TransformInfo::is_squeeze);
    named(Rct::parse);
    named(Rct::parse_by);
    named(Palette::parse);
    named(Palette::parse_by);
    named(Squeeze::parse);
}

fn of_modular<S: Sample, D: Decoder>() {
    named(Modular::<S, D>::empty);
    named(Modular::<S, D>::parse);
    named(Modular::<S, D>::try_clone);
    named(Modular::<S, D>::has_palette);
    named(Modular::<S, D>::has_squeeze);
    named(Modular::<S, D>::image);
    named(Modular::<S, D>::image_mut);
    named(Modular::<S, D>::into_image);
    named(decode_picture::<S, D>);
}

fn of_images<S: Sample, D: Decoder>() {
    named(ModularImageDestination::<S, D>::try_clone);
    named(ModularImageDestination::<S, D>::has_palette);
    named(ModularImageDestination::<S, D>::has_squeeze);
    named(ModularImageDestination::<S, D>::image_channels);
    named(ModularImageDestination::<S, D>::into_image_channels);
    named(ModularImageDestination::<S, D>::into_image_channels_with_info);
    named(ModularImageDestination::<S, D>::prepare_gmodular);
    named(ModularImageDestination::<S, D>::prepare_subimage);
    named(ModularImageDestination::<S, D>::can_group);
    named(ModularImageDestination::<S, D>::prepare_groups);
    named(ModularImageDestination::<S, D>::parts);
    named(ModularImageDestination::<S, D>::shown);
    named(sections_fit::<S, D>);
    named(decode_sections::<S, D>);
}

fn of_parts<S: Sample, D: Decoder>() {
    named(TransformedModularSubimage::<S, D>::is_empty);
    named(TransformedModularSubimage::<S, D>::is_partial);
    named(TransformedModularSubimage::<S, D>::holds_all);
    named(TransformedModularSubimage::<S, D>::steps);
    named(TransformedModularSubimage::<S, D>::decode);
    named(TransformedModularSubimage::<S, D>::finish);
    named(TransformedModularSubimage::<S, D>::recursive);
    named(RecursiveModularImage::<S, D>::prepare_subimage);
    named(NestedSubimage::<S, D>::is_empty);
    named(NestedSubimage::<S, D>::is_partial);
    named(NestedSubimage::<S, D>::holds_all);
    named(NestedSubimage::<S, D>::steps);
    named(NestedSubimage::<S, D>::decode);
    named(NestedSubimage::<S, D>::finish);
}

fn of_groups<S: Sample, D: Decoder>() {
    named(TransformedGlobalModular::<S, D>::num_lf_groups);
    named(TransformedGlobalModular::<S, D>::num_passes);
    named(TransformedGlobalModular::<S, D>::num_groups);
    named(TransformedGlobalModular::<S, D>::is_empty);
    named(TransformedGlobalModular::<S, D>::is_partial);
    named(TransformedGlobalModular::<S, D>::steps);
    named(TransformedGlobalModular::<S, D>::decode);
    named(TransformedGlobalModular::<S, D>::decode_nested);
    named(TransformedGlobalModular::<S, D>::recursive);
    named(TransformedGlobalModular::<S, D>::read_header);
    named(TransformedGlobalModular::<S, D>::enter);
    named(TransformedGlobalModular::<S, D>::shown);
    named(TransformedGlobalModular::<S, D>::give_back);
}

#[test]
fn functions() {
    of_bits();
    of_decoders::<PlainDecoder>();
    of_decoders::<PlainDecoder2>();
    of_samples::<i16>();
    of_grids::<i32>();
    of_params::<PlainDecoder>();
    of_trees::<i32, PlainDecoder>();
    of_predictors::<i32>();
    of_transforms();
    of_modular::<i32, PlainDecoder>();
    of_images::<i32, PlainDecoder>();
    of_parts::<i32, PlainDecoder>();
    of_groups::<i32, PlainDecoder>();
}
