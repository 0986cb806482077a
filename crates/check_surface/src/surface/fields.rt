// The types, their variants and their fields.

use jxl_modular::bits::{Bitstream, BitstreamError, U32Spec};
use jxl_modular::decoder::{Decoder, DecoderError, RleToken};
use jxl_modular::flat::{FlatMaTree, Leaf};
use jxl_modular::grid::{AlignedGrid, OutOfMemory, Region, Rows};
use jxl_modular::image::{ChannelsWithInfo, Part, TransformedGrid};
use jxl_modular::ma::{MaConfig, MaConfigParams};
use jxl_modular::param::{
    ChannelShift, GradientSums, ModularChannelParams, ModularParams, PaletteTables,
};
use jxl_modular::plain::PlainDecoder;
use jxl_modular::predictor::{PredictionResult, Predictor, WpHeader};
use jxl_modular::recursive::NestedHeader;
use jxl_modular::sample::Sealed;
use jxl_modular::sections::{Area, PartArea, Section, SectionPart};
use jxl_modular::transform::{Palette, Rct, Squeeze, SqueezeParams, TransformInfo};
use jxl_modular::{ModularChannelInfo, error};

// The types that are at the root too, by the names of their modules.
type OfModules<'a, S> = (
    error::Error,
    error::Result<FlatMaTree>,
    FlatMaTree,
    MaConfig<PlainDecoder>,
    MaConfigParams,
    ChannelShift,
    GradientSums,
    ModularChannelParams,
    ModularParams<'a, PlainDecoder>,
    PaletteTables,
    S,
);

// The same types by their names at the root.
type OfRoot<'a, S> = (
    jxl_modular::Error,
    jxl_modular::Result<jxl_modular::FlatMaTree>,
    jxl_modular::FlatMaTree,
    jxl_modular::MaConfig<PlainDecoder>,
    jxl_modular::MaConfigParams,
    jxl_modular::ChannelShift,
    jxl_modular::GradientSums,
    jxl_modular::ModularChannelParams,
    jxl_modular::ModularParams<'a, PlainDecoder>,
    jxl_modular::PaletteTables,
    S,
);

fn are_the_same<'a, S: jxl_modular::Sample>(types: OfModules<'a, S>) -> OfRoot<'a, S> {
    types
}

// Which variant it is.
fn bitstream_error(e: BitstreamError) -> u32 {
    match e {
        BitstreamError::UnexpectedEof => 0,
        BitstreamError::InvalidEnum { name, value } => {
            let (_, _): (&'static str, u32) = (name, value);
            1
        }
        BitstreamError::ProfileConformance(text) => {
            let _: &'static str = text;
            2
        }
    }
}

fn decoder_error(e: DecoderError) -> u32 {
    match e {
        DecoderError::UnexpectedEof => 0,
        DecoderError::Invalid(code) => code,
        DecoderError::OutOfMemory => 2,
    }
}

fn any_error(e: error::Error) -> u32 {
    match e {
        error::Error::InvalidMaTree => 0,
        error::Error::GlobalMaTreeNotAvailable => 1,
        error::Error::InvalidRctParams => 2,
        error::Error::InvalidPaletteParams => 3,
        error::Error::InvalidSqueezeParams => 4,
        error::Error::Bitstream(cause) => bitstream_error(cause),
        error::Error::Decoder(cause) => decoder_error(cause),
        error::Error::Buffer(OutOfMemory) => 7,
    }
}

fn causes() -> [error::Error; 3] {
    [
        error::Error::from(BitstreamError::UnexpectedEof),
        error::Error::from(DecoderError::UnexpectedEof),
        error::Error::from(OutOfMemory),
    ]
}

// The numbers that it is made of.
fn choice(spec: U32Spec) -> (u32, u32) {
    match spec {
        U32Spec::Const(number) => (number, 0),
        U32Spec::Offset(offset, bits) => (offset, bits),
    }
}

// The token, or how many there are of the last one.
fn token(token: RleToken) -> u32 {
    match token {
        RleToken::Value(value) => value,
        RleToken::Repeat(count) => count,
    }
}

fn shift(shift: ChannelShift) -> (Option<[bool; 4]>, Option<u32>, Option<(i32, i32)>) {
    match shift {
        ChannelShift::JpegUpsampling {
            has_h_subsample,
            h_subsample,
            has_v_subsample,
            v_subsample,
        } => (
            Some([has_h_subsample, h_subsample, has_v_subsample, v_subsample]),
            None,
            None,
        ),
        ChannelShift::Shifts(both) => (None, Some(both), None),
        ChannelShift::Raw(h, v) => (None, None, Some((h, v))),
    }
}

fn channel(channel: ModularChannelParams) -> (u32, u32, ChannelShift, PaletteTables, GradientSums) {
    let ModularChannelParams {
        width,
        height,
        shift,
        palette_tables,
        gradient_sums,
    } = channel;
    (width, height, shift, palette_tables, gradient_sums)
}

fn sums(sums: GradientSums) -> bool {
    match sums {
        GradientSums::Wrapped => false,
        GradientSums::Clamped => true,
    }
}

fn tables(tables: PaletteTables) -> bool {
    match tables {
        PaletteTables::OfColours => false,
        PaletteTables::OfDeltasToo => true,
    }
}

fn params<'a, D: Decoder>(
    params: ModularParams<'a, D>,
) -> (u32, u32, Vec<ModularChannelParams>, Option<&'a MaConfig<D>>) {
    let ModularParams {
        group_dim,
        bit_depth,
        channels,
        ma_config,
    } = params;
    (group_dim, bit_depth, channels, ma_config)
}

fn limits(limits: MaConfigParams) -> (usize, usize) {
    let MaConfigParams {
        node_limit,
        depth_limit,
    } = limits;
    (node_limit, depth_limit)
}

fn leaf(leaf: Leaf) -> (u8, Predictor, i32, u32) {
    let Leaf {
        cluster,
        predictor,
        offset,
        multiplier,
    } = leaf;
    (cluster, predictor, offset, multiplier)
}

/// The number of a predictor, of which there are fourteen.
pub fn number_of(predictor: Predictor) -> u32 {
    match predictor {
        Predictor::Zero => 0,
        Predictor::West => 1,
        Predictor::North => 2,
        Predictor::AvgWestAndNorth => 3,
        Predictor::Select => 4,
        Predictor::Gradient => 5,
        Predictor::SelfCorrecting => 6,
        Predictor::NorthEast => 7,
        Predictor::NorthWest => 8,
        Predictor::WestWest => 9,
        Predictor::AvgWestAndNorthWest => 10,
        Predictor::AvgNorthAndNorthWest => 11,
        Predictor::AvgNorthAndNorthEast => 12,
        Predictor::AvgAll => 13,
    }
}

/// The weights, in the order of their fields.
pub fn weights(header: WpHeader) -> (bool, [u32; 11]) {
    let WpHeader {
        default_wp,
        wp_p1,
        wp_p2,
        wp_p3a,
        wp_p3b,
        wp_p3c,
        wp_p3d,
        wp_p3e,
        wp_w0,
        wp_w1,
        wp_w2,
        wp_w3,
    } = header;
    let numbers = [
        wp_p1, wp_p2, wp_p3a, wp_p3b, wp_p3c, wp_p3d, wp_p3e, wp_w0, wp_w1, wp_w2, wp_w3,
    ];
    (default_wp, numbers)
}

// No public call returns one.
fn nothing_predicted(prediction: Option<PredictionResult>) -> bool {
    prediction.is_none()
}

// The squeezes of a transform, if it has some.
fn squeezes(transform: TransformInfo) -> Option<Vec<SqueezeParams>> {
    match transform {
        TransformInfo::Rct(Rct { .. }) => None,
        TransformInfo::Palette(Palette { .. }) => None,
        TransformInfo::Squeeze(Squeeze { sp }) => Some(sp),
    }
}

fn region(region: Region) -> [usize; 5] {
    let Region {
        buffer,
        x,
        y,
        width,
        height,
    } = region;
    [buffer, x, y, width, height]
}

// Where a channel lies.
fn lies(grid: TransformedGrid) -> Region {
    match grid {
        TransformedGrid::Single(region) => region,
        TransformedGrid::Merged { leader, members } => {
            let _: Vec<TransformedGrid> = members;
            leader
        }
    }
}

// The first row, if there is one.
fn first<'a, S: Sealed>(mut rows: Rows<'a, S>) -> Option<&'a [S]> {
    rows.next()
}

// The next channel that is taken out, and what is known of it.
fn next<S: Sealed>(
    mut channels: ChannelsWithInfo<S>,
) -> Option<(AlignedGrid<S>, ModularChannelInfo)> {
    channels.next()
}

fn area(part: PartArea) -> (SectionPart, [u32; 4]) {
    let PartArea { part, area } = part;
    let Area {
        x,
        y,
        width,
        height,
    } = area;
    (part, [x, y, width, height])
}

fn section(section: Section<'_>) -> (SectionPart, Bitstream<'_>, u32, bool) {
    let Section {
        part,
        bits,
        stream_index,
        nested,
    } = section;
    (part, bits, stream_index, nested)
}

/// The number of a part: its kind or its pass, and its group.
pub fn number(part: SectionPart) -> (u32, u64) {
    match part {
        SectionPart::Global => (0, 0),
        SectionPart::Lf(group) => (1, group),
        SectionPart::Pass(pass, group) => (pass, group),
    }
}

fn group(part: Part) -> SectionPart {
    match part {
        Part::Lf(group) => SectionPart::Lf(group),
        Part::Pass(pass, group) => SectionPart::Pass(pass, group),
    }
}

fn header<S: Sealed, D: Decoder>(header: NestedHeader<S, D>) -> NestedHeader<S, D> {
    header
}
