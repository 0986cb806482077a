//! What an image is read by: the sizes and shifts of its channels, and its limits.

ghost use Rattle.std.specs.Prelude.{◌≡◌, ◌+◌, ◌<◌, ◌≤◌, ◌↔◌, ◌^◌, ◌==◌, ◌&&◌, ◌||◌, IsTrue, IfOk, IfErr, map};
ghost use Rattle.std.specs.Int.{div_ceil};
ghost use Rattle.std.specs.List.{All, list_any};
ghost use Rattle.jxlm_transform.specs.Shifts.{IsValidShift, shift_size, jpeg_shift, shifts_of, IsShift, upsampled_side as the_upsampled_side};
ghost use Rattle.jxlm_transform.specs.Params.{IsSide, IsValidChannel, IsGroupDim, IsValidParams, OneSizeIsValid, OneSizeOfImageIsValid, PowersAreGroupDims, are_clamped, clamps_indices, columns, has_colour_kind, has_deltas, params_of, channel_params, with_sums, with_tables};
ghost use Rattle.jxlm_bits.specs.ErrorKind.{NoMemory, kind_of};

use jxlm_bits::decoder::Decoder;
use jxlm_bits::error::Result;
use jxlm_predictor::predictor::Predictor;
use jxlm_tree::ma::MaConfig;
use std::alloc::Global;

/// The maximum side of a picture.
const MAX_SIDE: u32 = 1 << 30;

/// The maximum number of channels given.
const MAX_CHANNELS: usize = 1 << 20;

/// How a channel is smaller than the picture it belongs to (ISO/IEC 18181-1, Modular: channel list).
#[derive(Clone, Copy, Debug, PartialEq, Eq)]
pub enum ChannelShift {
    /// The channel of a JPEG picture: along each side, whether some channel has two samples for
    /// one of another, and whether this one is halved.
    JpegUpsampling {
        /// Some channel has two samples across.
        has_h_subsample: bool,
        /// This one is halved across.
        h_subsample: bool,
        /// Some channel has two samples down.
        has_v_subsample: bool,
        /// This one is halved down.
        v_subsample: bool,
    },
    /// How often both sides are halved.
    Shifts(u32),
    /// How often the width is halved, and how often the height.
    Raw(i32, i32),
}

impl ChannelShift {
    /// Both sides are halved `shift` times.
    pub fn from_shift(shift: u32) -> ChannelShift
        ensures { result ≡ ChannelShift.Shifts shift }
    {
        ChannelShift::Shifts(shift)
    }

    /// The shift of channel `idx` of a JPEG picture, by the samples that each of its three channels
    /// has across and down: 0 stands for 1 and 1, 1 for 2 and 2, 2 for 2 and 1, 3 for 1 and 2. A
    /// channel is halved along a side where it has 1 and some channel has 2. Values are at most 3,
    /// and `idx` is below 3.
    pub fn from_jpeg_upsampling(jpeg_upsampling: [u32; 3], idx: usize) -> ChannelShift
        requires values { All (λ v. v ≤ 3) jpeg_upsampling }
        requires index { idx < 3 }
        ensures shift { result ≡ jpeg_shift jpeg_upsampling idx }
        ensures valid { IsValidShift result }
    {
        let has_h_subsample = has_value(&jpeg_upsampling, 1, 2);
        let has_v_subsample = has_value(&jpeg_upsampling, 1, 3);
        let value = jpeg_upsampling[idx];
        ChannelShift::JpegUpsampling {
            has_h_subsample,
            h_subsample: is_halved(has_h_subsample, value, 3),
            has_v_subsample,
            v_subsample: is_halved(has_v_subsample, value, 2),
        }
    }

    /// How often the width is halved. `Shifts(s)` gives s as a signed number, which is negative
    /// from 2^31 on.
    pub fn hshift(&self) -> i32
        ensures { result ≡ (shifts_of self.now).0 }
    {
        match *self {
            ChannelShift::JpegUpsampling { h_subsample, .. } => i32::from(h_subsample),
            ChannelShift::Shifts(both) => both.cast_signed(),
            ChannelShift::Raw(hshift, _) => hshift,
        }
    }

    /// How often the height is halved; `Shifts(s)` as in [`ChannelShift::hshift`].
    pub fn vshift(&self) -> i32
        ensures { result ≡ (shifts_of self.now).1 }
    {
        match *self {
            ChannelShift::JpegUpsampling { v_subsample, .. } => i32::from(v_subsample),
            ChannelShift::Shifts(both) => both.cast_signed(),
            ChannelShift::Raw(_, vshift) => vshift,
        }
    }

    /// The width and height of a channel with this shift in a picture of these. The picture's are
    /// at most 2^30, and so are the channel's; shifts are from 0 to 30, and a JPEG channel is halved
    /// only along a side along which some channel has two samples.
    pub fn shift_size(&self, size: (u32, u32)) -> (u32, u32)
        requires width { IsSide size.0 }
        requires height { IsSide size.1 }
        requires valid { IsValidShift self.now }
        ensures size { result ≡ shift_size self.now size }
        ensures bounded_width { IsSide result.0 }
        ensures bounded_height { IsSide result.1 }
    {
        let (width, height) = size;
        match *self {
            ChannelShift::JpegUpsampling {
                has_h_subsample,
                h_subsample,
                has_v_subsample,
                v_subsample,
            } => (
                upsampled_side(has_h_subsample, h_subsample, width),
                upsampled_side(has_v_subsample, v_subsample, height),
            ),
            ChannelShift::Shifts(both) => (shifted_side(width, both), shifted_side(height, both)),
            ChannelShift::Raw(hshift, vshift) => (
                shifted_side(width, hshift.unsigned_abs()),
                shifted_side(height, vshift.unsigned_abs()),
            ),
        }
    }

    /// Whether a channel may have this shift, as [`ChannelShift::shift_size`] requires: the shifts of
    /// `Shifts` and `Raw` are from 0 to 30, and a JPEG channel is halved only along a side along which
    /// some channel has two samples.
    pub fn is_valid(&self) -> bool
        ensures { IsTrue result ↔ IsValidShift self.now }
    {
        match *self {
            ChannelShift::JpegUpsampling {
                has_h_subsample,
                h_subsample,
                has_v_subsample,
                v_subsample,
            } => (has_h_subsample || !h_subsample) && (has_v_subsample || !v_subsample),
            ChannelShift::Shifts(both) => both <= 30,
            ChannelShift::Raw(hshift, vshift) => is_shift(hshift) && is_shift(vshift),
        }
    }
}

/// Whether some channel has one of two values.
fn has_value(values: &[u32], a: u32, b: u32) -> bool
    ensures { result ≡ list_any (λ v. v == a || v == b) values.now }
{
    values.iter().any(|v| *v == a || *v == b)
}

/// Whether a channel with this value is halved along a side; `alone` is the value of a channel that
/// has one sample along this side alone.
fn is_halved(some_has_two: bool, value: u32, alone: u32) -> bool
    ensures { result ≡ (some_has_two && (value == 0 || value == alone)) }
{
    some_has_two && (value == 0 || value == alone)
}

/// A side, halved `shift` times.
fn shifted_side(side: u32, shift: u32) -> u32
    requires { shift ≤ 30 }
    ensures { result ≡ div_ceil side (2 ^ shift) }
{
    side.div_ceil(1 << shift)
}

/// A side of a channel of a JPEG picture.
fn upsampled_side(has_subsample: bool, subsample: bool, side: u32) -> u32
    requires { IsSide side }
    ensures { result ≡ the_upsampled_side has_subsample subsample side }
{
    let half = side.div_ceil(2);
    if !has_subsample {
        side
    } else if subsample {
        half
    } else {
        2 * half
    }
}

fn is_shift(shift: i32) -> bool
    ensures { IsTrue result ↔ IsShift shift }
{
    (0..=30).contains(&shift)
}

/// How many columns the table of a palette has.
#[derive(Clone, Copy, Debug, PartialEq, Eq)]
pub enum PaletteTables {
    /// One for each colour, the first of which may be deltas. So the Rust crate `jxl-modular` reads them.
    OfColours,
    /// One for each delta, and after them one for each colour. A palette of one channel, without deltas and with
    /// predictor 0, clamps an index outside its table to it; the implicit colours of others are 0 in each channel from the
    /// fourth on. A colour transform has a kind of at most 41. So libjxl reads files.
    OfDeltasToo,
}

impl PaletteTables {
    /// Whether there are columns for deltas beside those of the colours.
    pub fn has_deltas(&self) -> bool
        ensures { result ≡ has_deltas self.now }
    {
        matches!(self, PaletteTables::OfDeltasToo)
    }

    /// The columns of a palette of a header, which names at most 70911 colours and 66816 deltas.
    pub(crate) fn columns(&self, nb_colours: u32, nb_deltas: u32) -> u32
        requires colours { nb_colours ≤ 70911 }
        requires deltas { nb_deltas ≤ 66816 }
        ensures value { result ≡ columns self.now nb_colours nb_deltas }
        ensures bound { result ≤ columns self.now 70911 nb_deltas }
        ensures most { result ≤ 70911 + nb_deltas }
    {
        match self {
            PaletteTables::OfColours => nb_colours,
            PaletteTables::OfDeltasToo => nb_colours + nb_deltas,
        }
    }

    /// Whether a palette of a header clamps an index outside its table to it.
    pub(crate) fn clamp_indices(&self, num_c: u32, nb_deltas: u32, d_pred: Predictor) -> bool
        ensures { result ≡ clamps_indices self.now num_c nb_deltas d_pred }
    {
        self.has_deltas() && num_c == 1 && nb_deltas == 0 && matches!(d_pred, Predictor::Zero)
    }

    /// Whether a header may have a colour transform of this kind, which is one of 0 to 73.
    pub(crate) fn has_colour_kind(&self, kind: u32) -> bool
        ensures { result ≡ has_colour_kind self.now kind }
    {
        match self {
            PaletteTables::OfColours => true,
            PaletteTables::OfDeltasToo => kind <= 41,
        }
    }
}

/// How property 9, west less north west plus north, is brought to 32 bits.
#[derive(Clone, Copy, Debug, PartialEq, Eq)]
pub enum GradientSums {
    /// It is reduced to 32 bits, as each other property. So the Rust crate `jxl-modular` reads it.
    Wrapped,
    /// It is clamped to -8193..=8191, which changes no decision, in a channel whose tree asks for it alone once the
    /// decisions on the channel and the stream are taken, and predicts by the gradient alone: with cuts from -513 to 510,
    /// offsets from -128 to 127 and multipliers up to 127, or with cuts from -8193 to 8190, offset 0 and multiplier 1. Else
    /// it is reduced. So libjxl reads and writes files.
    Clamped,
}

impl GradientSums {
    /// Whether it is clamped where the tree allows it.
    pub fn are_clamped(&self) -> bool
        ensures { result ≡ are_clamped self.now }
    {
        matches!(self, GradientSums::Clamped)
    }
}

/// A channel of an image: the sides of the picture, how the channel is smaller than it, and by which tables of palettes
/// and which sums it is read.
#[derive(Clone, Copy)]
pub struct ModularChannelParams {
    /// The width of the picture in samples.
    pub width: u32,
    /// The height of the picture in samples.
    pub height: u32,
    /// How the channel is smaller.
    pub shift: ChannelShift,
    /// The tables of palettes in the headers that it is read by: that of the image, and that of a part which holds some
    /// of its samples. Where a channel asks for tables of deltas, all channels of its header are read by these.
    pub palette_tables: PaletteTables,
    /// How property 9 of its samples is brought to 32 bits.
    pub gradient_sums: GradientSums,
}

impl ModularChannelParams {
    /// A channel as large as the picture.
    pub fn new(width: u32, height: u32) -> ModularChannelParams
        ensures { result ≡ channel_params width height (ChannelShift.Shifts 0) }
    {
        ModularChannelParams::with_shift(width, height, ChannelShift::from_shift(0))
    }

    /// Channel `idx` of a JPEG picture of these sides, with the shift and under the conditions of
    /// [`ChannelShift::from_jpeg_upsampling`].
    pub fn jpeg(
        width: u32,
        height: u32,
        jpeg_upsampling: [u32; 3],
        idx: usize,
    ) -> ModularChannelParams
        requires values { All (λ v. v ≤ 3) jpeg_upsampling }
        requires index { idx < 3 }
        ensures channel { result ≡ channel_params width height (jpeg_shift jpeg_upsampling idx) }
        ensures valid { IsValidShift result.shift }
    {
        let shift = ChannelShift::from_jpeg_upsampling(jpeg_upsampling, idx);
        ModularChannelParams::with_shift(width, height, shift)
    }

    /// A channel with this shift in a picture of these sides.
    pub fn with_shift(width: u32, height: u32, shift: ChannelShift) -> ModularChannelParams
        ensures { result ≡ channel_params width height shift }
    {
        ModularChannelParams {
            width,
            height,
            shift,
            palette_tables: PaletteTables::OfColours,
            gradient_sums: GradientSums::Wrapped,
        }
    }

    /// The same channel, read by these tables of palettes. Those of the other calls are
    /// [`OfColours`](PaletteTables::OfColours).
    pub fn with_palette_tables(self, palette_tables: PaletteTables) -> ModularChannelParams
        ensures { result ≡ with_tables palette_tables self }
    {
        ModularChannelParams {
            palette_tables,
            ..self
        }
    }

    /// The same channel, read by these sums. Those of the other calls are [`Wrapped`](GradientSums::Wrapped).
    pub fn with_gradient_sums(self, gradient_sums: GradientSums) -> ModularChannelParams
        ensures { result ≡ with_sums gradient_sums self }
    {
        ModularChannelParams {
            gradient_sums,
            ..self
        }
    }

    /// Whether an image may have this channel, as
    /// [`ModularChannelInfo::new`](crate::channels::ModularChannelInfo::new) requires: the sides of its
    /// picture are at most 2^30, and its shift is valid as by [`ChannelShift::is_valid`].
    pub fn is_valid(&self) -> bool
        ensures { IsTrue result ↔ IsValidChannel self.now }
    {
        self.width <= MAX_SIDE && self.height <= MAX_SIDE && self.shift.is_valid()
    }
}

/// What an image is read by.
#[derive(Drop)]
pub struct ModularParams<'a, D: Decoder> {
    /// The side of a group, in samples of the picture.
    pub group_dim: u32,
    /// How many bits a sample has.
    pub bit_depth: u32,
    /// The channels, in order.
    pub channels: Vec<ModularChannelParams>,
    /// The global tree, where there is one.
    pub ma_config: Option<&'a MaConfig<D>>,
}

impl<'a, D: Decoder> ModularParams<'a, D> {
    /// An image of these sides with a channel for each shift, in order.
    ///
    /// # Errors
    ///
    /// [`Error::Buffer`](jxlm_bits::error::Error) if it is out of memory, and no other.
    pub fn new(
        alloc: Global,
        width: u32,
        height: u32,
        group_dim: u32,
        bit_depth: u32,
        channel_shifts: Vec<ChannelShift>,
        ma_config: Option<&'a MaConfig<D>>,
    ) -> Result<ModularParams<'a, D>>
        ensures group_dim { IfOk result (λ p. p.group_dim ≡ group_dim) }
        ensures bit_depth { IfOk result (λ p. p.bit_depth ≡ bit_depth) }
        ensures channels { IfOk result (λ p. p.channels.items ≡ map (channel_params width height) channel_shifts.items) }
        ensures ma_config { IfOk result (λ p. p.ma_config ≡ ma_config.entry) }
        ensures err { IfErr result (λ e. kind_of e ≡ NoMemory) }
    {
        let channels = channel_shifts
            .into_iter()
            .map(|shift| ModularChannelParams::with_shift(width, height, shift))
            .collect(alloc)?;
        Ok(ModularParams::with_channels(group_dim, bit_depth, channels, ma_config))
    }

    /// An image of these channels.
    pub fn with_channels(
        group_dim: u32,
        bit_depth: u32,
        channels: Vec<ModularChannelParams>,
        ma_config: Option<&'a MaConfig<D>>,
    ) -> ModularParams<'a, D>
        ensures { result ≡ params_of group_dim bit_depth channels ma_config.entry }
    {
        ModularParams {
            group_dim,
            bit_depth,
            channels,
            ma_config,
        }
    }

    /// Whether an image may be read by these: sides are at most 2^30 and shifts from 0 to 30, a JPEG
    /// channel is halved only along a side along which some channel has two samples, `bit_depth` is
    /// at most 32, `group_dim` is a power of two from 2 to 2^20, and there are at most 2^20
    /// channels. Nothing but these fields is looked at.
    pub fn is_valid(&self) -> bool
        ensures { IsTrue result ↔ IsValidParams self.now }
    {
        self.channels.len() <= MAX_CHANNELS
            && self.channels.iter().all(|channel| channel.is_valid())
            && self.bit_depth <= 32
            && is_group_dim(self.group_dim)
    }
}

/// Channels of one size are valid: any number of channels as large as their picture, with sides up to
/// 2^30, and an image of at most 2^20 of them, with a bit depth of at most 32 and a group side that is a
/// power of two from 2 to 2^20. It does nothing: a caller has the facts of its contract.
pub fn channels_of_one_size_are_valid<D: Decoder>()
    ensures channels { OneSizeIsValid }
    ensures params { OneSizeOfImageIsValid D }
    ensures group_dim { PowersAreGroupDims }
{}

fn is_group_dim(group_dim: u32) -> bool
    ensures { IsTrue result ↔ IsGroupDim group_dim }
{
    (2..=1 << 20).contains(&group_dim) && group_dim.is_power_of_two()
}
