//! Modular images as they are read.

ghost use Rattle.std.specs.Prelude.{◌≡◌, ◌↔◌, pos, None, Ok, IsOk, IsTrue, IsSomeAnd, IfOk, IfErr};
ghost use Rattle.std.specs.List.{All};
ghost use Rattle.std.specs.Option.{option_copied, option_copied_mut};
ghost use Rattle.jxlm_bits.specs.Bits.{bytes_of, position_of};
ghost use Rattle.jxlm_bits.specs.ErrorKind.{kind_of};
ghost use Rattle.jxlm_tree.specs.TreeReading.{IsOutOfMemory};
ghost use Rattle.jxlm_transform.specs.Params.{IsValidParams};
ghost use Rattle.jxl_modular.specs.Parsing.{ParseGives, image_of};

use crate::image::ModularImageDestination;
use jxlm_base::sample::Sample;
use jxlm_bits::bits::Bitstream;
use jxlm_bits::decoder::Decoder;
use jxlm_bits::error::Result;
use jxlm_chain::placed::PlacedChannels;
use jxlm_nested::opening::{open, tree_of};
use jxlm_transform::channels::image_channels;
use jxlm_transform::param::ModularParams;
use std::alloc::Global;

/// A Modular image, or none where there are no channels.
#[derive(Drop)]
pub struct Modular<S, D: Decoder> {
    inner: Option<ModularImageDestination<S, D>>,
}

impl<S: Sample, D: Decoder> Modular<S, D> {
    ghost use Rattle.std.specs.Borrow.{sem};
    ghost use Rattle.jxl_modular.specs.ImageLends.{LendsImage};

    /// The image of no channels.
    pub fn empty() -> Self
        ensures { image_of result ≡ None }
    {
        Modular { inner: None }
    }

    /// Reads the image at the reader's position: its header and its tree (ISO/IEC 18181-1, Modular: Modular header,
    /// MA tree). Its samples are 0 until they are decoded.
    ///
    /// With no channels no bit is read, and there is no image. The parameters must be valid
    /// ([`is_valid`](ModularParams::is_valid)). A header that uses the global tree has the one of the parameters, whose
    /// nodes are shared.
    ///
    /// # Memory
    ///
    /// All grids of the image are made here, before the first token of a sample is read: the given channels, and for
    /// each palette of the header a table with one row for each channel that it stands for, of at most 70911 samples,
    /// or 137727 with deltas.
    /// So nine bytes can take 4 GB, by one channel of 2^15 by 2^15 samples of 32 bits. A caller that does not trust
    /// its input bounds it before the call: by `is_valid`, and by the sum of the areas of the given channels times
    /// the bytes of a sample. There are at most 273 palettes. The list of what undoes the transforms is made here too:
    /// it takes some dozens of bytes for each element, as do the list of coded channels and the tree.
    ///
    /// # Errors
    ///
    /// The error of the first check that fails. A truncated header is `UnexpectedEof`, and a number without a
    /// transform or a predictor is `InvalidEnum`. Then each transform, in order, that does not suit the channels
    /// which the ones before it leave is `InvalidRctParams`, `InvalidPaletteParams` or `InvalidSqueezeParams`; then
    /// more than 65536 coded channels are `ProfileConformance`; then a header that uses the global tree where there is
    /// none is `GlobalMaTreeNotAvailable`; and then, for a header that does not use it, come the errors of the tree, as
    /// by [`MaConfig::parse`](jxlm_tree::ma::MaConfig::parse): it may have 1025 nodes and one more for each coded
    /// sample, at most 2^20 + 1, and a depth of 2048. The reader is then after the
    /// last field that was read whole; after an error inside a decoder's own `parse` its position is up to the
    /// decoder. Out of memory, `Buffer` or `Decoder(OutOfMemory)`, may come at any time, and leaves the reader
    /// anywhere.
    pub fn parse(
        alloc: Global,
        bits: &mut Bitstream<'_>,
        params: ModularParams<'_, D>,
    ) -> Result<Self>
        requires valid { IsValidParams params }
        ensures gives { ParseGives D.meaning (S.from_int (pos 0)) (bytes_of bits.old)
            (position_of bits.old) params.entry params.entry.channels.items result (position_of bits.new) }
        ensures bytes { bytes_of bits.new ≡ bytes_of bits.old }
    {
        if params.channels.is_empty() {
            return Ok(Modular::empty());
        }
        let global = params.ma_config;
        let given = image_channels(alloc, &params.channels)?;
        let start = PlacedChannels::whole(alloc, &given)?;
        let (header, placed) = open(alloc, bits, start, global.is_some())?;
        let ma_ctx = tree_of(alloc, bits, &header, &placed.channels.placed, global)?;
        let image = ModularImageDestination::new(
            alloc,
            header,
            ma_ctx,
            params.group_dim,
            params.bit_depth,
            given,
            placed,
        )?;
        Ok(Modular { inner: Some(image) })
    }

    /// The same image, with its samples as they are, or none. The nodes of the tree are shared.
    ///
    /// # Errors
    ///
    /// Out of memory alone, as by [`ModularImageDestination::try_clone`]. This image stays.
    pub fn try_clone(&self, alloc: Global) -> Result<Self>
        ensures ok { IfOk result (λ c. c ≡ self.now) }
        ensures err { IfErr result (λ e. IsOutOfMemory (kind_of e)) }
        ensures none { image_of self.now ≡ None → IsOk result }
    {
        match &self.inner {
            Some(image) => Ok(Modular {
                inner: Some(image.try_clone(alloc)?),
            }),
            None => Ok(Modular { inner: None }),
        }
    }

    /// Whether there is an image and a transform of its header is a palette.
    pub fn has_palette(&self) -> bool
        ensures { IsTrue result ↔ IsSomeAnd (image_of self.now) (λ image. IsTrue image.has_palette) }
    {
        match &self.inner {
            Some(image) => image.has_palette(),
            None => false,
        }
    }

    /// Whether there is an image and a transform of its header is a squeeze, also one without steps.
    pub fn has_squeeze(&self) -> bool
        ensures { IsTrue result ↔ IsSomeAnd (image_of self.now) (λ image. IsTrue image.has_squeeze) }
    {
        match &self.inner {
            Some(image) => image.has_squeeze(),
            None => false,
        }
    }

    /// The image; with no channels there is none.
    pub fn image(&self) -> Option<&ModularImageDestination<S, D>>
        ensures value { option_copied result ≡ image_of self.now }
    {
        self.inner.as_ref()
    }

    /// The image, which may be written; with no channels there is none.
    pub fn image_mut(&mut self) -> Option<&mut ModularImageDestination<S, D>>
        ensures* writes_back { sem 𝓛 (LendsImage S.row D.row D.Decoder self.entry result) }
        ensures value { option_copied_mut result ≡ image_of self.old }
    {
        self.inner.as_mut()
    }

    /// The image, taken from what held it; with no channels there is none.
    pub fn into_image(self) -> Option<ModularImageDestination<S, D>>
        ensures { result ≡ image_of self }
    {
        let Modular { inner } = self;
        inner
    }
}
