//! Images as values: questions on their transforms, clones, and channels that are taken out.

ghost use Rattle.std.specs.Prelude.{◌≡◌, length, take, IfOk, IfErr};
ghost use Rattle.std.specs.List.{zip};
ghost use Rattle.jxlm_bits.specs.ErrorKind.{kind_of};
ghost use Rattle.jxlm_tree.specs.TreeReading.{IsOutOfMemory};

use super::ModularImageDestination;
use jxlm_base::grid::{AlignedGrid, OutOfMemory};
use jxlm_base::sample::Sample;
use jxlm_bits::decoder::Decoder;
use jxlm_bits::error::Result;
use jxlm_chain::undo::clone_all;
use jxlm_transform::channels::{ModularChannelInfo, ModularChannels};
use std::alloc::Global;
use std::marker::Model;
use std::vec;

/// The channels of an image in their order, each with what is known of it as it was given.
///
/// Contracts see it as the list of the pairs that are left.
pub struct ChannelsWithInfo<S> {
    grids: vec::IntoIter<AlignedGrid<S>>,
    infos: vec::IntoIter<ModularChannelInfo>,
}

impl<S> Model for ChannelsWithInfo<S> {
    ghost use Rattle.std.specs.Prelude.{◌≡◌, List, length};
    ghost use Rattle.std.specs.List.{zip};
    ghost use Rattle.std.specs.Vec.Iter.{into_iter_items};
    ghost use Rattle.jxlm_base.specs.Grid.{Grid};
    ghost use Rattle.jxlm_transform.specs.Channels.{Channel};

    ghost Value = { List (Grid S × Channel) };

    ghost view = { λ c. zip (into_iter_items c.grids) (into_iter_items c.infos) };

    ghost invariant = { λ c. length (into_iter_items c.infos) ≡ length (into_iter_items c.grids) };
}

impl<S: Drop> Drop for ChannelsWithInfo<S> {
    fn drop(self) {
        let ChannelsWithInfo { grids, infos } = self;
        drop(grids);
        drop(infos);
    }
}

impl<S: Drop> Iterator for ChannelsWithInfo<S> {
    ghost use Rattle.std.specs.Iterator.{YieldsFirst, item_count};

    type Item = (AlignedGrid<S>, ModularChannelInfo);

    ghost next_gives = { YieldsFirst (λ left. left) };

    ghost remaining = { item_count (λ left. left) };

    fn next(&mut self) -> Option<(AlignedGrid<S>, ModularChannelInfo)> {
        let info = self.infos.next();
        let Some(grid) = self.grids.next() else {
            return None;
        };
        Some((grid, info.unwrap()))
    }
}

/// The same channels, in the same places.
fn clone_channels(
    alloc: Global,
    channels: &ModularChannels,
) -> std::result::Result<ModularChannels, OutOfMemory>
    ensures placed { IfOk result (λ c. c.placed.items ≡ channels.now.placed.items) }
    ensures meta { IfOk result (λ c. c.nb_meta_channels ≡ channels.now.nb_meta_channels) }
{
    Ok(ModularChannels {
        placed: Vec::from_slice(alloc, &channels.placed)?,
        nb_meta_channels: channels.nb_meta_channels,
        buffers: channels.buffers,
    })
}

/// The same grids, in their order.
fn clone_grids<S: Sample>(
    alloc: Global,
    grids: &[AlignedGrid<S>],
) -> std::result::Result<Vec<AlignedGrid<S>>, OutOfMemory>
    ensures { IfOk result (λ v. v.items ≡ grids.now) }
{
    let mut clones = Vec::new(alloc);
    for grid in grids {
        clones.push(grid.try_clone(alloc)?)?;
    }
    Ok(clones)
}

impl<S: Sample, D: Decoder> ModularImageDestination<S, D> {
    ghost use Rattle.jxlm_base.specs.Regions.{store_meanings};
    ghost use Rattle.jxl_modular.specs.Image.{IsOnlyImage, coded_grids};
    ghost use Rattle.jxlm_transform.specs.Channels.{AreGridsOf};

    /// Whether a transform of the header is a palette.
    pub fn has_palette(&self) -> bool
        ensures { result ≡ self.now.has_palette }
    {
        self.header.has_palette()
    }

    /// Whether a transform of the header is a squeeze, also one without steps.
    pub fn has_squeeze(&self) -> bool
        ensures { result ≡ self.now.has_squeeze }
    {
        self.header.has_squeeze()
    }

    /// The same image, with its samples as they are: each can be decoded and finished without the other. The nodes of
    /// the tree are shared.
    ///
    /// # Memory
    ///
    /// That of all grids, of the lists of channels, of transforms and of what undoes them, and of the decoder.
    ///
    /// # Errors
    ///
    /// Out of memory alone: `Decoder(OutOfMemory)` from the decoder, or `Buffer`. This image stays.
    pub fn try_clone(&self, alloc: Global) -> Result<Self>
        ensures ok { IfOk result (λ c. c ≡ self.now) }
        ensures err { IfErr result (λ e. IsOutOfMemory (kind_of e)) }
    {
        Ok(ModularImageDestination {
            header: self.header.try_clone(alloc)?,
            ma_ctx: self.ma_ctx.try_clone(alloc)?,
            group_dim: self.group_dim,
            bit_depth: self.bit_depth,
            given: Vec::from_slice(alloc, &self.given)?,
            coded: clone_channels(alloc, &self.coded)?,
            store: clone_grids(alloc, &self.store)?,
            undoings: clone_all(alloc, &self.undoings)?,
        })
    }

    /// The channels as they are shown while the image is still decoded: the only ones that the transforms turn into the
    /// coded samples as they stand (ISO/IEC 18181-1, Modular: inverse transforms), with 0 for each that is not decoded
    /// yet. So after the first squeeze levels the picture is coarse.
    ///
    /// The transforms are undone in a clone. This image stays, to be decoded further. It is not finished yet: the
    /// samples of a finished image would be taken for coded ones.
    ///
    /// # Memory
    ///
    /// That of [`try_clone`](Self::try_clone), of which the channels are left, and some rows and columns of the largest
    /// grid.
    ///
    /// # Errors
    ///
    /// Out of memory alone: `Decoder(OutOfMemory)` from the decoder, or `Buffer`.
    pub fn shown(&self, alloc: Global) -> Result<Vec<AlignedGrid<S>>>
        ensures only { IfOk result (λ v. IsOnlyImage S.width self.now (store_meanings S.to_int v.items)
            (coded_grids S.to_int self.now)) }
        ensures sizes { IfOk result (λ v. AreGridsOf self.now.given v.items) }
        ensures err { IfErr result (λ e. IsOutOfMemory (kind_of e)) }
    {
        let mut copy = self.try_clone(alloc)?;
        copy.undo_transforms(alloc)?;
        Ok(copy.into_image_channels())
    }

    /// The channels of the image, as [`image_channels`](Self::image_channels) lends them; all else is let go.
    pub fn into_image_channels(self) -> Vec<AlignedGrid<S>>
        ensures grids { result.items ≡ take (length self.given) self.store }
        ensures sizes { AreGridsOf self.given result.items }
    {
        let ModularImageDestination { store, given, .. } = self;
        let mut channels = store;
        channels.truncate(given.len());
        channels
    }

    /// The channels of the image, as [`image_channels`](Self::image_channels) lends them, each with what is known of it
    /// as it was given; all else is let go.
    pub fn into_image_channels_with_info(self) -> ChannelsWithInfo<S>
        ensures pairs { result ≡ zip (take (length self.given) self.store) self.given }
        ensures each { length result ≡ length self.given }
    {
        let ModularImageDestination { given, store, .. } = self;
        let mut channels = store;
        channels.truncate(given.len());
        ChannelsWithInfo {
            grids: channels.into_iter(),
            infos: given.into_iter(),
        }
    }
}
