//! The channels of an image, given and coded, for which headers are read.

ghost use Rattle.std.specs.Prelude.{◌≡◌, IfOk, IfSome};
ghost use Rattle.std.specs.List.{All};
ghost use Rattle.jxlm_transform.specs.Params.{IsGroupDim};

use crate::depth::{is_deeper, is_memory, tree_at, uses_global};
use jxlm_base::grid::OutOfMemory;
use jxlm_bits::bits::Bitstream;
use jxlm_bits::decoder::Decoder;
use jxlm_chain::placed::PlacedChannels;
use jxlm_groups::part::SectionPart;
use jxlm_groups::pass::Pass;
use jxlm_groups::pieces::pieces;
use jxlm_nested::opening::open;
use jxlm_transform::channels::{ModularChannelInfo, ModularChannels, image_channels};
use jxlm_transform::param::ModularChannelParams;
use jxlm_tree::ma::MaConfig;
use std::alloc::Global;

/// The channels of an image before any transform, and the side of its groups.
#[derive(Drop)]
pub struct GivenChannels {
    /// The channels.
    pub channels: Vec<ModularChannelInfo>,
    /// The side of a group.
    pub group_dim: u32,
}

/// The coded channels that an image's header leaves of the given ones, cut into groups.
#[derive(Drop)]
pub struct CodedChannels {
    /// The coded channels.
    pub channels: ModularChannels,
    /// The side of a group.
    pub group_dim: u32,
    /// The passes by which the groups are numbered.
    pub passes: Vec<Pass>,
}

impl GivenChannels {
    ghost use Rattle.std.specs.Option.{option_copied};
    ghost use Rattle.jxlm_bits.specs.Bits.{bytes_of, position_of};
    ghost use Rattle.jxlm_chain.specs.Placed.{IsPlaced};
    ghost use Rattle.jxlm_nested.specs.NestedParts.{nested_list};
    ghost use Rattle.jxlm_transform.specs.Channels.{image_list};
    ghost use Rattle.jxlm_transform.specs.Layout.{first_layout};
    ghost use Rattle.jxlm_transform.specs.Lists.{layout_of, list_of};
    ghost use Rattle.jxlm_transform.specs.Params.{IsValidChannel};
    ghost use Rattle.jxlm_tree_depth.specs.Depths.{DepthSays, OwnTreeIs};
    ghost use Rattle.jxlm_tree_depth.specs.Openings.{AreCoded, AreGiven, OpensCoded};

    /// The channels of these parameters.
    pub fn new(
        alloc: Global,
        params: &[ModularChannelParams],
        group_dim: u32,
    ) -> Result<GivenChannels, OutOfMemory>
        requires valid { All IsValidChannel params.now }
        requires groups { IsGroupDim group_dim }
        ensures channels { IfOk result (λ given. nested_list given.channels.items ≡ image_list params.now) }
        ensures group_dim { IfOk result (λ given. given.group_dim ≡ group_dim) }
        ensures given { IfOk result AreGiven }
    {
        match image_channels(alloc, params) {
            Ok(channels) => Ok(GivenChannels {
                channels,
                group_dim,
            }),
            Err(_) => Err(OutOfMemory),
        }
    }

    // The channels, each the whole of a buffer of its own.
    fn whole(&self, alloc: Global) -> Result<PlacedChannels, OutOfMemory>
        ensures list { IfOk result (λ p. list_of p.channels ≡ nested_list self.now.channels.items) }
        ensures layout { IfOk result (λ p. layout_of p.channels ≡ first_layout self.now.channels.items) }
        ensures placed { IfOk result (λ p. IsPlaced p) }
    {
        match PlacedChannels::whole(alloc, &self.channels) {
            Ok(placed) => Ok(placed),
            Err(_) => Err(OutOfMemory),
        }
    }

    /// Whether the header at the reader's position, for these channels, has a tree of its own that is deeper than this;
    /// not where header or tree has an error. `global` is the tree for a header that uses a global one.
    pub fn has_deep_tree<D: Decoder>(
        &self,
        alloc: Global,
        bits: Bitstream<'_>,
        global: Option<&MaConfig<D>>,
        deepest: u64,
    ) -> Result<bool, OutOfMemory>
        requires { AreGiven self.now }
        ensures { IfOk result (DepthSays D.meaning (option_copied global.entry) (nested_list self.now.channels.items)
            deepest (bytes_of bits.entry) (position_of bits.entry)) }
    {
        if uses_global(bits) {
            return Ok(false);
        }
        let whole = self.whole(alloc)?;
        is_deeper(alloc, bits, whole, global, deepest)
    }

    /// The tree that the header at the reader's position, for these channels, has of its own; none where it uses the
    /// global one, or header or tree has an error.
    pub fn own_tree<D: Decoder>(
        &self,
        alloc: Global,
        bits: Bitstream<'_>,
        global: Option<&MaConfig<D>>,
    ) -> Result<Option<MaConfig<D>>, OutOfMemory>
        requires { AreGiven self.now }
        ensures { IfOk result (OwnTreeIs D.meaning (option_copied global.entry) (nested_list self.now.channels.items)
            (bytes_of bits.entry) (position_of bits.entry)) }
    {
        if uses_global(bits) {
            return Ok(None);
        }
        let whole = self.whole(alloc)?;
        tree_at(alloc, bits, whole, global)
    }

    /// The coded channels that the header at the reader's position leaves, or none where it has an error.
    pub fn open(
        &self,
        alloc: Global,
        bits: Bitstream<'_>,
        passes: Vec<Pass>,
        has_global: bool,
    ) -> Result<Option<CodedChannels>, OutOfMemory>
        requires { AreGiven self.now }
        ensures opens { IfOk result (OpensCoded has_global (nested_list self.now.channels.items) self.now.group_dim
            passes.items (bytes_of bits.entry) (position_of bits.entry)) }
        ensures coded { IfOk result (λ made. IfSome made AreCoded) }
    {
        let whole = self.whole(alloc)?;
        let mut ahead = bits;
        match open(alloc, &mut ahead, whole, has_global) {
            Ok((header, placed)) => {
                drop(header);
                let PlacedChannels { channels, .. } = placed;
                Ok(Some(CodedChannels {
                    channels,
                    group_dim: self.group_dim,
                    passes,
                }))
            }
            Err(error) => {
                if is_memory(error) {
                    return Err(OutOfMemory);
                }
                Ok(None)
            }
        }
    }
}

impl CodedChannels {
    ghost use Rattle.std.specs.Option.{option_copied};
    ghost use Rattle.jxlm_bits.specs.Bits.{bytes_of, position_of};
    ghost use Rattle.jxlm_chain.specs.Placed.{IsPlaced};
    ghost use Rattle.jxlm_transform.specs.Channels.{IsNarrow, infos};
    ghost use Rattle.jxlm_transform.specs.Lists.{list_of};
    ghost use Rattle.jxlm_tree_depth.specs.Depths.{DepthSays, OwnTreeIs};
    ghost use Rattle.jxlm_tree_depth.specs.Openings.{AreCoded, list_of_part};

    // What a part has of the channels, as a header of its own finds it.
    fn part(&self, alloc: Global, part: SectionPart) -> Result<PlacedChannels, OutOfMemory>
        requires { AreCoded self.now }
        ensures list { IfOk result (λ p. list_of p.channels ≡ list_of_part self.now.group_dim self.now.passes.items
            (list_of self.now.channels) part) }
        ensures narrow { IfOk result (λ p. All IsNarrow (infos p.channels.placed.items)) }
        ensures placed { IfOk result (λ p. IsPlaced p) }
    {
        let pieces = pieces(alloc, &self.channels, self.group_dim, &self.passes, part)?;
        let channels = ModularChannels {
            placed: pieces,
            nb_meta_channels: 0,
            buffers: 0,
        };
        Ok(PlacedChannels::new(alloc, channels))
    }

    /// Whether the header of a part's own at the reader's position has a tree of its own that is deeper than this; not
    /// where header or tree has an error. `global` is the tree for a header that uses a global one.
    pub fn has_deep_tree<D: Decoder>(
        &self,
        alloc: Global,
        bits: Bitstream<'_>,
        part: SectionPart,
        global: Option<&MaConfig<D>>,
        deepest: u64,
    ) -> Result<bool, OutOfMemory>
        requires { AreCoded self.now }
        ensures { IfOk result (DepthSays D.meaning (option_copied global.entry) (list_of_part self.now.group_dim
            self.now.passes.items (list_of self.now.channels) part) deepest (bytes_of bits.entry)
            (position_of bits.entry)) }
    {
        if uses_global(bits) {
            return Ok(false);
        }
        let channels = self.part(alloc, part)?;
        is_deeper(alloc, bits, channels, global, deepest)
    }

    /// The tree that the header of a part's own at the reader's position has of its own; none where it uses the global
    /// one, or header or tree has an error.
    pub fn own_tree<D: Decoder>(
        &self,
        alloc: Global,
        bits: Bitstream<'_>,
        part: SectionPart,
        global: Option<&MaConfig<D>>,
    ) -> Result<Option<MaConfig<D>>, OutOfMemory>
        requires { AreCoded self.now }
        ensures { IfOk result (OwnTreeIs D.meaning (option_copied global.entry) (list_of_part self.now.group_dim
            self.now.passes.items (list_of self.now.channels) part) (bytes_of bits.entry)
            (position_of bits.entry)) }
    {
        if uses_global(bits) {
            return Ok(None);
        }
        let channels = self.part(alloc, part)?;
        tree_at(alloc, bits, channels, global)
    }
}
