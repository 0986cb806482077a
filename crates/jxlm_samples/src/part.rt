//! A part decoded whole: from what is made ready for it to the decoder's last word.

ghost use Rattle.std.specs.Prelude.{◌≡◌, ◌↔◌, ◌<◌, ◌≤◌, ◌^◌, ◌*◌, ℕ, IfErr, IfOk, IsOk, IsTrue, length};
ghost use Rattle.jxlm_tree.specs.FlatTree.{ClustersStandIn};
ghost use Rattle.jxlm_weighted.specs.SelfCorrecting.{IsHeader};
ghost use Rattle.jxlm_bits.specs.Bits.{bytes_of, position_of};
ghost use Rattle.jxlm_tree.specs.TreeReading.{IsOutOfMemory};
ghost use Rattle.jxlm_bits.specs.ErrorKind.{kind_of};
ghost use Rattle.jxlm_transform.specs.Channels.{infos, regions};
ghost use Rattle.jxlm_samples.specs.Decode.{DecodeGives, MovesWithin};
ghost use Rattle.jxlm_samples.specs.Part.{cell_count};
ghost use Rattle.jxlm_samples.specs.Reading.{sampled_width as the_sampled_width};
ghost use Rattle.jxlm_samples.specs.Placed.{PartLies, most_steps, part_placed, standing_in};
ghost use Rattle.jxlm_samples.specs.Progress.{KeepsOutside};
ghost use Rattle.jxlm_samples.specs.Inner.Ended.{IsAnswered};
ghost use Rattle.jxlm_samples.specs.Inner.Ready.{IsReadyFor};

use crate::channels::{have_samples, max_width, sampled_width, walked_width};
use crate::coding::{PartCoding, PartState, Ready, flat_trees, roomy_state};
use crate::decode::decode_part;
use crate::source::{Source, Walk};
use jxlm_base::grid::AlignedGrid;
use jxlm_base::sample::Sample;
use jxlm_bits::bits::Bitstream;
use jxlm_bits::decoder::{Decoder, DecoderError};
use jxlm_bits::error::{Error, Result};
use jxlm_transform::channels::PlacedChannel;
use jxlm_tree::flat::Steps;
use jxlm_tree::ma::MaConfig;
use jxlm_weighted::weights::WpHeader;
use std::alloc::Global;
use std::mem;

/// A part of an image: some channels, which lie in a store of grids, and the tree that their samples are read with.
#[derive(Drop)]
pub struct PlacedPart<'a, D: Decoder> {
    /// Its channels, in order, and their regions in the store.
    pub channels: &'a [PlacedChannel],
    /// Its tree.
    pub config: &'a MaConfig<D>,
    /// The weights of the weighted (self-correcting) predictor.
    pub weights: WpHeader,
    /// The index of its stream.
    pub stream_index: u32,
}

impl<'a, D: Decoder> PlacedPart<'a, D> {
    /// Whether the part has samples.
    pub fn has_samples(&self) -> bool
        ensures { IsTrue result ↔ (0 < cell_count (infos self.now.channels.now)) }
    {
        have_samples(self.channels)
    }

    /// What is made ready before the first bit of the samples is read. Out of memory is its only error.
    fn ready<S: Sample>(&self, alloc: Global) -> Result<Ready<S, D>>
        requires widest { the_sampled_width (infos self.now.channels.now) ≤ 2 ^ 30 }
        requires weights { IsHeader self.now.weights }
        requires few { length self.now.channels.now ≤ 65536 }
        ensures ok { IfOk result (λ r. IsReadyFor self.now r) }
        ensures clusters { IfOk result (λ r. ClustersStandIn (D.meaning.cluster_map r.decoder)
            self.now.config.now.tree) }
        ensures err { IfErr result (λ e. IsOutOfMemory (kind_of e)) }
    {
        let decoder = self.config.decoder().try_clone(alloc)?;
        let flats = flat_trees(
            alloc,
            self.config,
            self.stream_index,
            self.channels.len() as u32,
            self.channels,
        )?;
        let widest = walked_width(self.channels, &flats);
        let samples = sampled_width(self.channels);
        let state = roomy_state(alloc, &flats, widest, samples, &self.weights)?;
        Ok(Ready {
            decoder,
            flats,
            state,
        })
    }

    /// Decodes all samples of the part, into its regions of the store (ISO/IEC 18181-1, Modular: decoding of samples).
    /// All memory is taken before the first bit is read. `partial` becomes false where the part is decoded whole.
    ///
    /// # Errors
    ///
    /// The decoder's error: of its `begin`, of the read of one sample, or of its `finalize`; with `allow_partial` it is
    /// Ok where the input ends, and `partial` stays. The samples before are then decoded and the others as before, and
    /// the reader is where that call began. Out of memory, `Buffer` or `Decoder(OutOfMemory)`, changes nothing.
    pub fn decode<S: Sample>(
        &self,
        alloc: Global,
        bits: &mut Bitstream<'_>,
        store: &mut [AlignedGrid<S>],
        allow_partial: bool,
        partial: &mut bool,
        steps: &mut Steps,
    ) -> Result<()>
        requires lies { PartLies self.now store.old }
        ensures answers { (tried : ℕ) × DecodeGives D.meaning S.width (part_placed self.now) (bytes_of bits.old)
            self.now.config.now.decoder
            (standing_in S.to_int (regions self.now.channels.now) store.old (position_of bits.old) partial.old)
            (standing_in S.to_int (regions self.now.channels.now) store.new (position_of bits.new) partial.new)
            allow_partial result tried × MovesWithin steps.old steps.new (tried * most_steps self.now) }
        ensures empty { cell_count (infos self.now.channels.now) ≡ 0 → IsOk result }
        ensures keeps { KeepsOutside (regions self.now.channels.now) store.old store.new }
        ensures bytes { bytes_of bits.new ≡ bytes_of bits.old }
    {
        if !self.has_samples() {
            *partial = false;
            return Ok(());
        }
        let Ready {
            decoder,
            flats,
            state,
        } = self.ready(alloc)?;
        let coding = PartCoding {
            channels: self.channels,
            config: self.config,
            flats: &flats,
            weights: self.weights,
            stream_index: self.stream_index,
            widest: max_width(self.channels),
        };
        let PartState { predictor, mut row } = state;
        let mut walk = Walk {
            source: Source {
                decoder,
                bits: *bits,
                steps: mem::replace(steps, Steps::new()),
            },
            state: predictor,
        };
        let decoded = decode_part(&mut walk, &coding, store, &mut row);
        let Walk { source, .. } = walk;
        *bits = source.bits;
        *steps = source.steps;
        answer(decoded, allow_partial, partial)
    }
}

/// What is answered where the decode of a part's samples ended so. `partial` becomes false where they were all decoded.
fn answer(
    decoded: std::result::Result<(), DecoderError>,
    allow_partial: bool,
    partial: &mut bool,
) -> Result<()>
    ensures { IsAnswered decoded allow_partial partial.old partial.new result }
{
    match decoded {
        Ok(()) => *partial = false,
        Err(e) if allow_partial && e.unexpected_eof() => {}
        Err(e) => return Err(Error::Decoder(e)),
    }
    Ok(())
}
