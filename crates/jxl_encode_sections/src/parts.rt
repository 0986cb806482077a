//! The tokens of the parts of an image.

ghost use Rattle.std.specs.Prelude.{◌≡◌, IfOk};
ghost use Rattle.jxlm_groups.specs.declared.part.SectionPart.{SectionPart as APart};
ghost use Rattle.jxlm_tree.specs.Tree.{AllLeaves};
ghost use Rattle.jxlm_encode_tokens.specs.Tokens.{MultipliesByOne};
ghost use Rattle.jxlm_transform.specs.Lists.{list_of};
ghost use Rattle.jxlm_transform.specs.Params.{IsGroupDim};
ghost use Rattle.jxl_encode_image.specs.Images.{LieCoded, samples_in};
ghost use Rattle.jxl_encode_sections.specs.Inner.Parts.{AreTokensIn};

use jxl_coding::decoder::EntropyDecoder;
use jxl_encode_image::image::CodedImage;
use jxlm_base::grid::OutOfMemory;
use jxlm_base::sample::Sample;
use jxlm_bit_writer::token::Token;
use jxlm_encode_tokens::part::clustered_tokens;
use jxlm_groups::part::SectionPart;
use jxlm_groups::pass::Pass;
use jxlm_samples::part::PlacedPart;
use jxlm_tree::ma::MaConfig;
use jxlm_weighted::weights::WpHeader;
use std::alloc::Global;

/// A part of an image, and the tokens of its samples.
#[derive(Drop)]
pub(crate) struct PartTokens {
    /// The part.
    pub(crate) part: SectionPart,
    /// The tokens of its samples, in the order of its cells.
    pub(crate) tokens: Vec<Token>,
}

/// The tokens of the samples of a part, by this tree and in this stream.
pub(crate) fn part_tokens<S: Sample>(
    alloc: Global,
    coded: &CodedImage<S>,
    config: &MaConfig<EntropyDecoder>,
    group_dim: u32,
    passes: &[Pass],
    part: SectionPart,
    stream_index: u32,
) -> Result<Vec<Token>, OutOfMemory>
    requires group_dim { IsGroupDim group_dim }
    requires lie { LieCoded coded.now.channels coded.now.store.items }
    requires multipliers { AllLeaves MultipliesByOne config.now.tree }
    ensures { IfOk result (λ v. AreTokensIn S.width group_dim passes.now (record {
      list = list_of coded.now.channels;
      samples = samples_in S.to_int coded.now.channels coded.now.store.items;
    })
        config.now.tree part stream_index v.items) }
{
    let channels = coded.part(alloc, group_dim, passes, part)?;
    let placed = PlacedPart {
        channels: &channels,
        config,
        weights: WpHeader::default(),
        stream_index,
    };
    let tokens = clustered_tokens(alloc, &placed, &coded.store)?;
    Ok(tokens)
}
