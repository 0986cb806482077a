//! The sections of a picture's only frame.

ghost use Rattle.std.specs.Prelude.{◌≡◌, ◌≤◌, IfErr, IfOk, length, map};
ghost use Rattle.jxlm_encode.specs.declared.error.EncodeError.TheVariants.{OutOfMemory as Memory};
ghost use Rattle.jxlm_tree.specs.declared.ma.MaConfigParams.{MaConfigParams as Params};
ghost use Rattle.jxl_codestream.specs.LayoutParts.{parts_of};
ghost use Rattle.jxl_codestream.specs.Starts.{tree_limit as the_tree_limit};
ghost use Rattle.jxl_image_header.specs.Images.{image_of};
ghost use Rattle.jxl_picture.specs.Limits.{channel_count};
ghost use Rattle.jxl_picture.specs.Pictures.{IsWhole};
ghost use Rattle.jxl_encode_tree.specs.Trees.{IsNoTree};
ghost use Rattle.jxl_encode.specs.Codable.{IsCodable};
ghost use Rattle.jxl_encode.specs.Frames.{AreSectionsOf, cut_of};
ghost use Rattle.jxl_encode.specs.Inner.Frames.{AreGiven};

use jxl_codestream::layout::Layout;
use jxl_codestream::start::tree_limit;
use jxl_encode_image::transform::ImagePlan;
use jxl_encode_sections::frame::{FrameCut, FrameTree, encode_sections};
use jxl_encode_ways::advice::Advice;
use jxl_encode_ways::grids::copies_of;
use jxl_image_header::image::ImageHeader;
use jxl_picture::picture::{Picture, colours};
use jxlm_base::grid::OutOfMemory;
use jxlm_encode::error::EncodeError;
use jxlm_encode_write::tree::EncodeNode;
use jxlm_predictor::predictor::Predictor;
use jxlm_transform::param::ModularChannelParams;
use jxlm_tree::ma::MaConfigParams;
use std::alloc::Global;

/// The side of a group is 128 times 2 to the power of this.
pub(crate) const GROUP_SHIFT: u32 = 1;

/// The side of a group.
pub(crate) const GROUP_DIM: u32 = 256;

/// The maximum depth of the tree: the default limit on decisions for a sample.
const MAX_DEPTH: usize = 128;

/// What the sections of a frame are written from: the picture, its channels, the frame's groups, and how many places of equal
/// tokens are tried for a copy, if copies are looked for.
#[derive(Clone, Copy)]
pub(crate) struct FrameInput<'a> {
    pub(crate) picture: &'a Picture,
    pub(crate) given: &'a [ModularChannelParams],
    pub(crate) layout: &'a Layout,
    pub(crate) copies: Option<usize>,
}

/// How large the tree of a frame may be, in a picture with this header.
fn limits_of(header: &ImageHeader) -> MaConfigParams
    requires { length header.now.ec_info.items ≤ 4096 }
    ensures { result ≡ record {
      node_limit = the_tree_limit header.now.size (channel_count (image_of header.now));
      depth_limit = 128;
    } }
{
    let channels = (colours(header) + header.ec_info.len()) as u64;
    MaConfigParams {
        node_limit: tree_limit(header.size, channels),
        depth_limit: MAX_DEPTH,
    }
}

/// The sections of the frame by the transforms of this plan and the tree of these nodes, whose leaves have these clusters.
fn sections_by_tree(
    alloc: Global,
    input: &FrameInput<'_>,
    plan: &ImagePlan<'_>,
    nodes: &[EncodeNode],
    clusters: &[u8],
) -> Result<Vec<Vec<u8>>, EncodeError>
    requires codable { IsCodable input.now.picture.now }
    requires whole { IsWhole (image_of input.now.picture.now.header) input.now.picture.now.channels.items }
    requires given { AreGiven (image_of input.now.picture.now.header) input.now.given.now }
    requires layout { parts_of input.now.layout.now ≡ cut_of (image_of input.now.picture.now.header) }
    ensures ok { IfOk result (λ v. AreSectionsOf input.now.picture.now (map (λ s. s.items) v.items)) }
    ensures err { IfErr result (λ e. IsNoTree nodes.now clusters.now
        (record {
          node_limit = the_tree_limit input.now.picture.now.header.size
              (channel_count (image_of input.now.picture.now.header));
          depth_limit = 128;
        }) e) }
{
    let grids = copies_of(alloc, &input.picture.channels)?;
    let tree = FrameTree {
        nodes,
        clusters,
        limits: limits_of(&input.picture.header),
        copies: input.copies,
    };
    let cut = FrameCut {
        group_dim: GROUP_DIM,
        layout: input.layout,
    };
    encode_sections(alloc, input.given, grids, plan, &tree, &cut)
}

/// The sections of the frame by the transforms of this plan, each sample by the gradient.
fn plain_sections(
    alloc: Global,
    input: &FrameInput<'_>,
    plan: &ImagePlan<'_>,
) -> Result<Vec<Vec<u8>>, EncodeError>
    requires codable { IsCodable input.now.picture.now }
    requires whole { IsWhole (image_of input.now.picture.now.header) input.now.picture.now.channels.items }
    requires given { AreGiven (image_of input.now.picture.now.header) input.now.given.now }
    requires layout { parts_of input.now.layout.now ≡ cut_of (image_of input.now.picture.now.header) }
    ensures ok { IfOk result (λ v. AreSectionsOf input.now.picture.now (map (λ s. s.items) v.items)) }
    ensures err { IfErr result (λ e. e ≡ Memory) }
{
    let leaf = EncodeNode::Leaf {
        predictor: Predictor::Gradient,
        offset: 0,
    };
    sections_by_tree(alloc, input, plan, &[leaf], &[0])
}

/// The sections of the frame by this advice; where its nodes are no tree, by the gradient.
pub(crate) fn frame_sections(
    alloc: Global,
    input: &FrameInput<'_>,
    advice: &Advice,
) -> Result<Vec<Vec<u8>>, EncodeError>
    requires codable { IsCodable input.now.picture.now }
    requires whole { IsWhole (image_of input.now.picture.now.header) input.now.picture.now.channels.items }
    requires given { AreGiven (image_of input.now.picture.now.header) input.now.given.now }
    requires layout { parts_of input.now.layout.now ≡ cut_of (image_of input.now.picture.now.header) }
    ensures ok { IfOk result (λ v. AreSectionsOf input.now.picture.now (map (λ s. s.items) v.items)) }
    ensures err { IfErr result (λ e. e ≡ Memory) }
{
    let plan = ImagePlan {
        palettes: &advice.palettes,
        colour: advice.colour,
    };
    match sections_by_tree(alloc, input, &plan, &advice.nodes, &advice.clusters) {
        Ok(sections) => Ok(sections),
        Err(EncodeError::InvalidTree) => plain_sections(alloc, input, &plan),
        Err(_) => Err(EncodeError::OutOfMemory),
    }
}
