//! What the first section of a frame has before its image: the tree that sections share.

ghost use Rattle.std.specs.Prelude.{◌≡◌, IfErr, IfOk};
ghost use Rattle.jxlm_bits.specs.Bits.{bytes_of, position_of};
ghost use Rattle.jxl_lossless.specs.Frames.{SharedTree};
ghost use Rattle.jxl_lossless.specs.Inner.Coded.{StartFails};

use crate::error::FileError;
use jxl_codestream::start::{section_start, tree_limit};
use jxl_image_header::size::Size;
use jxlm_bits::bits::Bitstream;
use jxlm_bits::decoder::Decoder;
use jxlm_bits::error::Error;
use jxlm_tree::ma::{MaConfig, MaConfigParams};
use std::alloc::Global;

/// The tree that sections share, where there is one, of a frame of this size with this number of channels, and at most
/// this deep. The reader is left before the header of the image.
pub fn shared_tree<D: Decoder>(
    alloc: Global,
    bits: &mut Bitstream<'_>,
    size: Size,
    channels: usize,
    deepest: u64,
) -> Result<Option<MaConfig<D>>, FileError>
    ensures ok { IfOk result (λ tree. SharedTree D.meaning size channels deepest (bytes_of bits.old)
        (position_of bits.old) tree (position_of bits.new)) }
    ensures err { IfErr result (StartFails D.meaning size channels deepest (bytes_of bits.old) (position_of bits.old)) }
    ensures bytes { bytes_of bits.new ≡ bytes_of bits.old }
{
    match section_start(bits) {
        Ok(there) => {
            if !there {
                return Ok(None);
            }
        }
        Err(error) => return Err(FileError::Start(Error::Bitstream(error))),
    }
    let params = MaConfigParams {
        node_limit: tree_limit(size, channels as u64),
        depth_limit: 2048,
    };
    match MaConfig::<D>::parse(alloc, bits, params) {
        Ok(tree) => {
            if tree.tree_depth() as u64 > deepest {
                return Err(FileError::TooManyDecisions);
            }
            Ok(Some(tree))
        }
        Err(error) => Err(FileError::Tree(error)),
    }
}
