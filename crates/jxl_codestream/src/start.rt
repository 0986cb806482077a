//! What the first section of a Modular frame begins with.

ghost use Rattle.std.specs.Prelude.{◌≡◌};
ghost use Rattle.jxlm_bits.specs.Bits.{bytes_of, position_of};
ghost use Rattle.jxlm_bits.specs.Grammar.{Reads, HasRead};
ghost use Rattle.jxl_codestream.specs.Starts.{section_start as the_section_start, tree_limit as the_tree_limit};

use jxl_image_header::fields::{Result, bundle_follows, skip_if};
use jxl_image_header::size::Size;
use jxlm_bits::bits::Bitstream;

/// What the first section of a Modular frame without patches, splines and noise begins with: it passes the factors of
/// low frequencies, and returns whether a tree follows that sections may share. After that tree, or at once, comes the
/// header of the Modular image.
pub fn section_start(bits: &mut Bitstream<'_>) -> Result<bool>
    ensures { HasRead Reads (λ v. v) result bits.old bits.new the_section_start }
{
    let follows = bundle_follows(bits, true)?;
    skip_if(bits, follows, 6)?;
    bits.read_bool()
}

/// The limit of nodes of that tree, in a frame of this size with this number of channels: it may have one node more
/// than this.
pub fn tree_limit(size: Size, channels: u64) -> usize
    ensures { result ≡ the_tree_limit size channels }
{
    let pixels = u64::from(size.width) * u64::from(size.height);
    let nodes = pixels.saturating_mul(channels) / 16;
    let limit = nodes.saturating_add(1024);
    if limit < 1 << 22 {
        limit as usize
    } else {
        1 << 22
    }
}
