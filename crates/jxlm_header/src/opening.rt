//! The conditions on a header and the channels that it leaves, and the limits of the tree after it.

ghost use Rattle.std.specs.Prelude.{◌≡◌, ◌+◌, ◌*◌, ◌^◌, min, sum_by};
ghost use Rattle.jxlm_transform.specs.Channels.{infos};
ghost use Rattle.jxlm_transform.specs.Lists.{list_of};
ghost use Rattle.jxlm_header.specs.Header.{header_of};
ghost use Rattle.jxlm_header.specs.Opening.{CheckGives, conditions};

use crate::header::ModularHeader;
use jxlm_bits::bits::BitstreamError;
use jxlm_bits::error::{Error, Result};
use jxlm_transform::channels::{ModularChannels, PlacedChannel};

/// The maximum number of coded channels.
const MAX_CODED_CHANNELS: usize = 65536;

/// The maximum depth of a tree of an image's own.
pub const DEPTH_LIMIT: usize = 2048;

/// The maximum number of nodes, less one, that a tree of an image's own may have.
const MAX_NODE_LIMIT: u64 = 1 << 20;

/// The limit on the nodes of a tree of an image's own: by the number of samples of its channels.
pub fn node_limit(channels: &[PlacedChannel]) -> usize
    ensures { result ≡ min (1024 + sum_by (λ c. c.width * c.height) (infos channels.now)) (2 ^ 20) }
{
    let mut limit: u64 = 1024;
    for channel in channels {
        let area = u64::from(channel.info.width) * u64::from(channel.info.height);
        limit = (limit + area).min(MAX_NODE_LIMIT);
    }
    limit as usize
}

/// The conditions on a header and its coded channels, in order: at most 65536 channels are coded, and
/// a global tree that is asked for is there.
///
/// # Errors
///
/// `ProfileConformance` for more channels; `GlobalMaTreeNotAvailable` where there is no such tree.
pub fn check(header: &ModularHeader, channels: &ModularChannels, has_global: bool) -> Result<()>
    ensures { CheckGives (conditions has_global (header_of header.now) (list_of channels.now)) result }
{
    if channels.placed.len() > MAX_CODED_CHANNELS {
        let failure = BitstreamError::ProfileConformance("nb_channels_tr too large");
        return Err(Error::Bitstream(failure));
    }
    if header.use_global_tree && !has_global {
        return Err(Error::GlobalMaTreeNotAvailable);
    }
    Ok(())
}
