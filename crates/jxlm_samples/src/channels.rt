//! The channels of an image.

ghost use Rattle.std.specs.Prelude.{◌≡◌, ◌<◌, ◌↔◌, IsTrue, length};
ghost use Rattle.jxlm_transform.specs.Channels.{infos};
ghost use Rattle.jxlm_samples.specs.Part.{cell_count, max_width as the_maximum_width};
ghost use Rattle.jxlm_samples.specs.Reading.{sampled_width as the_sampled_width};
ghost use Rattle.jxlm_samples.specs.Reading.{walked_width as the_walked_width, width_in_state as the_width_in_state};

use crate::coding::ChannelTree;
use jxlm_transform::channels::{ModularChannelInfo, PlacedChannel};

/// The maximum width of the channels, also of those without samples; 0 where there are none.
pub fn max_width(channels: &[PlacedChannel]) -> u32
    ensures { result ≡ the_maximum_width (infos channels.now) }
{
    let mut widest = 0;
    for channel in channels {
        if channel.info.width > widest {
            widest = channel.info.width;
        }
    }
    widest
}

/// The maximum width of the channels that have samples; 0 where none has.
pub fn sampled_width(channels: &[PlacedChannel]) -> u32
    ensures { result ≡ the_sampled_width (infos channels.now) }
{
    let mut widest = 0;
    for channel in channels {
        if channel.info.height != 0 && channel.info.width > widest {
            widest = channel.info.width;
        }
    }
    widest
}

/// The width of a channel's rows where they are read in the state of the predictors; 0 where they are read by a leaf or
/// a table alone, or there are none.
fn width_in_state(channel: &ModularChannelInfo, tree: &ChannelTree) -> u32
    ensures { result ≡ the_width_in_state tree.now.alone channel.now }
{
    if channel.height == 0 || tree.alone.is_some() {
        0
    } else {
        channel.width
    }
}

/// The maximum width of the channels that have samples which are read in the state of the predictors, as these trees
/// say; 0 where none has.
pub fn walked_width(channels: &[PlacedChannel], flats: &[ChannelTree]) -> u32
    requires { length flats.now ≡ length channels.now }
    ensures { result ≡ the_walked_width (infos channels.now) flats.now (length channels.now) }
{
    let mut widest = 0;
    for i in 0..channels.len() {
        let width = width_in_state(&channels[i].info, &flats[i]);
        if width > widest {
            widest = width;
        }
    }
    widest
}

/// Whether some of the channels has samples.
pub fn have_samples(channels: &[PlacedChannel]) -> bool
    ensures { IsTrue result ↔ (0 < cell_count (infos channels.now)) }
{
    sampled_width(channels) > 0
}
