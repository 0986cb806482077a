//! What the four slots hold, in which frames are saved.

ghost use Rattle.std.specs.Prelude.{◌≡◌, ◌<◌, [], None, Some, get_or, length, option_copied, option_map, set};
ghost use Rattle.jxl_patches.specs.Patched.{channel_of};
ghost use Rattle.jxl_blending.specs.SingleGrids.{singles_of};
ghost use Rattle.jxl_patches.specs.Slots.{no_slots, saved_in, saved_with, single_of};
ghost use Rattle.jxl_patches.specs.SavedParts.{frames_in, sizes_in, singles_in, slots_of};

use jxl_blending::singles::Singles;
use jxl_image_header::size::Size;
use jxlm_base::grid::AlignedGrid;

/// A frame that was saved: how large it is, and its channels. Of a frame that was blended what these stood for before they
/// were rounded.
#[derive(Drop)]
pub struct SavedFrame {
    pub size: Size,
    pub channels: Vec<AlignedGrid<i32>>,
    pub singles: Option<Vec<Singles>>,
}

/// The frames that were saved: of each slot the frame that it holds, or none.
#[derive(Drop)]
pub struct SavedFrames {
    pub slots: [Option<SavedFrame>; 4],
}

// Puts a frame in the place of a slot's.
fn keep(slots: &mut [Option<SavedFrame>], slot: u32, frame: SavedFrame)
    ensures { slots.new ≡ set slots.old slot (Some frame) }
{
    let place = slot as usize;
    if place < slots.len() {
        slots[place] = Some(frame);
    }
}

impl SavedFrames {
    /// Four slots that hold no frame.
    pub fn none() -> SavedFrames
        ensures { slots_of result ≡ no_slots }
    {
        SavedFrames {
            slots: [None, None, None, None],
        }
    }

    /// Saves the channels of a frame of this size in a slot, in place of those that it held.
    pub fn save(&mut self, slot: u32, size: Size, channels: Vec<AlignedGrid<i32>>)
        ensures { slots_of self.new ≡ saved_in (slots_of self.old) slot size channels.items }
    {
        self.save_with(slot, size, channels, None);
    }

    /// The same, and of a frame that was blended what its samples stood for.
    pub fn save_with(
        &mut self,
        slot: u32,
        size: Size,
        channels: Vec<AlignedGrid<i32>>,
        singles: Option<Vec<Singles>>,
    )
        ensures { slots_of self.new ≡ saved_with (slots_of self.old) slot size channels.items (singles_in singles) }
    {
        let frame = SavedFrame {
            size,
            channels,
            singles,
        };
        keep(&mut self.slots, slot, frame);
    }

    /// How large the frame is that a slot holds.
    pub fn size(&self, slot: u32) -> Option<Size>
        ensures { result ≡ get_or (sizes_in self.now) slot None }
    {
        match self.slots.get(slot as usize) {
            Some(Some(frame)) => Some(frame.size),
            _ => None,
        }
    }

    /// A channel of the frame that a slot holds.
    pub fn channel(&self, slot: u32, channel: usize) -> &AlignedGrid<i32>
        requires slot { slot < length (frames_in self.now) }
        requires channel { channel < length (get_or (frames_in self.now) slot []) }
        ensures { result.now ≡ channel_of (frames_in self.now) slot channel }
    {
        match &self.slots[slot as usize] {
            Some(frame) => &frame.channels[channel],
            None => unreachable!(),
        }
    }

    /// What the samples of a channel of this frame stood for, if it was blended.
    pub fn singles(&self, slot: u32, channel: usize) -> Option<&Singles>
        ensures { option_map singles_of (option_copied result) ≡ single_of (slots_of self.now) slot channel }
    {
        match self.slots.get(slot as usize) {
            Some(Some(frame)) => match &frame.singles {
                Some(singles) => singles.get(channel),
                None => None,
            },
            _ => None,
        }
    }
}
