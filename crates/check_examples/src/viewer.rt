//! A viewer: it shows a picture while its parts come.

ghost use Rattle.std.specs.Prelude.{IfOk};
ghost use Rattle.jxl_modular.specs.GroupParts.{image_of};
ghost use Rattle.jxl_modular.specs.Image.{IsOnlyImage, coded_grids};
ghost use Rattle.jxl_modular.specs.Regions.{store_meanings};

use jxl_modular::bits::Bitstream;
use jxl_modular::decoder::Decoder;
use jxl_modular::grid::AlignedGrid;
use jxl_modular::groups::{Part, TransformedGlobalModular};
use jxl_modular::image::ModularImageDestination;
use jxl_modular::{MaConfig, Result, Sample};
use std::alloc::Global;
use std::collections::BTreeMap;

/// What shows the channels of a picture.
pub trait Screen<S> {
    /// Shows them as they are now.
    fn draw(&mut self, channels: &[AlignedGrid<S>]);
}

/// The bytes of a part, or as many of them as have come.
#[derive(Clone, Copy)]
pub struct Arrival<'a> {
    pub part: Part,
    pub bytes: &'a [u8],
    pub stream_index: u32,
}

/// Decodes what has come of a part that has a header of its own, and returns the picture as it is then; `global` is the
/// tree for a header that uses a global one.
pub fn refined<S: Sample, D: Decoder>(
    alloc: Global,
    groups: &mut TransformedGlobalModular<'_, S, D>,
    arrival: Arrival<'_>,
    global: Option<&MaConfig<D>>,
) -> Result<Vec<AlignedGrid<S>>>
    ensures { IfOk result (λ channels. IsOnlyImage S.width (image_of groups.new)
        (store_meanings S.to_int channels.items) (coded_grids S.to_int (image_of groups.new))) }
{
    let mut bits = Bitstream::new(arrival.bytes);
    let index = arrival.stream_index;
    match groups.decode_nested(alloc, arrival.part, &mut bits, index, global, true) {
        Err(e) if !e.unexpected_eof() => return Err(e),
        // Decoded, as far as it has come; or its header has not come yet.
        _ => {}
    }
    groups.shown(alloc)
}

/// Follows a picture whose header was read from `bits`: it is shown after the global part, and after each arrival.
pub fn follow<S: Sample, D: Decoder, T: Screen<S>>(
    alloc: Global,
    image: &mut ModularImageDestination<S, D>,
    bits: &mut Bitstream<'_>,
    global: Option<&MaConfig<D>>,
    arrivals: &[Arrival<'_>],
    screen: &mut T,
) -> Result<()> {
    image.prepare_gmodular(alloc)?.decode(alloc, bits, 0, true)?;
    screen.draw(&image.shown(alloc)?);
    let mut passes = BTreeMap::new(alloc);
    passes.insert(0, (0, 3))?;
    if image.can_group(&passes) {
        let mut groups = image.prepare_groups(alloc, &passes)?;
        for arrival in arrivals {
            screen.draw(&refined(alloc, &mut groups, *arrival, global)?);
        }
    }
    Ok(())
}
