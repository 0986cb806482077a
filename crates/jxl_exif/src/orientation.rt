//! The orientation in Exif data: how the picture is to be turned, from 1 to 8.

ghost use Rattle.std.specs.Prelude.{◌≡◌, ◌+◌, ◌≤◌, length, IfNone, IfSome};
ghost use Rattle.jxl_exif.specs.Orientations.{IsOrientationOf, IsUprightOf, Says, SaysNone};
ghost use Rattle.jxl_exif.specs.Tiff.{u16_of};

use crate::tiff::{ByteOrder, byte_order, first_entry, short_in};

/// The tag of the orientation.
const ORIENTATION: u16 = 0x0112;

// An orientation, and where it is in the data: two bytes in this order.
#[derive(Clone, Copy)]
struct Orientation {
    order: ByteOrder,
    at: usize,
    value: u16,
}

// The orientation in the data, if they say one.
fn find_orientation(exif: &[u8]) -> Option<Orientation>
    ensures some { IfSome result (λ o. Says o.order exif.now o.at o.value) }
    ensures within { IfSome result (λ o. o.at + 4 ≤ length exif.now) }
    ensures none { IfNone result (SaysNone exif.now) }
{
    let Some(order) = byte_order(exif) else {
        return None;
    };
    let ifd = order.u32_at(exif, 4) as usize;
    let Some(entry) = first_entry(order, exif, ifd, ORIENTATION) else {
        return None;
    };
    let Some(value) = short_in(order, exif, entry) else {
        return None;
    };
    if 1 <= value && value <= 8 {
        let at = entry + 8;
        Some(Orientation { order, at, value })
    } else {
        None
    }
}

/// The orientation in Exif data, which begin with a TIFF header: from 1 to 8, as in an image header. It is 1 if they
/// say none: without a header or an entry, with an entry that is not one SHORT, or with another number.
pub fn orientation_of(exif: &[u8]) -> u32
    ensures value { IsOrientationOf exif.now result }
    ensures least { 1 ≤ result }
    ensures most { result ≤ 8 }
{
    match find_orientation(exif) {
        Some(orientation) => u32::from(orientation.value),
        None => 1,
    }
}

// The two bytes of 1 in this order.
fn bytes_of_one(order: ByteOrder) -> (u8, u8)
    ensures { u16_of order result.0 result.1 ≡ 1 }
{
    match order {
        ByteOrder::Little => (1, 0),
        ByteOrder::Big => (0, 1),
    }
}

/// Sets the orientation in Exif data to 1, if they say one. No other byte changes.
pub fn set_upright(exif: &mut [u8])
    ensures upright { IsUprightOf exif.old exif.new }
    ensures said { IsOrientationOf exif.new 1 }
    ensures same { IsOrientationOf exif.old 1 → exif.new ≡ exif.old }
{
    if let Some(Orientation { order, at, .. }) = find_orientation(exif) {
        let (first, second) = bytes_of_one(order);
        exif[at] = first;
        exif[at + 1] = second;
    }
}
