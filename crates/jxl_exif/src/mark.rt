//! The mark before the TIFF header of Exif data in JPEG files.

ghost use Rattle.std.specs.Prelude.{◌≡◌};
ghost use Rattle.jxl_exif.specs.Marks.{from_header};

/// `Exif` and two null bytes.
const MARK: [u8; 6] = [0x45, 0x78, 0x69, 0x66, 0, 0];

/// Removes `Exif` and two null bytes if the data begin with them, as Exif data of JPEG files do: other files hold the data
/// from the TIFF header on.
pub fn remove_mark(exif: &mut Vec<u8>)
    ensures { exif.new.items ≡ from_header exif.old.items }
{
    if exif.starts_with(&MARK) {
        exif.drain(..MARK.len());
    }
}
