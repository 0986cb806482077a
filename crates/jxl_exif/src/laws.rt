//! Laws of orientations.

ghost use Rattle.jxl_exif.specs.Orientations.{HaveOneOrientation};

/// Exif data have one orientation.
pub fn each_exif_has_one_orientation()
    ensures { HaveOneOrientation }
{}
