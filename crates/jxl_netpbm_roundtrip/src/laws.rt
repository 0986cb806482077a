//! The law of pictures that are written and read again.

ghost use Rattle.jxl_netpbm_roundtrip.specs.RoundTrip.{WrittenAreRead};

/// A picture that was written in a netpbm format is the one that the file is read as.
pub fn written_pictures_are_read()
    ensures { WrittenAreRead }
{}
