//! Laws of files.

ghost use Rattle.std.specs.Prelude.{ℕ, List};
ghost use Rattle.jxl_netpbm_read.specs.Files.{HasOnePicture};

/// No file is one of two pictures.
pub fn files_have_one_picture()
    ensures { (file : List ℕ) → HasOnePicture file }
{}
