//! Laws of files, each the contract of a function that does nothing.

ghost use Rattle.std.specs.Prelude.{◌≡◌, ℕ, Bool, List, Option, Result};
ghost use Rattle.jxl_container.specs.Files.{HasCodestream, HasLaterError};
ghost use Rattle.jxl_container.specs.Metadata.{HasCompressed, HasDamagedExif, HasExif, HasXmp};
ghost use Rattle.jxl_container.specs.declared.error.FileError.{FileError};

/// A file has one codestream, or one reason why it has none: the boxes up to a place are the only ones.
pub fn each_file_has_one_codestream()
    ensures { (bytes : List ℕ) (r s : Result (List ℕ) FileError) → HasCodestream bytes r → HasCodestream bytes s
        → r ≡ s }
{}

/// The codestream of a file has one first error after it, or none.
pub fn each_file_has_one_later_error()
    ensures { (bytes : List ℕ) (e f : Option FileError) → HasLaterError bytes e → HasLaterError bytes f → e ≡ f }
{}

/// A file has one Exif data, or none, and one XMP data, or none; it has damaged or compressed ones, or not.
pub fn each_file_has_one_metadata()
    ensures exif { (bytes : List ℕ) (x y : Option (List ℕ)) → HasExif bytes x → HasExif bytes y → x ≡ y }
    ensures xmp { (bytes : List ℕ) (x y : Option (List ℕ)) → HasXmp bytes x → HasXmp bytes y → x ≡ y }
    ensures damaged { (bytes : List ℕ) (x y : Bool) → HasDamagedExif bytes x → HasDamagedExif bytes y → x ≡ y }
    ensures compressed { (kind : ℕ) (bytes : List ℕ) (x y : Bool) → HasCompressed kind bytes x
        → HasCompressed kind bytes y → x ≡ y }
{}
