//! Data that a file may have beside its picture: an ICC profile, Exif data and XMP data.

ghost use Rattle.std.specs.Prelude.{◌≡◌, ◌||◌, is_some};
ghost use Rattle.jxl_command.specs.Extras.{path_of as the_path};

/// Data that a file may have beside its picture.
#[derive(Clone, Copy)]
pub enum Extra {
    /// The ICC profile.
    Profile,
    /// The Exif data.
    Exif,
    /// The XMP data.
    Xmp,
}

/// Where a program reads or writes these data: the paths of its command line.
#[derive(Clone, Copy)]
pub struct ExtraPaths<'a> {
    pub icc: Option<&'a str>,
    pub exif: Option<&'a str>,
    pub xmp: Option<&'a str>,
}

impl<'a> ExtraPaths<'a> {
    /// Whether the command line has one of them.
    pub fn has_some(&self) -> bool
        ensures { result ≡ (is_some self.now.icc || is_some self.now.exif || is_some self.now.xmp) }
    {
        self.icc.is_some() || self.exif.is_some() || self.xmp.is_some()
    }

    /// The path of these data, which is empty if the command line has none.
    pub fn path_of(&self, extra: Extra) -> &'a str
        ensures { result.now ≡ the_path self.now extra }
    {
        let path = match extra {
            Extra::Profile => self.icc,
            Extra::Exif => self.exif,
            Extra::Xmp => self.xmp,
        };
        path.unwrap_or("")
    }
}

/// A stream of each of these data.
#[derive(Drop)]
pub struct Extras<F> {
    pub profile: F,
    pub exif: F,
    pub xmp: F,
}
