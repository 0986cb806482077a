//! The formats of the output.

ghost use Rattle.std.specs.Prelude.{◌≡◌, ◌↔◌, IsTrue};
ghost use Rattle.jxl_image_header.specs.Images.{image_of};
ghost use Rattle.jxldec_lines.specs.Formats.{chosen, suits_output};

use jxl_image_header::image::ImageHeader;
use jxl_netpbm::format::Format;
use jxl_png_write::picture::suits_png;

/// A format in which a picture is written.
#[derive(Clone, Copy)]
pub enum OutputFormat {
    /// A netpbm format, or decimal numbers.
    Netpbm(Format),
    /// PNG.
    Png,
}

impl OutputFormat {
    /// Whether a picture can be written in this format.
    pub fn suits(self, header: &ImageHeader) -> bool
        ensures { result ≡ suits_output self (image_of header.now) }
    {
        match self {
            OutputFormat::Netpbm(format) => format.suits(header),
            OutputFormat::Png => suits_png(header),
        }
    }
}

/// The format in which a picture is written: the one that is asked for, if it suits the picture, or that of its kind.
pub fn format_for(asked: Option<OutputFormat>, header: &ImageHeader) -> Option<OutputFormat>
    ensures { result ≡ chosen asked (image_of header.now) }
{
    match asked {
        Some(format) => {
            if format.suits(header) {
                Some(format)
            } else {
                None
            }
        }
        None => match Format::usual(header) {
            Some(format) => Some(OutputFormat::Netpbm(format)),
            None => None,
        },
    }
}
