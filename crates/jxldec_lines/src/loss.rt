//! What a format does not hold of what the samples of a picture mean.

ghost use Rattle.std.specs.Prelude.{◌≡◌};
ghost use Rattle.jxl_image_header.specs.Images.{image_of};
ghost use Rattle.jxldec_lines.specs.Losses.{has_loss, has_rounding, line_if, loss_in, loss_lines, rounded_lines, unless_saved as the_unless_saved, unsaid_lines};

use crate::format::OutputFormat;
use jxl_command::shown::Shown;
use jxl_image_header::image::ImageHeader;
use jxl_png_write::losses::{Losses, losses_of_png};
use std::fmt;

/// What a format does not hold of what the samples of a picture mean.
#[derive(Clone, Copy)]
pub enum Loss {
    /// Nothing.
    Nothing,
    /// The colour profile, which PNG alone holds.
    Profile,
    /// What no chunk of a PNG file says.
    Unsaid(Losses),
}

impl Loss {
    /// What this format does not hold of a picture with this header.
    pub fn of(format: OutputFormat, header: &ImageHeader) -> Loss
        ensures { result ≡ loss_in format (image_of header.now) }
    {
        match format {
            OutputFormat::Netpbm(_) => {
                if header.colour_encoding.want_icc {
                    Loss::Profile
                } else {
                    Loss::Nothing
                }
            }
            OutputFormat::Png => Loss::Unsaid(losses_of_png(header)),
        }
    }

    /// The same, but for the profile if that is saved.
    pub fn unless_saved(self, saved: bool) -> Loss
        ensures { result ≡ the_unless_saved saved self }
    {
        match self {
            Loss::Profile => { if saved { Loss::Nothing } else { Loss::Profile } }
            _ => self,
        }
    }

    /// Whether there is a line to warn of it.
    pub fn has_line(self) -> bool
        ensures { result ≡ has_loss self }
    {
        match self {
            Loss::Nothing => false,
            Loss::Profile => true,
            Loss::Unsaid(losses) => {
                losses.function
                    || (losses.coordinates
                        || (losses.intent || (losses.multiplied || rounds(losses))))
            }
        }
    }
}

// Whether digits or bits are lost, or how bright samples are.
fn rounds(losses: Losses) -> bool
    ensures { result ≡ has_rounding losses }
{
    losses.exponent || (losses.digits || (losses.tone || losses.alpha))
}

// A line about a file of this name, if it applies.
#[derive(Drop)]
struct Remark<'a> {
    name: &'a str,
    applies: bool,
    text: &'static str,
}

impl fmt::Display for Remark<'_> {
    ghost use Rattle.std.specs.Prelude.{Some};

    ghost output = { λ r. Some (line_if r.name.now r.applies r.text.now) };

    #[tactic(auto, unfolding(crate::specs::Losses::line_if))]
    fn fmt<W: fmt::Write>(&self, f: &mut fmt::Formatter<W>) -> fmt::Result {
        let (name, text) = (Shown(self.name), self.text);
        if self.applies {
            writeln!(f, "jxldec: {name}: {text}")?;
        }
        Ok(())
    }
}

// The lines on what no chunk of a PNG file says.
#[derive(Drop)]
struct UnsaidLines<'a> {
    name: &'a str,
    losses: Losses,
}

impl fmt::Display for UnsaidLines<'_> {
    ghost use Rattle.std.specs.Prelude.{Some};

    ghost output = { λ l. Some (unsaid_lines l.name.now l.losses) };

    #[tactic(auto, unfolding(crate::specs::Losses::unsaid_lines))]
    fn fmt<W: fmt::Write>(&self, f: &mut fmt::Formatter<W>) -> fmt::Result {
        let name = self.name;
        let function = Remark {
            name,
            applies: self.losses.function,
            text: "transfer function left out",
        };
        let coordinates = Remark {
            name,
            applies: self.losses.coordinates,
            text: "negative coordinates of colours left out",
        };
        let intent = Remark {
            name,
            applies: self.losses.intent,
            text: "rendering intent left out",
        };
        let multiplied = Remark {
            name,
            applies: self.losses.multiplied,
            text: "colours stay multiplied by alpha",
        };
        let rounded = RoundedLines {
            name,
            losses: self.losses,
        };
        write!(f, "{function}{coordinates}{intent}{multiplied}{rounded}")
    }
}

// The lines on what a PNG file rounds, and on how bright samples are.
#[derive(Drop)]
struct RoundedLines<'a> {
    name: &'a str,
    losses: Losses,
}

impl fmt::Display for RoundedLines<'_> {
    ghost use Rattle.std.specs.Prelude.{Some};

    ghost output = { λ l. Some (rounded_lines l.name.now l.losses) };

    #[tactic(auto, unfolding(crate::specs::Losses::rounded_lines))]
    fn fmt<W: fmt::Write>(&self, f: &mut fmt::Formatter<W>) -> fmt::Result {
        let name = self.name;
        let exponent = Remark {
            name,
            applies: self.losses.exponent,
            text: "exponent of the transfer function rounded",
        };
        let digits = Remark {
            name,
            applies: self.losses.digits,
            text: "coordinates of colours rounded",
        };
        let tone = Remark {
            name,
            applies: self.losses.tone,
            text: "tone mapping left out",
        };
        let alpha = Remark {
            name,
            applies: self.losses.alpha,
            text: "alpha rounded to the depth of the file",
        };
        write!(f, "{exponent}{digits}{tone}{alpha}")
    }
}

/// The lines that warn of a loss, about a file of this name.
#[derive(Drop)]
pub struct LossLines<'a> {
    pub name: &'a str,
    pub loss: Loss,
}

impl fmt::Display for LossLines<'_> {
    ghost use Rattle.std.specs.Prelude.{Some};

    ghost output = { λ l. Some (loss_lines l.name.now l.loss) };

    #[tactic(auto, unfolding(crate::specs::Losses::loss_lines))]
    fn fmt<W: fmt::Write>(&self, f: &mut fmt::Formatter<W>) -> fmt::Result {
        let name = self.name;
        match self.loss {
            Loss::Nothing => Ok(()),
            Loss::Profile => {
                let name = Shown(name);
                writeln!(f, "jxldec: {name}: colour profile left out")
            }
            Loss::Unsaid(losses) => {
                let lines = UnsaidLines { name, losses };
                write!(f, "{lines}")
            }
        }
    }
}
