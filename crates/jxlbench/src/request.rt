//! What the arguments ask for.
ghost use Rattle.std.specs.Prelude.{◌<◌, IfSome};

use jxlmod_commands::arguments::{Format, Samples, number};

/// How the image stands in the input.
#[derive(Clone, Copy, Debug, PartialEq, Eq)]
pub enum Source {
    /// A picture in one part.
    Picture,
    /// A picture that is cut into sections.
    CutPicture {
        /// The side of a group.
        group_dim: u32,
    },
}

/// What is done with the image again and again.
#[derive(Clone, Copy, Debug, PartialEq, Eq)]
pub enum Task {
    /// It is decoded.
    Decode,
    /// It is encoded.
    Encode,
}

/// What the program is to do, and how often.
#[derive(Clone, Copy, Debug, PartialEq, Eq)]
pub struct Request {
    /// What is done.
    pub task: Task,
    /// The format that is decoded, or encoded to.
    pub format: Format,
    /// How the image stands in the input.
    pub source: Source,
    /// How many columns each channel has.
    pub width: u32,
    /// How many rows each channel has.
    pub height: u32,
    /// How many channels there are.
    pub channels: u32,
    /// How many bits a sample has.
    pub bit_depth: u32,
    /// What the samples are decoded to.
    pub samples: Samples,
    /// How often it is done.
    pub repeat: u32,
}

impl Request {
    /// What the words ask for, without the program's name: it is to be done at least once.
    pub fn parse(words: &[String]) -> Option<Request>
        ensures { IfSome result (λ request. 0 < request.repeat) }
    {
        let [name, width, height, channels, bit_depth, samples, rest @ ..] = words else {
            return None;
        };
        let (name, format) = match name.as_str().strip_suffix('2') {
            Some(name) => (name, Format::Second),
            None => (name.as_str(), Format::First),
        };
        let (task, source, repeat) = match (name, rest) {
            ("decode", [repeat]) => (Task::Decode, Source::Picture, repeat),
            ("sections", [group_dim, repeat]) => {
                let group_dim = number(group_dim.as_str())?;
                (Task::Decode, Source::CutPicture { group_dim }, repeat)
            }
            ("encode", [repeat]) => (Task::Encode, Source::Picture, repeat),
            _ => return None,
        };
        let request = Request {
            task,
            format,
            source,
            width: number(width.as_str())?,
            height: number(height.as_str())?,
            channels: number(channels.as_str())?,
            bit_depth: number(bit_depth.as_str())?,
            samples: Samples::parse(samples.as_str())?,
            repeat: number(repeat.as_str())?,
        };
        if request.repeat > 0 {
            Some(request)
        } else {
            None
        }
    }
}
