//! What the arguments ask for.
ghost use Rattle.std.specs.Prelude.{◌≡◌, ◌<◌, ◌↔◌, ◌^◌, EachIndex, IsTrue, MatchOption, codes, map, slice_index, string_bytes};
ghost use Rattle.std.specs.Int.{IsInRange};
ghost use Rattle.std.specs.Option.{SomeIff};
ghost use Rattle.jxlm_transform.specs.Params.{IsGroupDim};
ghost use Rattle.jxlmod_commands.specs.Arguments.{ArePossible};
ghost use Rattle.jxlmod_commands.specs.Decimals.{IsDecimal, decimal_value};

/// What is printed for wrong arguments.
pub const USAGE: &str = "usage: jxlmod decode W H N BITS i16|i32 | \
    jxlmod sections W H N BITS i16|i32 GROUP_DIM | jxlmod encode i16|i32 | \
    jxlmod decode2 W H N BITS i16|i32 | jxlmod sections2 W H N BITS i16|i32 GROUP_DIM | \
    jxlmod encode2 i16|i32";

/// The plain format that is read or written.
#[derive(Clone, Copy, Debug, PartialEq, Eq)]
pub enum Format {
    /// The first, of `PlainDecoder`.
    First,
    /// The second, of `PlainDecoder2`.
    Second,
}

impl Format {
    ghost use Rattle.jxlmod_commands.specs.Arguments.{IsOfNoFormat, name_in};

    /// The format that is read where this word comes first: `decode` or `decode2`.
    fn of_decode(word: &str) -> Option<Format>
        ensures { MatchOption result
            (IsOfNoFormat (codes "decode") word.now) (λ f. word.now ≡ name_in (codes "decode") f) }
    {
        match word {
            "decode" => Some(Format::First),
            "decode2" => Some(Format::Second),
            _ => None,
        }
    }

    /// The format that sections are read in where this word comes first: `sections` or `sections2`.
    fn of_sections(word: &str) -> Option<Format>
        ensures { MatchOption result
            (IsOfNoFormat (codes "sections") word.now) (λ f. word.now ≡ name_in (codes "sections") f) }
    {
        match word {
            "sections" => Some(Format::First),
            "sections2" => Some(Format::Second),
            _ => None,
        }
    }

    /// The format that is written where this word comes first: `encode` or `encode2`.
    fn of_encode(word: &str) -> Option<Format>
        ensures { MatchOption result
            (IsOfNoFormat (codes "encode") word.now) (λ f. word.now ≡ name_in (codes "encode") f) }
    {
        match word {
            "encode" => Some(Format::First),
            "encode2" => Some(Format::Second),
            _ => None,
        }
    }
}

/// The type of an image's samples.
#[derive(Clone, Copy, Debug, PartialEq, Eq)]
pub enum Samples {
    /// Whole numbers of 16 bits.
    I16,
    /// Whole numbers of 32 bits.
    I32,
}

impl Samples {
    ghost use Rattle.jxlmod_commands.specs.Arguments.{IsNoSamples, samples_word};

    /// The type that a word names: `i16` or `i32`.
    pub fn parse(word: &str) -> Option<Samples>
        ensures { MatchOption result (IsNoSamples word.now) (λ s. word.now ≡ samples_word s) }
    {
        match word {
            "i16" => Some(Samples::I16),
            "i32" => Some(Samples::I32),
            _ => None,
        }
    }
}

/// The number that decimal digits write, one digit or more, at most 4294967295. Leading zeros are
/// allowed; a sign is not.
pub fn number(text: &str) -> Option<u32>
    ensures { SomeIff result (IsDecimal text.now × (decimal_value text.now < 2 ^ 32)) (decimal_value text.now) }
{
    if !has_only_digits(text) {
        return None;
    }
    text.parse::<u32>().ok()
}

fn has_only_digits(text: &str) -> bool
    ensures { IsTrue result ↔ EachIndex text.now (λ k. IsInRange 48 57 (slice_index text.now k)) }
{
    text.bytes().all(|c| c.is_ascii_digit())
}

/// Whether the library takes a picture of these numbers: at most 2^20 channels, sides of at most 2^30 where there is a
/// channel, and a bit depth of at most 32.
fn are_possible(width: u32, height: u32, channels: u32, bit_depth: u32) -> bool
    ensures { IsTrue result ↔ ArePossible width height channels bit_depth }
{
    let sides_fit = channels == 0 || (width <= 1 << 30 && height <= 1 << 30);
    channels <= 1 << 20 && bit_depth <= 32 && sides_fit
}

/// Whether groups may have this side: a power of two from 2 to 2^20.
fn is_group_dim(side: u32) -> bool
    ensures { IsTrue result ↔ IsGroupDim side }
{
    (2..=1 << 20).contains(&side) && side.is_power_of_two()
}

/// What the program is to do.
#[derive(Clone, Copy, Debug, PartialEq, Eq)]
pub enum Command {
    /// Decode one part, which has header and samples, to `channels` channels of `width` by `height`
    /// samples.
    Decode {
        /// The format of the bytes.
        format: Format,
        /// How many columns each channel has.
        width: u32,
        /// How many rows each channel has.
        height: u32,
        /// How many channels there are.
        channels: u32,
        /// How many bits a sample has, for palettes without colours.
        bit_depth: u32,
        /// What the samples are decoded to.
        samples: Samples,
    },
    /// Decode an image of the same channels that is cut into sections.
    Sections {
        /// The format of the bytes.
        format: Format,
        /// How many columns each channel has.
        width: u32,
        /// How many rows each channel has.
        height: u32,
        /// How many channels there are.
        channels: u32,
        /// How many bits a sample has, for palettes without colours.
        bit_depth: u32,
        /// What the samples are decoded to.
        samples: Samples,
        /// The side of a group.
        group_dim: u32,
    },
    /// Encode the image whose text is read.
    Encode {
        /// The format of the bytes.
        format: Format,
        /// What the samples are read as.
        samples: Samples,
    },
}

impl Command {
    ghost use Rattle.jxlmod_commands.specs.Arguments.{AreFor, AreWrong, Asks, AskForNoDecode, AskForNoEncode, AskForNoSections, IsIdle, IsWithinLimits};

    /// Whether there is nothing to do, and nothing to read: an image of no channels is asked for.
    pub fn is_idle(&self) -> bool
        ensures { IsTrue result ↔ IsIdle self.now }
    {
        match *self {
            Command::Decode { channels, .. } | Command::Sections { channels, .. } => channels == 0,
            Command::Encode { .. } => false,
        }
    }

    /// Whether the library takes these numbers: at most 2^20 channels, sides of at most 2^30 where
    /// there is a channel, a bit depth of at most 32, and a power of two from 2 to 2^20 for the side
    /// of groups.
    pub fn is_within_limits(&self) -> bool
        ensures { IsTrue result ↔ IsWithinLimits self.now }
    {
        match *self {
            Command::Decode {
                width,
                height,
                channels,
                bit_depth,
                ..
            } => are_possible(width, height, channels, bit_depth),
            Command::Sections {
                width,
                height,
                channels,
                bit_depth,
                group_dim,
                ..
            } => is_group_dim(group_dim) && are_possible(width, height, channels, bit_depth),
            Command::Encode { .. } => true,
        }
    }

    /// What the words `decode W H N BITS i16|i32` ask for, or `decode2` and these, within the limits or not.
    fn decode(words: &[String]) -> Option<Command>
        ensures { MatchOption result (AskForNoDecode (map string_bytes words.now)) (Asks (map string_bytes words.now)) }
    {
        let [name, width, height, channels, bit_depth, samples] = words else {
            return None;
        };
        Some(Command::Decode {
            format: Format::of_decode(name.as_str())?,
            width: number(width.as_str())?,
            height: number(height.as_str())?,
            channels: number(channels.as_str())?,
            bit_depth: number(bit_depth.as_str())?,
            samples: Samples::parse(samples.as_str())?,
        })
    }

    /// What the words `sections W H N BITS i16|i32 GROUP_DIM` ask for, or `sections2` and these, within the limits or not.
    fn sections(words: &[String]) -> Option<Command>
        ensures { MatchOption result (AskForNoSections (map string_bytes words.now))
            (Asks (map string_bytes words.now)) }
    {
        let [name, width, height, channels, bit_depth, samples, group_dim] = words else {
            return None;
        };
        Some(Command::Sections {
            format: Format::of_sections(name.as_str())?,
            width: number(width.as_str())?,
            height: number(height.as_str())?,
            channels: number(channels.as_str())?,
            bit_depth: number(bit_depth.as_str())?,
            samples: Samples::parse(samples.as_str())?,
            group_dim: number(group_dim.as_str())?,
        })
    }

    /// What the words `encode i16|i32` or `encode2 i16|i32` ask for.
    fn encode(words: &[String]) -> Option<Command>
        ensures { MatchOption result (AskForNoEncode (map string_bytes words.now)) (Asks (map string_bytes words.now)) }
    {
        let [name, samples] = words else {
            return None;
        };
        Some(Command::Encode {
            format: Format::of_encode(name.as_str())?,
            samples: Samples::parse(samples.as_str())?,
        })
    }

    /// The command that the words ask for, without the program's name. It is within the limits.
    pub fn parse(words: &[String]) -> Option<Command>
        ensures { MatchOption result (AreWrong (map string_bytes words.now))
            (AreFor (map string_bytes words.now)) }
    {
        let command = match words.len() {
            2 => Command::encode(words)?,
            6 => Command::decode(words)?,
            _ => Command::sections(words)?,
        };
        if command.is_within_limits() {
            Some(command)
        } else {
            None
        }
    }
}
