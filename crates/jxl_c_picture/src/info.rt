//! What is said of a picture, for C.

/// What is said of a picture.
#[repr(C)]
#[derive(Clone, Copy)]
pub struct CInfo {
    /// How many bytes this struct has, as the caller knows it.
    pub size: u64,
    /// The sides of the picture as it is shown.
    pub width: u32,
    pub height: u32,
    /// How many channels there are of colours, and how many extra ones.
    pub colours: u32,
    pub extra: u32,
    /// How many bits a sample of colours has, and how many of these are a float's exponent.
    pub bits: u32,
    pub exponent_bits: u32,
    /// The number of the first alpha channel that is as large as the picture, or 0.
    pub alpha: u32,
    /// What colours mean, by the numbers of the header.
    pub space: u32,
    pub white: u32,
    pub primaries: u32,
    pub transfer: u32,
    pub gamma: u32,
    pub intent: u32,
    /// How many numbers a pixel has.
    pub interleaved: u32,
    /// How many bytes the profile has, or 0.
    pub profile: u64,
    /// How many samples all channels have together.
    pub samples: u64,
}

/// How many bytes the struct has here.
pub const INFO_SIZE: u64 = 80;
