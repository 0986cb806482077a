//! Which profiles a file gets.

ghost use Rattle.std.specs.Prelude.{◌≡◌, IfErr, OnOk};
ghost use Rattle.jxlenc.specs.Profiles.{Describes, ProfileErrs, space_word as the_space};

use jxl_container::boxes::word;
use jxl_encode::codable::is_codable_profile;

/// Why a profile is not stored.
#[derive(Clone, Copy)]
pub enum ProfileError {
    /// No file can hold it: it is empty, or has more than 2^28 bytes.
    Length,
    /// It does not begin with the header of a profile.
    Header,
    /// Its header says another size.
    Size,
    /// It describes colours of another space than the picture's.
    Space,
}

/// The number of bytes of a profile's header.
const HEADER_SIZE: usize = 128;

/// `acsp`.
const SIGNATURE: u32 = 0x6163_7370;

/// `GRAY`, or `RGB `.
fn space_word(grey: bool) -> u32
    ensures { result ≡ the_space grey }
{
    if grey { 0x4752_4159 } else { 0x5247_4220 }
}

/// Tests whether a profile describes colours that are grey, or red, green and blue.
pub fn check_profile(icc: &[u8], grey: bool) -> Result<(), ProfileError>
    ensures ok { OnOk result (Describes grey icc.now) }
    ensures err { IfErr result (ProfileErrs grey icc.now) }
{
    if !is_codable_profile(icc) {
        return Err(ProfileError::Length);
    }
    if icc.len() < HEADER_SIZE || word(icc, 36) != SIGNATURE {
        return Err(ProfileError::Header);
    }
    if word(icc, 0) as usize != icc.len() {
        return Err(ProfileError::Size);
    }
    if word(icc, 16) != space_word(grey) {
        return Err(ProfileError::Space);
    }
    Ok(())
}
