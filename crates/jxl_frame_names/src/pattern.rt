//! A name with a place for a number, as `printf` writes it.

ghost use Rattle.std.specs.Prelude.{◌≡◌, ◌≤◌, ◌<◌, ◌+◌, ◌++◌, IfNone, IfOk, IfSome, OnOk, length, slice_index, string_bytes};
ghost use Rattle.jxl_frame_names.specs.Names.{IsPlaced, name_of, padded};
ghost use Rattle.jxl_frame_names.specs.Places.{HasNoPlace, IsOnlyPlace, place_at as the_place_at};

use std::alloc::{AllocError, Global};

/// A place for a number: `%d`, or `%0Nd` with a digit N from 1 to 9.
#[derive(Clone, Copy)]
pub struct Place {
    /// The byte where it begins.
    pub start: usize,
    /// How many bytes it has.
    pub len: usize,
    /// The least number of digits of the number.
    pub width: usize,
}

/// A name with one place for a number.
#[derive(Clone, Copy)]
pub struct NamePattern<'a> {
    /// What comes before the place.
    pub before: &'a str,
    /// The least number of digits of the number: zeros fill it up.
    pub width: usize,
    /// What comes after the place.
    pub after: &'a str,
}

// The byte after this number of others, from `start` on; 0 after the end.
fn byte_after(name: &[u8], start: usize, count: usize) -> u8
    requires { start ≤ length name.now }
    ensures { result ≡ slice_index name.now (start + count) }
{
    if count < name.len() - start {
        name[start + count]
    } else {
        0
    }
}

// The place that begins at this byte, if there is one.
fn place_at(name: &[u8], start: usize) -> Option<Place>
    requires { start ≤ length name.now }
    ensures { result ≡ the_place_at name.now start }
{
    if byte_after(name, start, 0) != b'%' {
        return None;
    }
    let next = byte_after(name, start, 1);
    if next == b'd' {
        return Some(Place {
            start,
            len: 2,
            width: 1,
        });
    }
    let digit = byte_after(name, start, 2);
    let is_width = b'1' <= digit && digit <= b'9';
    if next == b'0' && is_width && byte_after(name, start, 3) == b'd' {
        return Some(Place {
            start,
            len: 4,
            width: usize::from(digit - b'0'),
        });
    }
    None
}

// The only place of a name; none if it has no place, or several.
fn only_place(name: &[u8]) -> Option<Place>
    ensures only { IfSome result (IsOnlyPlace name.now) }
    ensures none { IfNone result (HasNoPlace name.now) }
{
    let mut found: Option<Place> = None;
    for start in 0..name.len() {
        if let Some(place) = place_at(name, start) {
            if found.is_some() {
                return None;
            }
            found = Some(place);
        }
    }
    found
}

// Adds a number of this width at least.
fn append_padded(name: &mut String, width: usize, number: &str) -> Result<(), AllocError>
    ensures { OnOk result (string_bytes name.new ≡ string_bytes name.old ++ padded width number.now) }
{
    for _filled in number.len()..width {
        name.push('0')?;
    }
    name.push_str(number)
}

impl<'a> NamePattern<'a> {
    /// The pattern of a name that has exactly one place for a number; none if it has no place, or several.
    pub fn parse(name: &'a str) -> Option<NamePattern<'a>>
        ensures placed { IfSome result (IsPlaced name.now) }
        ensures none { IfNone result (HasNoPlace name.now) }
    {
        let place = only_place(name.as_bytes())?;
        let size = name.len();
        let end = place.start + place.len;
        Some(NamePattern {
            before: &name[..place.start],
            width: place.width,
            after: &name[end..size],
        })
    }

    /// The name with this number in its place.
    pub fn name(&self, alloc: Global, number: u32) -> Result<String, AllocError>
        ensures { IfOk result (λ name. string_bytes name ≡ name_of self.now number) }
    {
        let digits = number.to_string(alloc)?;
        let mut name = String::from_str(alloc, self.before)?;
        append_padded(&mut name, self.width, &digits)?;
        name.push_str(self.after)?;
        Ok(name)
    }
}
