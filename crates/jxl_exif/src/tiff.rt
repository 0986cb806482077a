//! TIFF: the header, and entries of a directory.

ghost use Rattle.std.specs.Prelude.{◌≡◌, ◌+◌, ◌^◌, ◌<◌, ◌≤◌, ℕ, length, IfNone, IfSome};
ghost use Rattle.jxl_exif.specs.Tiff.{IsFirst, IsShort, IsTiff, entry_of, mark, u16_at as the_u16_at, u32_at as the_u32_at};

/// The order of the bytes of a number.
#[derive(Clone, Copy, Debug, PartialEq, Eq)]
pub enum ByteOrder {
    /// The least significant byte first: `II`.
    Little,
    /// The most significant byte first: `MM`.
    Big,
}

impl ByteOrder {
    /// The number of the two bytes from `at` on.
    pub fn u16_at(self, bytes: &[u8], at: usize) -> u16
        requires { at + 2 ≤ length bytes.now }
        ensures { result ≡ the_u16_at self bytes.now at }
    {
        let (first, second) = (u16::from(bytes[at]), u16::from(bytes[at + 1]));
        match self {
            ByteOrder::Little => first + 256 * second,
            ByteOrder::Big => 256 * first + second,
        }
    }

    /// The number of the four bytes from `at` on.
    pub fn u32_at(self, bytes: &[u8], at: usize) -> u32
        requires { at + 4 ≤ length bytes.now }
        ensures { result ≡ the_u32_at self bytes.now at }
    {
        let first = u32::from(self.u16_at(bytes, at));
        let second = u32::from(self.u16_at(bytes, at + 2));
        match self {
            ByteOrder::Little => first + 65536 * second,
            ByteOrder::Big => 65536 * first + second,
        }
    }
}

// The byte order by the two bytes that a header begins with.
fn marked_order(first: u8, second: u8) -> Option<ByteOrder>
    ensures some { IfSome result (λ order. (first ≡ mark order) × (second ≡ mark order)) }
    ensures none { IfNone result ((order : ByteOrder) → first ≡ mark order → second ≡ mark order → ⊥) }
{
    match (first, second) {
        (b'I', b'I') => Some(ByteOrder::Little),
        (b'M', b'M') => Some(ByteOrder::Big),
        _ => None,
    }
}

/// The byte order of bytes that begin with a TIFF header.
pub fn byte_order(bytes: &[u8]) -> Option<ByteOrder>
    ensures some { IfSome result (λ order. IsTiff order bytes.now) }
    ensures none { IfNone result ((order : ByteOrder) → ¬ (IsTiff order bytes.now)) }
{
    if bytes.len() < 8 {
        return None;
    }
    let Some(order) = marked_order(bytes[0], bytes[1]) else {
        return None;
    };
    if order.u16_at(bytes, 2) == 42 {
        Some(order)
    } else {
        None
    }
}

/// The offset of the first entry with this tag in the directory at `ifd`.
pub fn first_entry(order: ByteOrder, bytes: &[u8], ifd: usize, tag: u16) -> Option<usize>
    requires { ifd < 2 ^ 32 }
    ensures some { IfSome result (λ entry. (k : ℕ) × IsFirst order bytes.now ifd tag k × (entry ≡ entry_of ifd k)) }
    ensures none { IfNone result ((k : ℕ) → ¬ (IsFirst order bytes.now ifd tag k)) }
{
    if ifd + 2 > bytes.len() {
        return None;
    }
    let count = usize::from(order.u16_at(bytes, ifd));
    for k in 0..count {
        let entry = ifd + 2 + 12 * k;
        if entry + 12 > bytes.len() {
            return None;
        }
        if order.u16_at(bytes, entry) == tag {
            return Some(entry);
        }
    }
    None
}

/// The type of a number of two bytes.
const SHORT: u16 = 3;

/// The number of an entry that is one SHORT.
pub fn short_in(order: ByteOrder, bytes: &[u8], entry: usize) -> Option<u16>
    requires { entry + 12 ≤ length bytes.now }
    ensures some { IfSome result (IsShort order bytes.now entry) }
    ensures none { IfNone result ((n : ℕ) → ¬ (IsShort order bytes.now entry n)) }
{
    if order.u16_at(bytes, entry + 2) == SHORT && order.u32_at(bytes, entry + 4) == 1 {
        Some(order.u16_at(bytes, entry + 8))
    } else {
        None
    }
}
