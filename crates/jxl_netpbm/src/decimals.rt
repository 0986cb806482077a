//! The lines of a text in decimal numbers, as bytes.

ghost use Rattle.std.specs.Prelude.{◌≡◌, ◌+◌, ◌<◌, ◌≤◌, ◌++◌, take, length};
ghost use Rattle.std.specs.Fmt.{decimal, signed_decimal};
ghost use Rattle.jxl_text.specs.Printing.{heading, line, row_text};
ghost use Rattle.jxl_netpbm.specs.Inner.Rows.{line_room};

use itoa::Buffer;

// Writes these bytes over those from `at` on. It returns where they end.
fn put_bytes(bytes: &mut [u8], at: usize, text: &[u8]) -> usize
    requires { at + length text.now ≤ length bytes.old }
    ensures end { result ≡ at + length text.now }
    ensures text { take result bytes.new ≡ take at bytes.old ++ text.now }
{
    let end = at + text.len();
    bytes[at..end].copy_from_slice(text);
    end
}

// Writes a sample over the bytes from `at` on. It returns where they end.
fn put_sample(bytes: &mut [u8], at: usize, sample: i32) -> usize
    requires { at + 11 ≤ length bytes.old }
    ensures end { result ≤ at + 11 }
    ensures text { take result bytes.new ≡ take at bytes.old ++ signed_decimal sample }
{
    let mut buffer = Buffer::new();
    put_bytes(bytes, at, buffer.format(sample).as_bytes())
}

// Writes a count over the bytes from `at` on. It returns where they end.
fn put_count(bytes: &mut [u8], at: usize, count: usize) -> usize
    requires { at + 20 ≤ length bytes.old }
    ensures end { result ≤ at + 20 }
    ensures text { take result bytes.new ≡ take at bytes.old ++ decimal count }
{
    let mut buffer = Buffer::new();
    put_bytes(bytes, at, buffer.format(count).as_bytes())
}

/// Writes the line that names a channel over the first bytes. It returns where it ends.
pub fn put_heading(bytes: &mut [u8], number: usize, width: usize, height: usize) -> usize
    requires { 71 ≤ length bytes.old }
    ensures end { result ≤ 71 }
    ensures text { take result bytes.new ≡ heading number width height }
{
    let mut end = put_bytes(bytes, 0, b"channel ");
    end = put_count(bytes, end, number);
    end = put_bytes(bytes, end, b" ");
    end = put_count(bytes, end, width);
    end = put_bytes(bytes, end, b"x");
    end = put_count(bytes, end, height);
    put_bytes(bytes, end, b"\n")
}

// Writes the samples of a row over the bytes from `at` on, with a space between. It returns where they end, before the
// last byte of the room for the line.
fn put_samples(bytes: &mut [u8], at: usize, row: &[i32]) -> usize
    requires { at + line_room (length row.now) ≤ length bytes.old }
    ensures end { result < at + line_room (length row.now) }
    ensures text { take result bytes.new ≡ take at bytes.old ++ row_text row.now }
{
    let Some((first, rest)) = row.split_first() else {
        return at;
    };
    let mut end = put_sample(bytes, at, *first);
    for sample in rest {
        bytes[end] = b' ';
        end = put_sample(bytes, end + 1, *sample);
    }
    end
}

/// Writes the line of a row over the bytes from `at` on. It returns where it ends.
pub fn put_line(bytes: &mut [u8], at: usize, row: &[i32]) -> usize
    requires { at + line_room (length row.now) ≤ length bytes.old }
    ensures end { result ≤ at + line_room (length row.now) }
    ensures text { take result bytes.new ≡ take at bytes.old ++ line (row_text row.now) }
{
    let end = put_samples(bytes, at, row);
    bytes[end] = b'\n';
    end + 1
}
