//! Boxes, written.

ghost use Rattle.std.specs.Prelude.{◌≡◌, ◌<◌, ◌≤◌, ◌+◌, ◌++◌, ◌^◌, length, IfOk};
ghost use Rattle.jxl_container_write.specs.Inner.Spelled.{word, header, box_bytes};

use std::alloc::AllocError;

// Adds a number as four bytes, the first the most significant.
fn add_word(file: &mut Vec<u8>, value: u32) -> Result<(), AllocError>
    ensures { IfOk result (λ _. file.new.items ≡ file.old.items ++ word value) }
{
    file.extend_from_slice(&value.to_be_bytes())?;
    Ok(())
}

// Adds the header of a box whose size fits in four bytes.
fn add_short(file: &mut Vec<u8>, kind: u32, size: u32) -> Result<(), AllocError>
    ensures { IfOk result (λ _. file.new.items ≡ file.old.items ++ word size ++ word kind) }
{
    add_word(file, size)?;
    add_word(file, kind)?;
    Ok(())
}

// Adds the header of a box with this number of bytes of contents.
fn add_header(file: &mut Vec<u8>, kind: u32, length: u64) -> Result<(), AllocError>
    requires { 16 + length < 2 ^ 64 }
    ensures { IfOk result (λ _. file.new.items ≡ file.old.items ++ header kind length) }
{
    if 8 + length < 1 << 32 {
        add_short(file, kind, (8 + length) as u32)?;
        return Ok(());
    }
    let size = 16 + length;
    add_short(file, kind, 1)?;
    add_word(file, (size >> 32) as u32)?;
    add_word(file, (size % (1 << 32)) as u32)?;
    Ok(())
}

/// Adds a box of this type, the number of its four bytes, with `head` and then `contents` in it.
pub fn add_box(
    file: &mut Vec<u8>,
    kind: u32,
    head: &[u8],
    contents: &[u8],
) -> Result<(), AllocError>
    requires { length head.now ≤ 16 }
    ensures added { IfOk result (λ _. file.new.items ≡ file.old.items
        ++ box_bytes (kind, head.now ++ contents.now)) }
    ensures short { length contents.now < 2 ^ 63 }
{
    let length = head.len() as u64 + contents.len() as u64;
    add_header(file, kind, length)?;
    file.extend_from_slice(head)?;
    file.extend_from_slice(contents)?;
    Ok(())
}
