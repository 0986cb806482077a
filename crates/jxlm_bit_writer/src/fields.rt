//! Fields of headers, written (ISO/IEC 18181-1, field types).

ghost use Rattle.std.specs.Prelude.{◌≡◌, ◌<◌, ◌≤◌, ◌++◌, true, IfOk, if◌then◌else◌};
ghost use Rattle.jxlm_bits.specs.Grammar.{FitsU32};
ghost use Rattle.jxlm_bit_writer.specs.Written.{digits};
ghost use Rattle.jxlm_bit_writer.specs.Fields.{holds as is_held, part_bits, is_spelled, u32_bits};

use crate::writer::BitWriter;
use jxlm_bits::bits::U32Spec;
use std::alloc::AllocError;

/// Whether a part of a `U32` field has this value.
pub(crate) fn holds(part: U32Spec, value: u32) -> bool
    requires { FitsU32 part }
    ensures { result ≡ is_held part value }
{
    match part {
        U32Spec::Const(constant) => constant == value,
        U32Spec::Offset(minimum, n) => {
            minimum <= value && u64::from(value - minimum) < 1u64 << n
        }
    }
}

impl BitWriter {
    /// Adds a `Bool`.
    pub fn put_flag(&mut self, flag: bool) -> Result<(), AllocError>
        ensures { IfOk result (λ _. self.new ≡ self.old ++ digits 1 (if flag then 1 else 0)) }
    {
        let bit = if flag { 1 } else { 0 };
        self.put(bit, 1)
    }

    /// Adds the two bits that select a part, and then the value in that part, which has it.
    fn put_part(&mut self, selector: u32, part: U32Spec, value: u32) -> Result<(), AllocError>
        requires fits { FitsU32 part }
        requires held { is_held part value ≡ true }
        ensures { IfOk result (λ _. self.new ≡ self.old ++ part_bits selector part value) }
    {
        self.put(selector, 2)?;
        match part {
            U32Spec::Const(_) => Ok(()),
            U32Spec::Offset(minimum, n) => self.put(value - minimum, n),
        }
    }

    /// Adds a `U32` field by the first of its four parts that has the value; one of them has.
    pub fn put_u32(
        &mut self,
        value: u32,
        d0: U32Spec,
        d1: U32Spec,
        d2: U32Spec,
        d3: U32Spec,
    ) -> Result<(), AllocError>
        requires fits { FitsU32 d0 × FitsU32 d1 × FitsU32 d2 × FitsU32 d3 }
        requires spelled { is_spelled d0 d1 d2 d3 value ≡ true }
        ensures { IfOk result (λ _. self.new ≡ self.old ++ u32_bits d0 d1 d2 d3 value) }
    {
        if holds(d0, value) {
            self.put_part(0, d0, value)
        } else if holds(d1, value) {
            self.put_part(1, d1, value)
        } else if holds(d2, value) {
            self.put_part(2, d2, value)
        } else {
            self.put_part(3, d3, value)
        }
    }
}
