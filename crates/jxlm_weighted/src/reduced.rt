//! Whole numbers reduced to 32 bits.

ghost use Rattle.std.specs.Prelude.{◌≡◌, pos};
ghost use Rattle.std.specs.Int.{w32, int_wrap};
ghost use Rattle.jxlm_bits.specs.Numbers.{absolute};

/// The number of 32 bits that is the given one but for a multiple of 2^32.
pub fn reduced(value: i64) -> i32
    ensures { result ≡ int_wrap w32 value }
{
    (value.rem_euclid(4294967296) as u32).cast_signed()
}

/// The number without its sign, reduced to 32 bits: the minimum stays as it is.
pub fn reduced_absolute(value: i32) -> i32
    ensures { result ≡ int_wrap w32 (absolute value) }
{
    value.unsigned_abs().cast_signed()
}

/// The same 32 bits, read as a signed number.
#[tactic(auto, using(std::proofs::lemmas::Int::wraps))]
pub fn read_as_signed(number: u32) -> i32
    ensures { result ≡ int_wrap w32 (pos number) }
{
    number.cast_signed()
}
