//! Laws of bits and of the fields that they make: each is the contract of a function that does nothing.

ghost use Rattle.std.specs.Prelude.{◌≡◌, ℕ, ◌+◌, ◌*◌, ◌/◌, ◌%◌, ◌^◌, ◌<◌, List, slice_index};
ghost use Rattle.jxlm_bits.specs.Bits.{bit_at, bits_at};
ghost use Rattle.jxlm_bits.specs.Grammar.{IsExact, number, flag, u32 as the_u32};
ghost use Rattle.jxlm_bits.specs.declared.bits.U32Spec.{U32Spec};

/// The number of n bits: it is below 2^n, and its binary digits are the bits, the first the least significant.
///
/// n bits and the m bits after them make the number of the n + m bits, and the eight bits of a byte make the byte.
pub fn numbers_of_bits()
    ensures below { (bytes : List ℕ) (p n : ℕ) → bits_at bytes p n < 2 ^ n }
    ensures digits { (bytes : List ℕ) (p n j : ℕ) → j < n → bits_at bytes p n / 2 ^ j % 2 ≡ bit_at bytes (p + j) }
    ensures joined { (bytes : List ℕ) (p n m : ℕ) → bits_at bytes p (n + m) ≡ bits_at bytes p n + bits_at bytes
        (p + n) m * 2 ^ n }
    ensures byte { (bytes : List ℕ) (i : ℕ) → slice_index bytes i < 2 ^ 8 → bits_at bytes (8 * i) 8
        ≡ slice_index bytes i }
{}

/// The parser returns a number of n bits, a `Bool` or a `U32` exactly if the bits at its position code it.
pub fn fields_are_read_exactly()
    ensures number { (n : ℕ) → IsExact (number n) }
    ensures flag { IsExact flag }
    ensures u32 { (d0 d1 d2 d3 : U32Spec) → IsExact (the_u32 d0 d1 d2 d3) }
{}
