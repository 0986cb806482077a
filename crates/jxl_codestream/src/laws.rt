//! Laws of tables of contents and profiles, each the contract of a function that does nothing.

ghost use Rattle.std.specs.Prelude.{◌≡◌, ℕ, List};
ghost use Rattle.jxlm_bits.specs.Grammar.{IsExact};
ghost use Rattle.jxl_codestream.specs.Orders.{IsOrder, IsBijection};
ghost use Rattle.jxl_codestream.specs.Tocs.{toc};
ghost use Rattle.jxl_codestream.specs.Profiles.{profile};

use jxlm_bits::decoder::Decoder;

/// The parser returns a table of contents exactly if the bits at its position code it.
pub fn tables_are_read_exactly<D: Decoder>()
    ensures { (count : ℕ) → IsExact (toc D.meaning count) }
{}

/// The parser returns a profile exactly if the bits at its position code it.
pub fn profiles_are_read_exactly<D: Decoder>()
    ensures { (limit : ℕ) → IsExact (profile D.meaning limit) }
{}

/// Each number stands at one place of an order, and at no other; and a Lehmer code tells one order.
pub fn orders_are_bijections()
    ensures places { (code : List ℕ) (n : ℕ) (order : List ℕ) → IsOrder code n order → IsBijection n order }
    ensures one { (code : List ℕ) (n : ℕ) (x y : List ℕ) → IsOrder code n x → IsOrder code n y → x ≡ y }
{}
