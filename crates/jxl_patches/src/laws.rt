//! Laws of patches, each the contract of a function that does nothing.

ghost use Rattle.std.specs.Prelude.{◌≡◌, ℕ, List, Option, Some, pos, ◌+ℤ◌, ◌↔◌, true};
ghost use Rattle.jxl_image_header.specs.declared.size.Size.{Size as TheSize};
ghost use Rattle.jxlm_bits.specs.Grammar.{IsExact};
ghost use Rattle.jxlm_bits.specs.Numbers.{unpack};
ghost use Rattle.jxl_patches.specs.Patches.{dictionary, coordinate_of};
ghost use Rattle.jxl_patches.specs.Patched.{LastReplacementStays, ReadPatchesFit, UncoveredCellsStay};

use jxlm_bits::decoder::Decoder;

/// The parser returns a dictionary exactly if the bits at its position code it.
pub fn dictionaries_are_read_exactly<D: Decoder>()
    ensures { (size : TheSize) (extra : ℕ) (slots : List (Option TheSize)) (limit : ℕ) → IsExact (dictionary D.meaning
        size extra slots limit) }
{}

/// A later coordinate is coded as a signed number, how far it lies from the one before.
pub fn moves_are_signed()
    ensures { (before token c : ℕ) → (coordinate_of true before token ≡ Some c) ↔ (pos before +ℤ unpack token ≡ pos c) }
{}

/// What is read for a frame fits its channels, and the frames that were saved, so that it may be applied.
pub fn what_is_read_fits()
    ensures { ReadPatchesFit }
{}

/// A cell that no place covers stays; one whose last place replaces it has the sample of that place's rectangle.
pub fn patches_leave_the_last()
    ensures uncovered { UncoveredCellsStay }
    ensures replaced { LastReplacementStays }
{}
