//! What holds of the parts of an image.

ghost use Rattle.jxlm_groups.specs.Parts.{OtherPartsStay, PartsHoldEachCellOnce, PartsShareNoCell};

/// Where an image can be cut, its parts hold each coded cell exactly once.
pub fn parts_hold_each_cell_once()
    ensures { PartsHoldEachCellOnce }
{}

/// Two parts of an image share no cell of its store, and what changes the cells of one keeps the grids of the other.
pub fn parts_share_no_cell()
    ensures apart { PartsShareNoCell }
    ensures others { OtherPartsStay }
{}
