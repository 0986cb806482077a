//! What samples are told apart by.

use jxlm_base::grid::OutOfMemory;
use std::alloc::Global;

/// A property, and the cuts between its classes, in rising order.
#[derive(Drop)]
pub struct Axis {
    /// The number of the property.
    pub property: u32,
    /// A value is in the class of the number of cuts below it.
    pub cuts: Vec<i32>,
}

impl Axis {
    /// A property with these cuts.
    pub fn new(alloc: Global, property: u32, list: &[i32]) -> Result<Axis, OutOfMemory> {
        let mut cuts = Vec::new(alloc);
        cuts.extend_from_slice(list)?;
        Ok(Axis { property, cuts })
    }

    /// The number of classes.
    pub fn size(&self) -> usize {
        self.cuts.len().saturating_add(1)
    }
}
