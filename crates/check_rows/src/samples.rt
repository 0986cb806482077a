//! Samples as rows have them.

use std::alloc::{AllocError, Global};

/// Each sample, times a power of 31, the last times 1, added up modulo 2^32.
fn checksum(samples: &[i32]) -> u32 {
    let mut sum: u32 = 0;
    for sample in samples {
        sum = sum.wrapping_mul(31).wrapping_add(sample.cast_unsigned());
    }
    sum
}

/// The samples with a space between, or after a # their checksum: each sample, times a power of 31, the last times 1,
/// added up modulo 2^32.
pub fn listed(alloc: Global, samples: &[i32], summed: bool) -> Result<String, AllocError> {
    if summed {
        return format!(in alloc; "#{}", checksum(samples));
    }
    let mut text = String::new(alloc);
    let mut before = "";
    for sample in samples {
        write!(text, "{before}{sample}")?;
        before = " ";
    }
    Ok(text)
}
