//! Rows of entropy codes: what is asked of a decoder and what it answers, and drawn streams, written and read back.
#![tactic(auto)]

mod answers;
mod damaged;
mod drawn;
mod names;

use check_rows::Row;
use std::alloc::Global;

/// What comes of a row of entropy codes; none if its kind is another.
pub fn seen(alloc: Global, row: &Row<'_>) -> Option<String> {
    match row.kind {
        "entropy" => answers::seen(alloc, row.asked, row.expected.starts_with('#')),
        "entropy_cuts" => damaged::seen_of_cuts(alloc, row.asked),
        "damaged" => damaged::sum_of_damaged(alloc, row.asked),
        "stream" => drawn::seen(alloc, row.asked),
        _ => None,
    }
}
