//! Rows: `KIND ASKED -> EXPECTED`, a row a line.

use crate::text::word;
use std::alloc::{AllocError, Global};

/// A row of a table.
#[derive(Clone, Copy)]
pub struct Row<'t> {
    /// By which way the row is read: the word that it begins with.
    pub kind: &'t str,
    /// What is asked.
    pub asked: &'t str,
    /// What is expected of it.
    pub expected: &'t str,
}

impl<'t> Row<'t> {
    /// The row of a line; none where the line is empty, or a head, which begins with #.
    pub fn parse(line: &'t str) -> Option<Row<'t>> {
        if line.is_empty() || line.starts_with('#') {
            return None;
        }
        let (kind, rest) = word(line);
        let (asked, expected) = rest.split_once(" -> ").unwrap_or((rest, ""));
        Some(Row {
            kind,
            asked: asked.trim(),
            expected: expected.trim(),
        })
    }

    /// What is wrong with the row where this was seen: nothing where it is what is expected. Where nothing was seen, the
    /// row could not be read.
    pub fn fault(&self, alloc: Global, seen: Option<String>) -> Result<Option<String>, AllocError> {
        match seen {
            None => Ok(Some(format!(in alloc; "cannot be read")?)),
            Some(text) if text.as_str().trim() == self.expected => Ok(None),
            Some(text) => Ok(Some(text)),
        }
    }
}
