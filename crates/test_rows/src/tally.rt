//! The numbers of rows by their names.

use std::alloc::{AllocError, Global};
use std::collections::BTreeMap;

/// How many rows agreed under each name, in the order of the names.
#[derive(Drop)]
pub struct Tally<'a> {
    counts: BTreeMap<&'a str, u64>,
}

impl<'a> Tally<'a> {
    /// No rows.
    pub fn new(alloc: Global) -> Self {
        Tally {
            counts: BTreeMap::new(alloc),
        }
    }

    /// Counts a row.
    pub fn count(&mut self, name: &'a str) -> Result<(), AllocError> {
        let count = self.counts.entry(name)?.or_insert(0);
        *count = count.saturating_add(1);
        Ok(())
    }

    /// The numbers of rows.
    pub fn counts(&self) -> &BTreeMap<&'a str, u64> {
        &self.counts
    }
}
