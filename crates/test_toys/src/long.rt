//! Long texts: a call that gives up from some length on is proved too, so that only a run finds it.

use std::alloc::{AllocError, Global};

/// A hundred thousand letters and a million.
pub const LENGTHS: &[usize] = &[100_000, 1_000_000];

/// A text of so many letters `x`.
pub fn text_of(alloc: Global, letters: usize) -> Result<String, AllocError> {
    let mut text = String::new(alloc);
    'letters: for _ in 0..letters {
        text.push('x')?;
    }
    Ok(text)
}
