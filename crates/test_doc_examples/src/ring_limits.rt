//! Of `set_longest` of a ring.

use rusty_paseto::prelude::*;
use std::alloc::Global;

/// A ring for a service on the open net, which reads no token of more than 64 KiB, and no footer of more than 1 KiB.
pub fn open_ring(alloc: Global) -> KeyRing<V4> {
    let mut ring = KeyRing::<V4>::new(alloc);
    ring.set_longest(65_536).set_longest_footer(1_024);
    ring
}
