//! The comparison of tags: no branch depends on where they differ.

ghost use Rattle.std.specs.Prelude.{◌≡◌, ◌↔◌, IsTrue};

/// Whether two lists of bytes are the same. The differences of all bytes are combined, and compared with zero once.
pub fn same_bytes(a: &[u8], b: &[u8]) -> bool
    ensures { IsTrue result ↔ (a.now ≡ b.now) }
{
    if a.len() != b.len() {
        return false;
    }
    let mut difference = 0u8;
    'bytes: for i in 0..a.len() {
        difference |= a[i] ^ b[i];
    }
    difference == 0
}
