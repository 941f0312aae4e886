//! What the calls hand back to C.

ghost use Rattle.std.specs.Prelude.{◌≡◌, IsSome};

/// The last byte, or 0 where there is none.
pub(crate) fn last_byte(bytes: &[u8]) -> u64 {
    match bytes {
        [.., last] => *last as u64,
        [] => 0,
    }
}

/// Copies bytes to where there is just room for them.
pub(crate) fn copy_bytes(bytes: &[u8], room: &mut [u8]) -> Option<()>
    ensures { IsSome result → room.new ≡ bytes.now }
{
    if room.len() != bytes.len() {
        return None;
    }
    room.copy_from_slice(bytes);
    Some(())
}
