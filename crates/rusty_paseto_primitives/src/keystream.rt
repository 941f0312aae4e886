//! Data under a keystream: the exclusive or of the two, byte by byte.

ghost use Rattle.std.specs.Prelude.{◌≡◌, ℕ, ◌*◌, ◌<◌, ◌≤◌, [], length, slice_index, slice_index_or};
ghost use Rattle.rusty_paseto_primitives.specs.Keystream.{xored, stream_of_blocks};

use std::simd::u8x16;

const VECTOR_LEN: usize = 16;

/// Masks `data` with the beginning of `keystream`.
#[inline(always)]
pub(crate) fn apply_keystream(data: &mut [u8], keystream: &[u8])
    requires { length «data».old ≤ length keystream.now }
    ensures { «data».new ≡ xored (slice_index keystream.now) «data».old }
{
    'bytes: for i in 0..data.len() {
        data[i] ^= keystream[i];
    }
}

/// Masks `data` by vectors of keystream, one after another.
#[inline(always)]
pub(crate) fn apply_by_vectors(data: &mut [u8], keystream: &[u8x16])
    requires { length «data».old ≡ 16 * length keystream.now }
    ensures { ((i : ℕ) → i < length keystream.now → length (slice_index_or keystream.now i []) ≡ 16)
        → «data».new ≡ xored (stream_of_blocks 16 (λ i. slice_index_or keystream.now i []))
        «data».old }
{
    'vectors: for i in 0..keystream.len() {
        let at = VECTOR_LEN * i;
        let part = u8x16::from_slice(&data[at..at + VECTOR_LEN]) ^ keystream[i];
        part.copy_to_slice(&mut data[at..at + VECTOR_LEN]);
    }
}
