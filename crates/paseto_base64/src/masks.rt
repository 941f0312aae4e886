//! Choices that are no branches: a difference that is negative has all its upper bits set, which are the mask of a number.

ghost use Rattle.std.specs.Prelude.{◌≡◌, ◌<◌, ◌≤◌};
ghost use Rattle.paseto_base64.specs.Masks.{above, equal};

/// A number where a byte is greater than another, and else 0.
pub(crate) fn above(byte: u32, other: u32, number: u32) -> u32
    requires { (byte < 256) × (other < 256) × (number < 256) }
    ensures value { result ≡ above byte other number }
    ensures small { result ≤ number }
{
    (other.wrapping_sub(byte) >> 8) & number
}

/// A number where a byte is another, and else 0.
pub(crate) fn equal(byte: u32, other: u32, number: u32) -> u32
    requires { (byte < 256) × (other < 256) × (number < 256) }
    ensures value { result ≡ equal byte other number }
    ensures small { result ≤ number }
{
    (((byte + 256 - other) % 256).wrapping_sub(1) >> 8) & number
}
