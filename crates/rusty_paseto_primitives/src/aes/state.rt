//! The steps of a round of AES, on the state of 16 bytes, column after column (FIPS 197, section 5.1).

ghost use Rattle.std.specs.Prelude.{◌≡◌, [], length, slice_index_or};
ghost use Rattle.rusty_paseto_primitives.specs.Aes.State.{add_round_key, mix_columns, mix_matrix, row_product, shift_rows, sub_bytes};

use crate::aes::field::{sub_byte, xtimes};

#[inline(always)]
pub(super) fn sub_bytes(s: [u8; 16]) -> [u8; 16]
    ensures { result ≡ sub_bytes s }
{
    [
        sub_byte(s[0]),
        sub_byte(s[1]),
        sub_byte(s[2]),
        sub_byte(s[3]),
        sub_byte(s[4]),
        sub_byte(s[5]),
        sub_byte(s[6]),
        sub_byte(s[7]),
        sub_byte(s[8]),
        sub_byte(s[9]),
        sub_byte(s[10]),
        sub_byte(s[11]),
        sub_byte(s[12]),
        sub_byte(s[13]),
        sub_byte(s[14]),
        sub_byte(s[15]),
    ]
}

#[inline(always)]
pub(super) fn shift_rows(s: [u8; 16]) -> [u8; 16]
    ensures { result ≡ shift_rows s }
{
    [
        s[0], s[5], s[10], s[15], s[4], s[9], s[14], s[3], s[8], s[13], s[2], s[7], s[12], s[1],
        s[6], s[11],
    ]
}

// The four bytes of a column after the matrix.
#[inline(always)]
fn mixed_column(a0: u8, a1: u8, a2: u8, a3: u8) -> (u8, u8, u8, u8)
    ensures row_0 { result.0 ≡ row_product (slice_index_or mix_matrix 0 []) a0 a1 a2 a3 }
    ensures row_1 { result.1 ≡ row_product (slice_index_or mix_matrix 1 []) a0 a1 a2 a3 }
    ensures row_2 { result.2 ≡ row_product (slice_index_or mix_matrix 2 []) a0 a1 a2 a3 }
    ensures row_3 { result.3 ≡ row_product (slice_index_or mix_matrix 3 []) a0 a1 a2 a3 }
{
    let double_0 = xtimes(a0);
    let double_1 = xtimes(a1);
    let double_2 = xtimes(a2);
    let double_3 = xtimes(a3);
    (
        double_0 ^ (double_1 ^ a1) ^ a2 ^ a3,
        a0 ^ double_1 ^ (double_2 ^ a2) ^ a3,
        a0 ^ a1 ^ double_2 ^ (double_3 ^ a3),
        (double_0 ^ a0) ^ a1 ^ a2 ^ double_3,
    )
}

#[inline(always)]
pub(super) fn mix_columns(s: [u8; 16]) -> [u8; 16]
    ensures { result ≡ mix_columns s }
{
    let (s0, s1, s2, s3) = mixed_column(s[0], s[1], s[2], s[3]);
    let (s4, s5, s6, s7) = mixed_column(s[4], s[5], s[6], s[7]);
    let (s8, s9, s10, s11) = mixed_column(s[8], s[9], s[10], s[11]);
    let (s12, s13, s14, s15) = mixed_column(s[12], s[13], s[14], s[15]);
    [
        s0, s1, s2, s3, s4, s5, s6, s7, s8, s9, s10, s11, s12, s13, s14, s15,
    ]
}

#[inline(always)]
pub(super) fn add_round_key(s: [u8; 16], round_key: &[u8]) -> [u8; 16]
    requires { length round_key.now ≡ 16 }
    ensures { result ≡ add_round_key s round_key.now }
{
    [
        s[0] ^ round_key[0],
        s[1] ^ round_key[1],
        s[2] ^ round_key[2],
        s[3] ^ round_key[3],
        s[4] ^ round_key[4],
        s[5] ^ round_key[5],
        s[6] ^ round_key[6],
        s[7] ^ round_key[7],
        s[8] ^ round_key[8],
        s[9] ^ round_key[9],
        s[10] ^ round_key[10],
        s[11] ^ round_key[11],
        s[12] ^ round_key[12],
        s[13] ^ round_key[13],
        s[14] ^ round_key[14],
        s[15] ^ round_key[15],
    ]
}
