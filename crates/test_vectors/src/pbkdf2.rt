//! Keys of passwords, as OpenSSL derives them (`hashlib.pbkdf2_hmac` of Python, with SHA-384).

use crate::expect::{expect_digits, expect_shown};
use rusty_paseto_primitives::{DerivedKeyTooLong, pbkdf2_sha384, pbkdf2_sha384_into};

// A password and a salt as texts, the iterations, and the first 48 bytes of the key. OpenSSL takes no 0: the last row has
// the key of one iteration.
const ROWS: &[(&str, &str, u32, &str)] = &[
    (
        "password",
        "salt",
        1,
        "c0e14f06e49e32d73f9f52ddf1d0c5c7191609233631dadd76a567db42b78676b38fc800cc53ddb642f5c74442e62be4",
    ),
    (
        "password",
        "salt",
        2,
        "54f775c6d790f21930459162fc535dbf04a939185127016a04176a0730c6f1f4fb48832ad1261baadd2cedd50814b1c8",
    ),
    (
        "password",
        "salt",
        4096,
        "559726be38db125bc85ed7895f6e3cf574c7a01c080c3447db1e8a76764deb3c307b94853fbe424f6488c5f4f1289626",
    ),
    (
        "passwordPASSWORDpassword",
        "saltSALTsaltSALTsaltSALTsaltSALTsalt",
        1000,
        "4ead12bc0677849d57ea9343ad48f11865f6737d8338b0aa63ace945d3719b4d409225e3d6856edd7494becf453cfc5a",
    ),
    (
        "",
        "",
        1,
        "4bb042a5c28cee6f66f991c717fd770267787e2bb3031eae270d87d63ad99534f70873bfc8f78b914c7134975cfecb24",
    ),
    (
        "password",
        "salt",
        0,
        "c0e14f06e49e32d73f9f52ddf1d0c5c7191609233631dadd76a567db42b78676b38fc800cc53ddb642f5c74442e62be4",
    ),
];

#[test]
fn keys_of_passwords(rt: HostRuntime) {
    'rows: for &(password, salt, iterations, wanted) in ROWS {
        let key = pbkdf2_sha384(password.as_bytes(), salt.as_bytes(), iterations);
        expect_digits(&rt, rt.alloc(), &key, wanted);
    }
}

// The same, of keys of other lengths: a part of a block, several blocks, and one that is cut.
const LENGTHS: &[(&str, &str, u32, &str)] = &[
    ("password", "salt", 1, "c0"),
    (
        "password",
        "salt",
        4096,
        "559726be38db125bc85ed7895f6e3cf574c7a01c",
    ),
    (
        "",
        "",
        1,
        "4bb042a5c28cee6f66f991c717fd770267787e2bb3031eae270d87d63ad99534f70873bfc8f78b914c7134975cfecb242c",
    ),
    (
        "passwordPASSWORDpassword",
        "saltSALTsaltSALTsaltSALTsaltSALTsalt",
        1000,
        concat!(
            "4ead12bc0677849d57ea9343ad48f11865f6737d8338b0aa63ace945d3719b4d409225e3d6856edd7494becf453cfc5a1614",
            "2254dae60e4abbf2c40565cc535ece9307e8171c7bb3e1cc0e44fa9a0778f5929627c68035567e43e9e991190b82",
        ),
    ),
    (
        "password",
        "salt",
        2,
        concat!(
            "54f775c6d790f21930459162fc535dbf04a939185127016a04176a0730c6f1f4fb48832ad1261baadd2cedd50814b1c806ad",
            "1bbf43ebdc9d047904bf7ceafe1ebeeba01a91d12a600a7606046edeaaae8d02e87146e3fc7f2fda3596dbbe6112ad599912",
        ),
    ),
];

#[test]
fn keys_of_other_lengths(rt: HostRuntime) {
    'rows: for &(password, salt, iterations, wanted) in LENGTHS {
        let mut room = [7u8; 100];
        let key = room
            .get_mut(..wanted.len() / 2)
            .expect(&rt, "a key of at most 100 bytes");
        pbkdf2_sha384_into(password.as_bytes(), salt.as_bytes(), iterations, key).expect(
            &rt,
            "a key that is not too long",
        );
        expect_digits(&rt, rt.alloc(), key, wanted);
    }
}

#[test]
fn what_a_key_that_is_too_long_shows(rt: HostRuntime) {
    expect_shown(&rt, rt.alloc(), &DerivedKeyTooLong, "derived key too long");
}
