//! Values of RFC 7748, sections 5.2 and 6.1, those of libsodium for keys of Ed25519, and what is refused.

use crate::expect::expect_digits;
use crate::hexadecimal::array_of;
use paseto_x25519::{
    AgreementError, ConversionError, public_from_ed25519, public_key, secret_from_ed25519,
    shared_secret, x25519,
};
use std::alloc::Global;
use std::process::Abort;

// A scalar, a coordinate u, and what the function makes of them. The highest bit of the second u is set.
const VECTORS: &[(&str, &str, &str)] = &[
    (
        "a546e36bf0527c9d3b16154b82465edd62144c0ac1fc5a18506a2244ba449ac4",
        "e6db6867583030db3594c1a424b15f7c726624ec26b3353b10a903a6d0ab1c4c",
        "c3da55379de9c6908e94ea4df28d084f32eccf03491c71f754b4075577a28552",
    ),
    (
        "4b66e9d4d1b4673c5ad22691957d6af5c11b6421e0ea01d42ca4169e7918ba0d",
        "e5210f12786811d3f4b7959d0538ae2c31dbe7106fc03c3efc4cd549c715a493",
        "95cbde9476e8907d7aade45cb4b873f88b595a68799fa152e6f8f7647aac7957",
    ),
];

// The keys of one party, the public key of the other, and what both share (section 6.1).
const SECRET: &str = "5dab087e624a8a4b79e17f8b83800ee66f3bb1292618b6fd1c2f8b27ff88e0eb";

const PUBLIC: &str = "de9edb7d7b7dc1b4d35b61c2ece435373f8343c85b78674dadfc7e146f882b4f";

const OTHER: &str = "8520f0098930a754748b7ddcb43ef75a0dbf3a0d26381af4eba4a98eaa9b4e6a";

const SHARED: &str = "4a5d9d5ba4ce2de1728e3bf480350f25e07e21c947d19e3376f09b3c1e161742";

#[test]
fn vectors_of_the_standard(rt: HostRuntime) {
    'rows: for &(scalar, u, wanted) in VECTORS {
        let made = x25519(&array_of(&rt, scalar), &array_of(&rt, u));
        expect_digits(&rt, rt.alloc(), &made, wanted);
    }
}

// What `count` turns give, each of which makes the scalar of the last and its coordinate the last scalar.
fn expect_iterated(rt: &impl Abort, alloc: Global, count: u32, wanted: &str) {
    let mut k = [0u8; 32];
    k[0] = 9;
    let mut u = k;
    'turns: for _ in 0..count {
        let next = x25519(&k, &u);
        u = k;
        k = next;
    }
    expect_digits(rt, alloc, &k, wanted);
}

#[test]
fn iterated(rt: HostRuntime) {
    let once = "422c8e7a6227d7bca1350b3e2bb7279f7897b87bb6854b783c60e80311ae3079";
    expect_iterated(&rt, rt.alloc(), 1, once);
    let often = "684cf59ba83309552800ef566f2f4d3c1c3887c49360e3875f2eb94d99532c51";
    expect_iterated(&rt, rt.alloc(), 1000, often);
}

#[test]
fn agreement(rt: HostRuntime) {
    let secret: [u8; 32] = array_of(&rt, SECRET);
    expect_digits(&rt, rt.alloc(), &public_key(&secret), PUBLIC);
    let shared = shared_secret(&secret, &array_of(&rt, OTHER)).expect(&rt, "a shared secret");
    expect_digits(&rt, rt.alloc(), &shared, SHARED);
}

// The coordinates of small order, 0, 1, two others and p - 1, and the spellings p and p + 1 of the first two.
const SMALL_ORDERS: &[&str] = &[
    "0000000000000000000000000000000000000000000000000000000000000000",
    "0100000000000000000000000000000000000000000000000000000000000000",
    "e0eb7a7c3b41b8ae1656e3faf19fc46ada098deb9c32b1fd866205165f49b800",
    "5f9c95bca3508c24b1d0b1559c83ef5b04445cc4581c8e86d8224eddd09f1157",
    "ecffffffffffffffffffffffffffffffffffffffffffffffffffffffffffff7f",
    "edffffffffffffffffffffffffffffffffffffffffffffffffffffffffffff7f",
    "eeffffffffffffffffffffffffffffffffffffffffffffffffffffffffffff7f",
];

#[test]
fn small_orders_are_refused(rt: HostRuntime) {
    'coordinates: for &u in SMALL_ORDERS {
        match shared_secret(&array_of(&rt, SECRET), &array_of(&rt, u)) {
            Err(AgreementError::SmallOrder) => {}
            Ok(_) => panic!(rt; "taken"),
        }
    }
}

// The seed and the public key of RFC 8032, section 7.1, tests 1 and 2, and the public key and the clamped secret key of
// X25519 that libsodium makes of them.
const CONVERTED: &[(&str, &str, &str, &str)] = &[
    (
        "9d61b19deffd5a60ba844af492ec2cc44449c5697b326919703bac031cae7f60",
        "d75a980182b10ab7d54bfed3c964073a0ee172f3daa62325af021a68f707511a",
        "d85e07ec22b0ad881537c2f44d662d1a143cf830c57aca4305d85c7a90f6b62e",
        "357c83864f2833cb427a2ef1c00a013cfdff2768d980c0a3a520f006904de90f",
    ),
    (
        "4ccd089b28ff96da9db6c346ec114e0f5b8a319f35aba624da8cf6ed4fb8a6fb",
        "3d4017c3e843895a92b70aa74d1b7ebc9c982ccf2ec4968cc0cd55f12af4660c",
        "25c704c594b88afc00a76b69d1ed2b984d7e22550f3ed0802d04fbcd07d38d47",
        "6ebd9ed75882d52815a97585caf4790a7f6c6b3b7f821c5e259a24b02e502e11",
    ),
];

#[test]
fn public_keys_of_ed25519(rt: HostRuntime) {
    'rows: for &(_, public, wanted, _) in CONVERTED {
        let made = public_from_ed25519(&array_of(&rt, public)).expect(&rt, "a public key");
        expect_digits(&rt, rt.alloc(), &made, wanted);
    }
}

#[test]
fn secret_keys_of_ed25519(rt: HostRuntime) {
    'rows: for &(seed, _, public, clamped) in CONVERTED {
        let secret = secret_from_ed25519(&array_of(&rt, seed));
        expect_digits(&rt, rt.alloc(), &secret[1..31], &clamped[2..62]);
        expect_digits(&rt, rt.alloc(), &public_key(&secret), public);
    }
}

// The eight points of small order of edwards25519, of which the first has y = 1. libsodium refuses each.
const SMALL_POINTS: &[&str] = &[
    "0100000000000000000000000000000000000000000000000000000000000000",
    "0000000000000000000000000000000000000000000000000000000000000000",
    "0000000000000000000000000000000000000000000000000000000000000080",
    "ecffffffffffffffffffffffffffffffffffffffffffffffffffffffffffff7f",
    "c7176a703d4dd84fba3c0b760d10670f2a2053fa2c39ccc64ec7fd7792ac037a",
    "c7176a703d4dd84fba3c0b760d10670f2a2053fa2c39ccc64ec7fd7792ac03fa",
    "26e8958fc2b227b045c3f489f2ef98f0d5dfac05d3c63339b13802886d53fc05",
    "26e8958fc2b227b045c3f489f2ef98f0d5dfac05d3c63339b13802886d53fc85",
];

#[test]
fn points_of_small_order_are_refused(rt: HostRuntime) {
    'points: for &public in SMALL_POINTS {
        match public_from_ed25519(&array_of(&rt, public)) {
            Err(ConversionError::SmallOrder) => {}
            _ => panic!(rt; "not refused by its name"),
        }
    }
}

#[test]
fn what_is_no_point_is_refused(rt: HostRuntime) {
    // y = 2 is no point's, and the other is the spelling p + 1 of y = 1.
    'texts: for &public in &[
        "0200000000000000000000000000000000000000000000000000000000000000",
        "eeffffffffffffffffffffffffffffffffffffffffffffffffffffffffffff7f",
    ] {
        match public_from_ed25519(&array_of(&rt, public)) {
            Err(ConversionError::InvalidPoint) => {}
            _ => panic!(rt; "not refused by its name"),
        }
    }
}
