//! What is refused, by its name.

use super::key_of;
use crate::expect::{expect_shown, expect_text, expect_that};
use paseto_wrapping::{
    PasswordCost, WrapError, WrappedType, WrappingKey, protect_local, protect_secret,
    unprotect_local, unprotect_secret, unwrap_local, unwrap_secret, wrapped_header_of,
};
use rusty_paseto_parts::{
    Key, Local, PasetoAsymmetricPrivateKey, PasetoSymmetricKey, Public, V2, V3, V4,
};
use rusty_paseto_paserk::PaserkVersion;
use std::alloc::Global;
use std::process::Abort;

// A wrapping key, and another one.
const WRAPPING_KEY: &str = "707172737475767778797a7b7c7d7e7f808182838485868788898a8b8c8d8e8f";

const OTHER_KEY: &str = "707172737475767778797a7b7c7d7e7f808182838485868788898a8b8c8d8e90";

// The key of zeros of version 4 under the wrapping key.
const LOCAL: &str =
    "k4.local-wrap.pie.Q2_mXGFAatwDysLNnV84S78IhohdGIkNjIeei2TyXegAAAAAAAAAAAAAAAAAAAAAAAAAAAAAAAAAAAAAAAAAAH8My5XE6gls9ScIJS6mZBvFVh4VO_Mg9jS8WoF8d37d";

// What the error shows is the wanted text, which is `a key` where there is none.
fn expect_fault<T: Drop>(
    rt: &impl Abort,
    alloc: Global,
    answer: Result<T, WrapError>,
    wanted: &str,
) {
    match answer {
        Ok(key) => {
            drop(key);
            expect_text(rt, "a key", wanted);
        }
        Err(error) => {
            expect_shown(rt, alloc, &error, wanted);
            drop(error);
        }
    }
}

fn wrapping_key<V>(rt: &impl Abort, digits: &str) -> WrappingKey<V> {
    WrappingKey::from(key_of(rt, digits))
}

// Each text with what is said of it where a local key of version 4 is asked for.
const REFUSED: &[(&str, &str)] = &[
    ("", "the text is no wrapped key of PASERK"),
    ("k4.", "the text is no wrapped key of PASERK"),
    ("k4.local-wrap.pie", "the text is no wrapped key of PASERK"),
    (
        "k5.local-wrap.pie.Q2_mXGFAatwDysLNnV84S78IhohdGIkNjIeei2TyXegAAAAAAAAAAAAAAAAAAAAAAAAAAAAAAAAAAAAAAAAAAH8My5XE6gls9ScIJS6mZBvFVh4VO_Mg9jS8WoF8d37d",
        "the text is no wrapped key of PASERK",
    ),
    (
        "k4.local.Q2_mXGFAatwDysLNnV84S78IhohdGIkNjIeei2TyXegAAAAAAAAAAAAAAAAAAAAAAAAAAAAAAAAAAAAAAAAAAH8My5XE6gls9ScIJS6mZBvFVh4VO_Mg9jS8WoF8d37d",
        "the text is no wrapped key of PASERK",
    ),
    (
        "k4.local-wrap.xyz.Q2_mXGFAatwDysLNnV84S78IhohdGIkNjIeei2TyXegAAAAAAAAAAAAAAAAAAAAAAAAAAAAAAAAAAAAAAAAAAH8My5XE6gls9ScIJS6mZBvFVh4VO_Mg9jS8WoF8d37d",
        "the text is no wrapped key of PASERK",
    ),
    (
        "k3.local-wrap.pie.Q2_mXGFAatwDysLNnV84S78IhohdGIkNjIeei2TyXegAAAAAAAAAAAAAAAAAAAAAAAAAAAAAAAAAAAAAAAAAAH8My5XE6gls9ScIJS6mZBvFVh4VO_Mg9jS8WoF8d37d",
        "the wrapped key is one of version 3",
    ),
    (
        "k2.seal.Q2_mXGFAatwDysLNnV84S78IhohdGIkNjIeei2TyXegAAAAAAAAAAAAAAAAAAAAAAAAAAAAAAAAAAAAAAAAAAH8My5XE6gls9ScIJS6mZBvFVh4VO_Mg9jS8WoF8d37d",
        "the wrapped key is one of version 2",
    ),
    (
        "k4.secret-wrap.pie.Q2_mXGFAatwDysLNnV84S78IhohdGIkNjIeei2TyXegAAAAAAAAAAAAAAAAAAAAAAAAAAAAAAAAAAAAAAAAAAH8My5XE6gls9ScIJS6mZBvFVh4VO_Mg9jS8WoF8d37d",
        "the wrapped key is a private one, under a wrapping key",
    ),
    (
        "k4.local-pw.Q2_mXGFAatwDysLNnV84S78IhohdGIkNjIeei2TyXegAAAAAAAAAAAAAAAAAAAAAAAAAAAAAAAAAAAAAAAAAAH8My5XE6gls9ScIJS6mZBvFVh4VO_Mg9jS8WoF8d37d",
        "the wrapped key is a local one, under a password",
    ),
    (
        "k4.secret-pw.Q2_mXGFAatwDysLNnV84S78IhohdGIkNjIeei2TyXegAAAAAAAAAAAAAAAAAAAAAAAAAAAAAAAAAAAAAAAAAAH8My5XE6gls9ScIJS6mZBvFVh4VO_Mg9jS8WoF8d37d",
        "the wrapped key is a private one, under a password",
    ),
    (
        "k4.seal.Q2_mXGFAatwDysLNnV84S78IhohdGIkNjIeei2TyXegAAAAAAAAAAAAAAAAAAAAAAAAAAAAAAAAAAAAAAAAAAH8My5XE6gls9ScIJS6mZBvFVh4VO_Mg9jS8WoF8d37d",
        "the wrapped key is a local one, sealed to a public key",
    ),
    (
        "k4.local-wrap.pie.",
        "what follows the header is no base64url of a wrapped key, or was cut off",
    ),
    (
        "k4.local-wrap.pie.Q2_mXGFAatwDysLNnV84S78IhohdGIkNjIeei2TyXegAAAAAAAAAAAAAAAAAAAAAAAAAAAAAAAAAAAAAAAAAAH8My5XE6gls9ScIJS6mZBvFVh4VO_Mg9jS8WoF8d37d=",
        "what follows the header is no base64url of a wrapped key, or was cut off",
    ),
    (
        "k4.local-wrap.pie.Q2_mXGFAatwDysLNnV84S78IhohdGIkNjIeei2TyXegAAAAAAAAAAAAAAAAAAAAAAAAAAAAAAAAAAAAAAAAAAH8My5XE6gls9ScIJS6mZBvFVh4VO_Mg9jS8WoF8d37dA",
        "what follows the header is no base64url of a wrapped key, or was cut off",
    ),
    (
        "k4.local-wrap.pie.Q2_mXGFAatwDysLNnV84S78IhohdGIkNjIeei2TyXegAAAAAAAAAAAAAAAAAAAAAAAAAAAAAAAAAAAAAAAAAAH8My5XE6gls9ScIJS6mZBvFVh4VO_Mg9jS8WoF8d37d.",
        "what follows the header is no base64url of a wrapped key, or was cut off",
    ),
    (
        "k4.local-wrap.pie.Q2_mXGFAatwDysLNnV84S78IhohdGIkNjIeei2TyXegAAAAAAAAAAAAAAAAAAAAAAAAAAAAAAAAAAAAAAAAA",
        "what follows the header is no base64url of a wrapped key, or was cut off",
    ),
    (
        "k4.local-wrap.pie.Qm_mXGFAatwDysLNnV84S78IhohdGIkNjIeei2TyXegAAAAAAAAAAAAAAAAAAAAAAAAAAAAAAAAAAAAAAAAAAH8My5XE6gls9ScIJS6mZBvFVh4VO_Mg9jS8WoF8d37d",
        "wrong key or password, or the text was changed",
    ),
    (
        "k4.local-wrap.pie.Q2_mXGFAatwDysLNnV84S78IhohdGIkNjIeei2TyXekAAAAAAAAAAAAAAAAAAAAAAAAAAAAAAAAAAAAAAAAAAH8My5XE6gls9ScIJS6mZBvFVh4VO_Mg9jS8WoF8d37d",
        "wrong key or password, or the text was changed",
    ),
    (
        "k4.local-wrap.pie.Q2_mXGFAatwDysLNnV84S78IhohdGIkNjIeei2TyXegBAAAAAAAAAAAAAAAAAAAAAAAAAAAAAAAAAAAAAAAAAH8My5XE6gls9ScIJS6mZBvFVh4VO_Mg9jS8WoF8d37d",
        "wrong key or password, or the text was changed",
    ),
    (
        "k4.local-wrap.pie.Q2_mXGFAatwDysLNnV84S78IhohdGIkNjIeei2TyXegAAAAAAAAAAAAAAAAAAAAAAAAAAAAAAAAAAAAAAAAAAX8My5XE6gls9ScIJS6mZBvFVh4VO_Mg9jS8WoF8d37d",
        "wrong key or password, or the text was changed",
    ),
    (
        "k4.local-wrap.pie.Q2_mXGFAatwDysLNnV84S78IhohdGIkNjIeei2TyXegAAAAAAAAAAAAAAAAAAAAAAAAAAAAAAAAAAAAAAAAAAH4My5XE6gls9ScIJS6mZBvFVh4VO_Mg9jS8WoF8d37d",
        "wrong key or password, or the text was changed",
    ),
    (
        "k4.local-wrap.pie.Q2_mXGFAatwDysLNnV84S78IhohdGIkNjIeei2TyXegAAAAAAAAAAAAAAAAAAAAAAAAAAAAAAAAAAAAAAAAAAH8My5XE6gls9ScIJS6mZBvFVh4VO_Mg9jS8WoF8d37c",
        "wrong key or password, or the text was changed",
    ),
    (
        "k4.local-wrap.pie.HJHQ6apIWsvVLuSEZlVTuJAKX-BD3rKqCSB8C6fKynIAAAAAAAAAAAAAAAAAAAAAAAAAAAAAAAAAAAAAAAAAAA",
        "what was wrapped is no key of the version",
    ),
    (
        "k4.local-wrap.pie.Gydy5onqFyKxgzaA6hfrDp73p3IMBhOWKE0Hu1T3XXYAAAAAAAAAAAAAAAAAAAAAAAAAAAAAAAAAAAAAAAAAAH8My5XE6gls9ScIJS6mZBvFVh4VO_Mg9jS8WoF8d34",
        "what was wrapped is no key of the version",
    ),
    (LOCAL, "a key"),
];

#[test]
fn other_texts_are_refused_by_name(rt: HostRuntime) {
    'texts: for &(text, wanted) in REFUSED {
        let answer = unwrap_local::<V4>(rt.alloc(), &wrapping_key(&rt, WRAPPING_KEY), text);
        expect_fault(&rt, rt.alloc(), answer, wanted);
    }
}

#[test]
fn other_wrapping_keys_are_refused(rt: HostRuntime) {
    let answer = unwrap_local::<V4>(rt.alloc(), &wrapping_key(&rt, OTHER_KEY), LOCAL);
    expect_fault(
        &rt,
        rt.alloc(),
        answer,
        "wrong key or password, or the text was changed",
    );
}

// The payload of the key of version 4, behind the header of another version or type.
#[test]
fn a_changed_header_is_refused(rt: HostRuntime) {
    let answer = unwrap_local::<V2>(
        rt.alloc(),
        &wrapping_key(&rt, WRAPPING_KEY),
        "k2.local-wrap.pie.Q2_mXGFAatwDysLNnV84S78IhohdGIkNjIeei2TyXegAAAAAAAAAAAAAAAAAAAAAAAAAAAAAAAAAAAAAAAAAAH8My5XE6gls9ScIJS6mZBvFVh4VO_Mg9jS8WoF8d37d",
    );
    expect_fault(
        &rt,
        rt.alloc(),
        answer,
        "wrong key or password, or the text was changed",
    );
    let answer = unwrap_secret::<V4>(
        rt.alloc(),
        &wrapping_key(&rt, WRAPPING_KEY),
        "k4.secret-wrap.pie.Q2_mXGFAatwDysLNnV84S78IhohdGIkNjIeei2TyXegAAAAAAAAAAAAAAAAAAAAAAAAAAAAAAAAAAAAAAAAAAH8My5XE6gls9ScIJS6mZBvFVh4VO_Mg9jS8WoF8d37d",
    );
    expect_fault(
        &rt,
        rt.alloc(),
        answer,
        "wrong key or password, or the text was changed",
    );
}

// A private key of version 3 has 48 bytes; these were made of 47.
#[test]
fn short_private_keys_are_refused(rt: HostRuntime) {
    let answer = unwrap_secret::<V3>(
        rt.alloc(),
        &wrapping_key(&rt, WRAPPING_KEY),
        "k3.secret-wrap.pie.Ta6WhECbt47OcRl1fKEfMieb12wraBZ9lCLkDhPlVTtzZpS5H3TpV4G169DNmEGrAAAAAAAAAAAAAAAAAAAAAAAAAAAAAAAAAAAAAAAAAAAEixZaNst88tQtVWqTVhmZ-UUIZDWQiLCaCbo7CEVDzmNBte1cDFuZf182zR9x5w",
    );
    expect_fault(
        &rt,
        rt.alloc(),
        answer,
        "what was wrapped is no key of the version",
    );
    let answer = unprotect_secret::<V3>(
        rt.alloc(),
        b"password",
        PasswordCost::most(),
        "k3.secret-pw.AAAAAAAAAAAAAAAAAAAAAAAAAAAAAAAAAAAAAAAAAAAAAAACAAAAAAAAAAAAAAAAAAAAAL7JqJOYRmBLaWkfPE_0VVCSM1gK31nZGU6eJOoGjJzYp1ssSr1o78P98CB6Oq0MnL1e5DypT5OBfrxN0EkSgnQYG7GSPO2OUkxpvSI6rUGtKT5uule1h1C6RASTZaUo",
    );
    expect_fault(
        &rt,
        rt.alloc(),
        answer,
        "what was wrapped is no key of the version",
    );
}

#[test]
fn private_keys_of_63_bytes_are_refused(rt: HostRuntime) {
    let answer = unwrap_secret::<V4>(
        rt.alloc(),
        &wrapping_key(&rt, WRAPPING_KEY),
        "k4.secret-wrap.pie.0RMvuKKvAJXUkKGrswAMTbkDuYZnaPja7ubICrpnQXAAAAAAAAAAAAAAAAAAAAAAAAAAAAAAAAAAAAAAAAAAAH8My5XE6gls9ScIJS6mZBvFVh4VO_Mg9jS8WoF8d37dICZbd3XkjCn05a6yhWtbxOmLBe1kUYCR00D6EJS2PQ",
    );
    expect_fault(
        &rt,
        rt.alloc(),
        answer,
        "what was wrapped is no key of the version",
    );
}

// The keys of zeros under the password `password`, of versions 3 and 4.
const NIST: &str =
    "k3.local-pw.AAAAAAAAAAAAAAAAAAAAAAAAAAAAAAAAAAAAAAAAAAAAAAACAAAAAAAAAAAAAAAAAAAAAL7JqJOYRmBLaWkfPE_0VVCSM1gK31nZGU6eJOoGjJzYo9bxPQ-OfBEGZiHapQIays9NKQmy38vz_a6qP7oRmgfafU57PsgKlc5H-tNRIixi";

const SODIUM: &str =
    "k4.local-pw.AAAAAAAAAAAAAAAAAAAAAAAAAAAAACAAAAAAAQAAAAEAAAAAAAAAAAAAAAAAAAAAAAAAAAAAAABxdCym97oPOlSkdKxiz70Ogy1L_1KF8ww3iF_sp8rNjAOjTL7PcnsrN8IH9aOsqPN6E1v65lN64CTsGWvf8gD2";

// Each text with what is said of it where a local key of version 4 is asked for.
const REFUSED_PASSWORDS: &[(&str, &str)] = &[
    ("k4.local", "the text is no wrapped key of PASERK"),
    (
        "k3.local-pw.AAAAAAAAAAAAAAAAAAAAAAAAAAAAACAAAAAAAQAAAAEAAAAAAAAAAAAAAAAAAAAAAAAAAAAAAABxdCym97oPOlSkdKxiz70Ogy1L_1KF8ww3iF_sp8rNjAOjTL7PcnsrN8IH9aOsqPN6E1v65lN64CTsGWvf8gD2",
        "the wrapped key is one of version 3",
    ),
    (
        "k4.local-wrap.pie.AAAAAAAAAAAAAAAAAAAAAAAAAAAAACAAAAAAAQAAAAEAAAAAAAAAAAAAAAAAAAAAAAAAAAAAAABxdCym97oPOlSkdKxiz70Ogy1L_1KF8ww3iF_sp8rNjAOjTL7PcnsrN8IH9aOsqPN6E1v65lN64CTsGWvf8gD2",
        "the wrapped key is a local one, under a wrapping key",
    ),
    (
        "k4.secret-pw.AAAAAAAAAAAAAAAAAAAAAAAAAAAAACAAAAAAAQAAAAEAAAAAAAAAAAAAAAAAAAAAAAAAAAAAAABxdCym97oPOlSkdKxiz70Ogy1L_1KF8ww3iF_sp8rNjAOjTL7PcnsrN8IH9aOsqPN6E1v65lN64CTsGWvf8gD2",
        "the wrapped key is a private one, under a password",
    ),
    (
        "k4.local-pw.AAAA",
        "what follows the header is no base64url of a wrapped key, or was cut off",
    ),
    (
        "k4.local-pw.AAAAAAAAAAAAAAAAAAAAAAAAAAAAACAAAAAAAQAAAAEAAAAAAAAAAAAAAAAAAAAAAAAAAAAAAABxdCym97oPOlSkdKxiz70Ogy1L_1KF8ww3iF_sp8rNjAOjTL7PcnsrN8IH9aOsqPN6E1v65lN64CTsGWvf8gD2A",
        "what follows the header is no base64url of a wrapped key, or was cut off",
    ),
    (
        "k4.local-pw.AAAAAAAAAAAAAAAAAAAAAAAAAAAAACAAAAAAAQAAAAEAAAAAAAAAAAAAAAAAAAAAAAAAAAAAAABxdCym97oPOlSkdKxiz70Ogy1L_1KF8ww3iF_sp8rN",
        "what follows the header is no base64url of a wrapped key, or was cut off",
    ),
    (
        "k4.local-pw.AAAAAAAAAAAAAAAAAAAAAAAAAAAAACAAAAAAAAAAAAEAAAAAAAAAAAAAAAAAAAAAAAAAAAAAAABxdCym97oPOlSkdKxiz70Ogy1L_1KF8ww3iF_sp8rNjAOjTL7PcnsrN8IH9aOsqPN6E1v65lN64CTsGWvf8gD2",
        "the cost of the password is one that its function does not allow",
    ),
    (
        "k4.local-pw.AAAAAAAAAAAAAAAAAAAAAAAAAAAAACAAAAAAAQAAAAAAAAAAAAAAAAAAAAAAAAAAAAAAAAAAAABxdCym97oPOlSkdKxiz70Ogy1L_1KF8ww3iF_sp8rNjAOjTL7PcnsrN8IH9aOsqPN6E1v65lN64CTsGWvf8gD2",
        "the cost of the password is one that its function does not allow",
    ),
    (
        "k4.local-pw.AAAAAAAAAAAAAAAAAAAAAAAAAAAAACABAAAAAQAAAAEAAAAAAAAAAAAAAAAAAAAAAAAAAAAAAABxdCym97oPOlSkdKxiz70Ogy1L_1KF8ww3iF_sp8rNjAOjTL7PcnsrN8IH9aOsqPN6E1v65lN64CTsGWvf8gD2",
        "the cost of the password is one that its function does not allow",
    ),
    (
        "k4.local-pw.AAAAAAAAAAAAAAAAAAAAAAAAAAAAADwAAAAAAQAAAAIAAAAAAAAAAAAAAAAAAAAAAAAAAAAAAABxdCym97oPOlSkdKxiz70Ogy1L_1KF8ww3iF_sp8rNjAOjTL7PcnsrN8IH9aOsqPN6E1v65lN64CTsGWvf8gD2",
        "the cost of the password is one that its function does not allow",
    ),
    (
        "k4.local-pw.AAAAAAAAAAAAAAAAAAAAAAAABAAAAAAAAAAAAQAAAAEAAAAAAAAAAAAAAAAAAAAAAAAAAAAAAABxdCym97oPOlSkdKxiz70Ogy1L_1KF8ww3iF_sp8rNjAOjTL7PcnsrN8IH9aOsqPN6E1v65lN64CTsGWvf8gD2",
        "the cost of the password is one that its function does not allow",
    ),
    (
        "k4.local-pw.AAAAAAAAAAAAAAAAAAAAAAAAAgAAAAAAAAAAAQEAAAAAAAAAAAAAAAAAAAAAAAAAAAAAAAAAAABxdCym97oPOlSkdKxiz70Ogy1L_1KF8ww3iF_sp8rNjAOjTL7PcnsrN8IH9aOsqPN6E1v65lN64CTsGWvf8gD2",
        "the cost of the password is one that its function does not allow",
    ),
    (
        "k4.local-pw.AAAAAAAAAAAAAAAAAAAAAAAAAABAAAQAAAAAAQAAAAEAAAAAAAAAAAAAAAAAAAAAAAAAAAAAAABxdCym97oPOlSkdKxiz70Ogy1L_1KF8ww3iF_sp8rNjAOjTL7PcnsrN8IH9aOsqPN6E1v65lN64CTsGWvf8gD2",
        "the text asks for a costlier password than the bound allows",
    ),
    (
        "k4.local-pw.AAAAAAAAAAAAAAAAAAAAAAAAAAAAACAAAAAAIQAAAAEAAAAAAAAAAAAAAAAAAAAAAAAAAAAAAABxdCym97oPOlSkdKxiz70Ogy1L_1KF8ww3iF_sp8rNjAOjTL7PcnsrN8IH9aOsqPN6E1v65lN64CTsGWvf8gD2",
        "the text asks for a costlier password than the bound allows",
    ),
    (
        "k4.local-pw.AAAAAAAAAAAAAAAAAAAAAAAAAAAAEAAAAAAAAQAAABEAAAAAAAAAAAAAAAAAAAAAAAAAAAAAAABxdCym97oPOlSkdKxiz70Ogy1L_1KF8ww3iF_sp8rNjAOjTL7PcnsrN8IH9aOsqPN6E1v65lN64CTsGWvf8gD2",
        "the text asks for a costlier password than the bound allows",
    ),
    (
        "k4.local-pw.AQAAAAAAAAAAAAAAAAAAAAAAAAAAACAAAAAAAQAAAAEAAAAAAAAAAAAAAAAAAAAAAAAAAAAAAABxdCym97oPOlSkdKxiz70Ogy1L_1KF8ww3iF_sp8rNjAOjTL7PcnsrN8IH9aOsqPN6E1v65lN64CTsGWvf8gD2",
        "wrong key or password, or the text was changed",
    ),
    (
        "k4.local-pw.AAAAAAAAAAAAAAAAAAAAAAAAAAAAACAAAAAAAQAAAAEBAAAAAAAAAAAAAAAAAAAAAAAAAAAAAABxdCym97oPOlSkdKxiz70Ogy1L_1KF8ww3iF_sp8rNjAOjTL7PcnsrN8IH9aOsqPN6E1v65lN64CTsGWvf8gD2",
        "wrong key or password, or the text was changed",
    ),
    (
        "k4.local-pw.AAAAAAAAAAAAAAAAAAAAAAAAAAAAACAAAAAAAQAAAAEAAAAAAAAAAAAAAAAAAAAAAAAAAAAAAABwdCym97oPOlSkdKxiz70Ogy1L_1KF8ww3iF_sp8rNjAOjTL7PcnsrN8IH9aOsqPN6E1v65lN64CTsGWvf8gD2",
        "wrong key or password, or the text was changed",
    ),
    (
        "k4.local-pw.AAAAAAAAAAAAAAAAAAAAAAAAAAAAACAAAAAAAQAAAAEAAAAAAAAAAAAAAAAAAAAAAAAAAAAAAABxdCym97oPOlSkdKxiz70Ogy1L_1KF8ww3iF_sp8rNjAKjTL7PcnsrN8IH9aOsqPN6E1v65lN64CTsGWvf8gD2",
        "wrong key or password, or the text was changed",
    ),
    (
        "k4.local-pw.AAAAAAAAAAAAAAAAAAAAAAAAAAAAACAAAAAAAQAAAAEAAAAAAAAAAAAAAAAAAAAAAAAAAAAAAABxdCym97oPOlSkdKxiz70Ogy1L_1KF8ww3iF_sp8rNjAOjTL7PcnsrN8IH9aOsqPN6E1v65lN64CTsGWvf8gD3",
        "wrong key or password, or the text was changed",
    ),
    (
        "k4.local-pw.AAAAAAAAAAAAAAAAAAAAAAAAAAAAACAAAAAAAQAAAAEAAAAAAAAAAAAAAAAAAAAAAAAAAAAAAABxdCym97oPOlSkdKxiz70Ogy1L_1KF8ww3iF_sp8rNvgXzSAIcoZkqHdHvZZWer2ULsVtrP_Q9awjI2zB1M_0",
        "what was wrapped is no key of the version",
    ),
    (SODIUM, "a key"),
];

#[test]
fn other_texts_under_passwords_are_refused_by_name(rt: HostRuntime) {
    'texts: for &(text, wanted) in REFUSED_PASSWORDS {
        let answer = unprotect_local::<V4>(rt.alloc(), b"password", PasswordCost::most(), text);
        expect_fault(&rt, rt.alloc(), answer, wanted);
    }
}

// Texts of version 3: no iteration, more than the bound, and the text itself.
const ITERATIONS: &[(&str, &str)] = &[
    (
        "k3.local-pw.AAAAAAAAAAAAAAAAAAAAAAAAAAAAAAAAAAAAAAAAAAAAAAAAAAAAAAAAAAAAAAAAAAAAAL7JqJOYRmBLaWkfPE_0VVCSM1gK31nZGU6eJOoGjJzYo9bxPQ-OfBEGZiHapQIays9NKQmy38vz_a6qP7oRmgfafU57PsgKlc5H-tNRIixi",
        "the cost of the password is one that its function does not allow",
    ),
    (
        "k3.local-pw.AAAAAAAAAAAAAAAAAAAAAAAAAAAAAAAAAAAAAAAAAAAAmJaBAAAAAAAAAAAAAAAAAAAAAL7JqJOYRmBLaWkfPE_0VVCSM1gK31nZGU6eJOoGjJzYo9bxPQ-OfBEGZiHapQIays9NKQmy38vz_a6qP7oRmgfafU57PsgKlc5H-tNRIixi",
        "the text asks for a costlier password than the bound allows",
    ),
    (NIST, "a key"),
];

#[test]
fn iterations_are_refused_by_name(rt: HostRuntime) {
    'texts: for &(text, wanted) in ITERATIONS {
        let answer = unprotect_local::<V3>(rt.alloc(), b"password", PasswordCost::most(), text);
        expect_fault(&rt, rt.alloc(), answer, wanted);
    }
}

#[test]
fn other_passwords_are_refused(rt: HostRuntime) {
    let wanted = "wrong key or password, or the text was changed";
    let most = PasswordCost::most();
    let answer = unprotect_local::<V4>(rt.alloc(), b"Password", most, SODIUM);
    expect_fault(&rt, rt.alloc(), answer, wanted);
    let answer = unprotect_local::<V3>(rt.alloc(), b"", most, NIST);
    expect_fault(&rt, rt.alloc(), answer, wanted);
}

// The bound is the caller's: one iteration, or one KiB, less than the texts ask for.
#[test]
fn a_lower_bound_refuses_the_texts(rt: HostRuntime) {
    let wanted = "the text asks for a costlier password than the bound allows";
    let most = PasswordCost {
        iterations: 1,
        memory: 7 * 1024,
        passes: 1,
        lanes: 1,
    };
    let answer = unprotect_local::<V4>(rt.alloc(), b"password", most, SODIUM);
    expect_fault(&rt, rt.alloc(), answer, wanted);
    let answer = unprotect_local::<V3>(rt.alloc(), b"password", most, NIST);
    expect_fault(&rt, rt.alloc(), answer, wanted);
}

#[test]
fn costs_that_are_not_allowed_are_not_written(rt: HostRuntime) {
    let wanted = "the cost of the password is one that its function does not allow";
    let cost = PasswordCost {
        iterations: 0,
        memory: 8193,
        passes: 1,
        lanes: 1,
    };
    let key = PasetoSymmetricKey::<V4, Local>::from(Key::from([0u8; 32]));
    let answer = protect_local(rt.alloc(), b"password", cost, &[0; 16], &[0; 24], &key);
    expect_fault(&rt, rt.alloc(), answer, wanted);
    let bytes = Key::from([0u8; 48]);
    let key = PasetoAsymmetricPrivateKey::<V3, Public>::from(&bytes);
    let answer = protect_secret(rt.alloc(), b"password", cost, &[0; 32], &[0; 16], &key);
    expect_fault(&rt, rt.alloc(), answer, wanted);
}

#[test]
fn salts_and_nonces_of_other_lengths_are_refused(rt: HostRuntime) {
    let wanted = "the salt or the nonce has another length than the version asks for";
    let cost = PasswordCost {
        iterations: 1,
        memory: 8192,
        passes: 1,
        lanes: 1,
    };
    let key = PasetoSymmetricKey::<V4, Local>::from(Key::from([0u8; 32]));
    let answer = protect_local(rt.alloc(), b"password", cost, &[0; 32], &[0; 24], &key);
    expect_fault(&rt, rt.alloc(), answer, wanted);
    let bytes = Key::from([0u8; 48]);
    let key = PasetoAsymmetricPrivateKey::<V3, Public>::from(&bytes);
    let answer = protect_secret(rt.alloc(), b"password", cost, &[0; 32], &[0; 24], &key);
    expect_fault(&rt, rt.alloc(), answer, wanted);
}

#[test]
fn a_text_says_what_it_begins_as(rt: HostRuntime) {
    let found = wrapped_header_of("k3.seal.AAAA");
    let wanted = Some((PaserkVersion::V3, WrappedType::Seal, "AAAA"));
    expect_that(&rt, found == wanted, "a sealed key");
    expect_that(
        &rt,
        wrapped_header_of("k3.local.AAAA").is_none(),
        "a bare key",
    );
}
