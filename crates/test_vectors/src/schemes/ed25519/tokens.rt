//! The public tokens of the PASETO specification's test vectors.

use crate::expect::expect_text;
use crate::hexadecimal::array_of;
use paseto_ed25519::Ed25519;
use rusty_paseto_core::{
    Footer, ImplicitAssertion, Key, Paseto, PasetoAsymmetricPrivateKey, PasetoAsymmetricPublicKey,
    Payload, Public, V2, V4,
};
use std::alloc::Global;
use std::process::Abort;

// The private key of all of them: a seed, and its public key.
const PRIVATE: &str = concat!(
    "b4cbfb43df4ce210727d953e4a713307fa19bb7d9f85041438d9e11b942a3774",
    "1eb9dbbbbc047c03fd70604e0071f0987e16b28b757225c11f00415d0e20b1a2",
);

const PUBLIC: &str = "1eb9dbbbbc047c03fd70604e0071f0987e16b28b757225c11f00415d0e20b1a2";

const TEXT_2: &str =
    "{\"data\":\"this is a signed message\",\"exp\":\"2019-01-01T00:00:00+00:00\"}";

const TEXT_4: &str =
    "{\"data\":\"this is a signed message\",\"exp\":\"2022-01-01T00:00:00+00:00\"}";

const FOOTER: &str = "{\"kid\":\"zVhMiPBP9fRf2snEcT7gFTioeA9COcNy9DfgL1W60haN\"}";

// The text is signed to the token, and the token verifies as the text.
fn expect_v2(rt: &impl Abort, alloc: Global, footer: Option<Footer<'_>>, token: &str) {
    let private = Key::<64>::from(array_of(rt, PRIVATE));
    let public = Key::<32>::from(array_of(rt, PUBLIC));
    let mut paseto = Paseto::<V2, Public>::builder();
    paseto.set_payload(Payload::from(TEXT_2));
    if let Some(footer) = footer {
        paseto.set_footer(footer);
    }
    let key = PasetoAsymmetricPrivateKey::<V2, Public>::from(&private);
    let made = paseto
        .try_sign(alloc, &mut Ed25519, &key)
        .expect(rt, "a token");
    expect_text(rt, made.as_str(), token);
    let key = PasetoAsymmetricPublicKey::<V2, Public>::from(&public);
    let text = Paseto::<V2, Public>::try_verify(alloc, &Ed25519, token, &key, footer).expect(
        rt, "a text",
    );
    expect_text(rt, text.as_str(), TEXT_2);
}

// The same in version 4.
fn expect_v4(
    rt: &impl Abort,
    alloc: Global,
    footer: Option<Footer<'_>>,
    assertion: &str,
    token: &str,
) {
    let private = Key::<64>::from(array_of(rt, PRIVATE));
    let public = Key::<32>::from(array_of(rt, PUBLIC));
    let assertion = ImplicitAssertion::from(assertion);
    let mut paseto = Paseto::<V4, Public>::builder();
    paseto.set_payload(Payload::from(TEXT_4));
    paseto.set_implicit_assertion(assertion);
    if let Some(footer) = footer {
        paseto.set_footer(footer);
    }
    let key = PasetoAsymmetricPrivateKey::<V4, Public>::from(&private);
    let made = paseto
        .try_sign(alloc, &mut Ed25519, &key)
        .expect(rt, "a token");
    expect_text(rt, made.as_str(), token);
    let key = PasetoAsymmetricPublicKey::<V4, Public>::from(&public);
    let text = Paseto::<V4, Public>::try_verify(
        alloc,
        &Ed25519,
        token,
        &key,
        footer,
        Some(assertion),
    ).expect(rt, "a text");
    expect_text(rt, text.as_str(), TEXT_4);
}

// 2-S-1.
#[test]
fn version_2(rt: HostRuntime) {
    let token = concat!(
        "v2.public.eyJkYXRhIjoidGhpcyBpcyBhIHNpZ25lZCBtZXNzYWdlIiwiZXhwIjoiMjAxOS0wMS0wMVQwMDowMDowMCswMDowMCJ9",
        "HQr8URrGntTu7Dz9J2IF23d1M7-9lH9xiqdGyJNvzp4angPW5Esc7C5huy_M8I8_DjJK2ZXC2SUYuOFM-Q_5Cw",
    );
    expect_v2(&rt, rt.alloc(), None, token);
}

// 2-S-2.
#[test]
fn version_2_with_a_footer(rt: HostRuntime) {
    let token = concat!(
        "v2.public.eyJkYXRhIjoidGhpcyBpcyBhIHNpZ25lZCBtZXNzYWdlIiwiZXhwIjoiMjAxOS0wMS0wMVQwMDowMDowMCswMDowMCJ9",
        "flsZsx_gYCR0N_Ec2QxJFFpvQAs7h9HtKwbVK2n1MJ3Rz-hwe8KUqjnd8FAnIJZ601tp7lGkguU63oGbomhoBw",
        ".eyJraWQiOiJ6VmhNaVBCUDlmUmYyc25FY1Q3Z0ZUaW9lQTlDT2NOeTlEZmdMMVc2MGhhTiJ9",
    );
    expect_v2(&rt, rt.alloc(), Some(Footer::from(FOOTER)), token);
}

// 4-S-1.
#[test]
fn version_4(rt: HostRuntime) {
    let token = concat!(
        "v4.public.eyJkYXRhIjoidGhpcyBpcyBhIHNpZ25lZCBtZXNzYWdlIiwiZXhwIjoiMjAyMi0wMS0wMVQwMDowMDowMCswMDowMCJ9",
        "bg_XBBzds8lTZShVlwwKSgeKpLT3yukTw6JUz3W4h_ExsQV-P0V54zemZDcAxFaSeef1QlXEFtkqxT1ciiQEDA",
    );
    expect_v4(&rt, rt.alloc(), None, "", token);
}

// 4-S-2.
#[test]
fn version_4_with_a_footer(rt: HostRuntime) {
    let token = concat!(
        "v4.public.eyJkYXRhIjoidGhpcyBpcyBhIHNpZ25lZCBtZXNzYWdlIiwiZXhwIjoiMjAyMi0wMS0wMVQwMDowMDowMCswMDowMCJ9",
        "v3Jt8mx_TdM2ceTGoqwrh4yDFn0XsHvvV_D0DtwQxVrJEBMl0F2caAdgnpKlt4p7xBnx1HcO-SPo8FPp214HDw",
        ".eyJraWQiOiJ6VmhNaVBCUDlmUmYyc25FY1Q3Z0ZUaW9lQTlDT2NOeTlEZmdMMVc2MGhhTiJ9",
    );
    expect_v4(&rt, rt.alloc(), Some(Footer::from(FOOTER)), "", token);
}

// 4-S-3.
#[test]
fn version_4_with_an_assertion(rt: HostRuntime) {
    let token = concat!(
        "v4.public.eyJkYXRhIjoidGhpcyBpcyBhIHNpZ25lZCBtZXNzYWdlIiwiZXhwIjoiMjAyMi0wMS0wMVQwMDowMDowMCswMDowMCJ9",
        "NPWciuD3d0o5eXJXG5pJy-DiVEoyPYWs1YSTwWHNJq6DZD3je5gf-0M4JR9ipdUSJbIovzmBECeaWmaqcaP0DQ",
        ".eyJraWQiOiJ6VmhNaVBCUDlmUmYyc25FY1Q3Z0ZUaW9lQTlDT2NOeTlEZmdMMVc2MGhhTiJ9",
    );
    expect_v4(
        &rt,
        rt.alloc(),
        Some(Footer::from(FOOTER)),
        "{\"test-vector\":\"4-S-3\"}",
        token,
    );
}
