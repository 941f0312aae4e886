//! What tokens show that were never issued: the published vectors 4-E-1 and 4-S-1 beside none, one and a thousand others.

use crate::expect::{expect_digits, expect_that};
use crate::hexadecimal::array_of;
use paseto_ed25519::Ed25519;
use rusty_paseto_core::{
    Key, Local, Opening, Paseto, PasetoAsymmetricPrivateKey, PasetoAsymmetricPublicKey,
    PasetoError, PasetoNonce, PasetoSymmetricKey, Payload, Public, SignatureForgery, SignedToken,
    TagForgery, V4,
};
use std::alloc::Global;
use std::process::Abort;

const SECRET: &str = "707172737475767778797a7b7c7d7e7f808182838485868788898a8b8c8d8e8f";

const OTHER_SECRET: &str = "8f8e8d8c8b8a898887868584838281807f7e7d7c7b7a79787776757473727170";

// 4-E-1, whose nonce is of zeros, and the same with the dot before an empty footer.
const SEALED: &str = concat!(
    "v4.local.AAAAAAAAAAAAAAAAAAAAAAAAAAAAAAAAAAAAAAAAAAAQAr68PS4AXe7If_ZgesdkUMvSwscFlAl1pk5HC0e8kApeaqMf",
    "Go_7OpBnwJOAbY9V7WU6abu74MmcUE8YWAiaArVI8XJ5hOb_4v9RmDkneN0S92dx0OW4pgy7omxgf3S8c3LlQg",
);

const SEALED_WITH_A_DOT: &str = concat!(
    "v4.local.AAAAAAAAAAAAAAAAAAAAAAAAAAAAAAAAAAAAAAAAAAAQAr68PS4AXe7If_ZgesdkUMvSwscFlAl1pk5HC0e8kApeaqMf",
    "Go_7OpBnwJOAbY9V7WU6abu74MmcUE8YWAiaArVI8XJ5hOb_4v9RmDkneN0S92dx0OW4pgy7omxgf3S8c3LlQg.",
);

// What its tag covers, and the tag, which Python's BLAKE2b computes of it.
const SEALED_MESSAGE: &str = concat!(
    "0500000000000000090000000000000076342e6c6f63616c2e200000000000000000000000000000000000000000000000000000",
    "0000000000000000000000000045000000000000001002bebc3d2e005deec87ff6607ac76450cbd2c2c705940975a64e470b47bc",
    "900a5e6aa31f1a8ffb3a9067c093806d8f55ed653a69bbbbe0c99c504f1858089a02b548f1720000000000000000000000000000",
    "0000",
);

const TAG: &str = "7984e6ffe2ff5198392778dd12f76771d0e5b8a60cbba26c607f74bc7372e542";

const PRIVATE: &str = concat!(
    "b4cbfb43df4ce210727d953e4a713307fa19bb7d9f85041438d9e11b942a3774",
    "1eb9dbbbbc047c03fd70604e0071f0987e16b28b757225c11f00415d0e20b1a2",
);

const PUBLIC: &str = "1eb9dbbbbc047c03fd70604e0071f0987e16b28b757225c11f00415d0e20b1a2";

// 4-S-1, and the same with the dot before an empty footer.
const SIGNED: &str = concat!(
    "v4.public.eyJkYXRhIjoidGhpcyBpcyBhIHNpZ25lZCBtZXNzYWdlIiwiZXhwIjoiMjAyMi0wMS0wMVQwMDowMDowMCswMDowMCJ9",
    "bg_XBBzds8lTZShVlwwKSgeKpLT3yukTw6JUz3W4h_ExsQV-P0V54zemZDcAxFaSeef1QlXEFtkqxT1ciiQEDA",
);

const SIGNED_WITH_A_DOT: &str = concat!(
    "v4.public.eyJkYXRhIjoidGhpcyBpcyBhIHNpZ25lZCBtZXNzYWdlIiwiZXhwIjoiMjAyMi0wMS0wMVQwMDowMDowMCswMDowMCJ9",
    "bg_XBBzds8lTZShVlwwKSgeKpLT3yukTw6JUz3W4h_ExsQV-P0V54zemZDcAxFaSeef1QlXEFtkqxT1ciiQEDA.",
);

// What its signature covers, and the signature.
const SIGNED_MESSAGE: &str = concat!(
    "04000000000000000a0000000000000076342e7075626c69632e45000000000000007b2264617461223a227468697320697320",
    "61207369676e6564206d657373616765222c22657870223a22323032322d30312d30315430303a30303a30302b30303a303022",
    "7d00000000000000000000000000000000",
);

const SIGNATURE: &str = concat!(
    "6e0fd7041cddb3c953652855970c0a4a078aa4b4f7cae913c3a254cf75b887f1",
    "31b1057e3f4579e337a6643700c4569279e7f54255c416d92ac53d5c8a24040c",
);

// How many others were issued.
const COUNTS: [u32; 3] = [0, 1, 1_000];

type LocalKey = PasetoSymmetricKey<V4, Local>;

type PublicKey<'a> = PasetoAsymmetricPublicKey<'a, V4, Public>;

fn local_key(rt: &impl Abort, digits: &str) -> LocalKey {
    PasetoSymmetricKey::from(Key::from(array_of::<32>(rt, digits)))
}

// A number as text.
fn text_of(rt: &impl Abort, alloc: Global, number: u32) -> String {
    format!(in alloc; "{number}").expect(rt, "memory")
}

// The text of the vectors' tokens under a nonce that ends with the number and one.
fn sealed(rt: &impl Abort, alloc: Global, key: &LocalKey, number: u32) -> String {
    let text = "{\"data\":\"this is a secret message\",\"exp\":\"2022-01-01T00:00:00+00:00\"}";
    let mut bytes = [0; 32];
    bytes[28..].copy_from_slice(&number.wrapping_add(1).to_be_bytes());
    let nonce = Key::from(bytes);
    let mut paseto = Paseto::<V4, Local>::builder();
    paseto.set_payload(Payload::from(text));
    let token = paseto.try_encrypt(alloc, key, &PasetoNonce::from(&nonce));
    token.expect(rt, "a token")
}

// A token of another text.
fn signed(rt: &impl Abort, alloc: Global, number: u32) -> String {
    let text = text_of(rt, alloc, number);
    let private = Key::from(array_of::<64>(rt, PRIVATE));
    let key = PasetoAsymmetricPrivateKey::<V4, Public>::from(&private);
    let mut paseto = Paseto::<V4, Public>::builder();
    paseto.set_payload(Payload::from(text.as_str()));
    let token = paseto.try_sign(alloc, &mut Ed25519, &key);
    token.expect(rt, "a token")
}

fn opening_of<'a>(key: &'a LocalKey, token: &'a str) -> Opening<'a, V4> {
    Opening {
        key,
        token,
        footer: None,
        assertion: None,
    }
}

fn token_of(token: &str) -> SignedToken<'_> {
    SignedToken {
        token,
        footer: None,
        assertion: None,
    }
}

fn openings_of<'a>(
    rt: &impl Abort,
    alloc: Global,
    key: &'a LocalKey,
    tokens: &'a [String],
) -> Vec<Opening<'a, V4>> {
    let mut openings = Vec::new(alloc);
    'tokens: for token in tokens {
        let opening = opening_of(key, token.as_str());
        openings.push(opening).expect(rt, "memory");
    }
    openings
}

fn tokens_of<'a>(rt: &impl Abort, alloc: Global, texts: &'a [String]) -> Vec<SignedToken<'a>> {
    let mut tokens = Vec::new(alloc);
    'tokens: for text in texts {
        tokens.push(token_of(text.as_str())).expect(rt, "memory");
    }
    tokens
}

// So many tokens that are sealed under the key.
fn all_sealed(rt: &impl Abort, alloc: Global, key: &LocalKey, count: u32) -> Vec<String> {
    let mut tokens = Vec::new(alloc);
    'tokens: for number in 0..count {
        let token = sealed(rt, alloc, key, number);
        tokens.push(token).expect(rt, "memory");
    }
    tokens
}

fn all_signed(rt: &impl Abort, alloc: Global, count: u32) -> Vec<String> {
    let mut tokens = Vec::new(alloc);
    'tokens: for number in 0..count {
        let token = signed(rt, alloc, number);
        tokens.push(token).expect(rt, "memory");
    }
    tokens
}

fn found_in(
    alloc: Global,
    issued: &[Opening<'_, V4>],
    token: Opening<'_, V4>,
) -> Result<Option<TagForgery>, PasetoError> {
    Paseto::<V4, Local>::forgery(alloc, issued, token)
}

fn found_in_signed(
    rt: &impl Abort,
    alloc: Global,
    issued: &[SignedToken<'_>],
    token: &str,
) -> Result<Option<SignatureForgery>, PasetoError> {
    let public = Key::from(array_of::<32>(rt, PUBLIC));
    let key = PublicKey::from(&public);
    Paseto::<V4, Public>::signature_forgery(alloc, &Ed25519, &key, issued, token_of(token))
}

// What is found is the tag of the vector.
fn expect_tag(rt: &impl Abort, alloc: Global, found: Result<Option<TagForgery>, PasetoError>) {
    let found = found.expect(rt, "an answer").expect(rt, "a forgery");
    expect_that(rt, found.nonce == [0; 32], "the nonce");
    expect_digits(rt, alloc, found.message.as_bytes(), SEALED_MESSAGE);
    expect_digits(rt, alloc, &found.tag, TAG);
    drop(found);
}

// What is found is the signature of the vector.
fn expect_signature(
    rt: &impl Abort,
    alloc: Global,
    found: Result<Option<SignatureForgery>, PasetoError>,
) {
    let found = found.expect(rt, "an answer").expect(rt, "a forgery");
    expect_digits(rt, alloc, found.message.as_bytes(), SIGNED_MESSAGE);
    expect_digits(rt, alloc, &found.signature, SIGNATURE);
    drop(found);
}

#[test]
fn a_local_token_that_was_never_issued(rt: HostRuntime) {
    let alloc = rt.alloc();
    let key = local_key(&rt, SECRET);
    'counts: for count in COUNTS {
        let others = all_sealed(&rt, alloc, &key, count);
        let issued = openings_of(&rt, alloc, &key, &others);
        expect_tag(
            &rt,
            alloc,
            found_in(alloc, &issued, opening_of(&key, SEALED)),
        );
    }
}

#[test]
fn a_local_token_that_was_issued(rt: HostRuntime) {
    let alloc = rt.alloc();
    let key = local_key(&rt, SECRET);
    'counts: for count in COUNTS {
        let others = all_sealed(&rt, alloc, &key, count);
        let mut issued = openings_of(&rt, alloc, &key, &others);
        issued.push(opening_of(&key, SEALED)).expect(&rt, "memory");
        'spellings: for token in [SEALED, SEALED_WITH_A_DOT] {
            let found = found_in(alloc, &issued, opening_of(&key, token));
            expect_that(&rt, found.expect(&rt, "an answer").is_none(), count);
        }
    }
}

// What was issued under another key is no issued token of this one.
#[test]
fn a_local_token_of_another_key(rt: HostRuntime) {
    let alloc = rt.alloc();
    let key = local_key(&rt, SECRET);
    let other = local_key(&rt, OTHER_SECRET);
    let token = sealed(&rt, alloc, &other, 0);
    let issued = [opening_of(&other, token.as_str())];
    expect_tag(
        &rt,
        alloc,
        found_in(alloc, &issued, opening_of(&key, SEALED)),
    );
}

// The token is decrypted first, and what was issued after one that it is a spelling of is not.
#[test]
fn a_local_token_that_does_not_open(rt: HostRuntime) {
    let alloc = rt.alloc();
    let key = local_key(&rt, SECRET);
    let other = local_key(&rt, OTHER_SECRET);
    let is_found = opening_of(&key, SEALED);
    let is_none = opening_of(&other, SEALED);
    let header = opening_of(&key, "v3.local.AAAA");
    let found = found_in(alloc, &[header], is_none);
    expect_that(
        &rt,
        matches!(&found, Err(PasetoError::Cryption)),
        "the token",
    );
    let found = found_in(alloc, &[header, is_found], is_found);
    expect_that(
        &rt,
        matches!(&found, Err(PasetoError::WrongHeader)),
        "the first",
    );
    let found = found_in(alloc, &[is_found, header], is_found);
    expect_that(&rt, matches!(&found, Ok(None)), "the second");
}

#[test]
fn a_public_token_that_was_never_issued(rt: HostRuntime) {
    let alloc = rt.alloc();
    'counts: for count in COUNTS {
        let others = all_signed(&rt, alloc, count);
        let issued = tokens_of(&rt, alloc, &others);
        let found = found_in_signed(&rt, alloc, &issued, SIGNED);
        expect_signature(&rt, alloc, found);
    }
}

#[test]
fn a_public_token_that_was_issued(rt: HostRuntime) {
    let alloc = rt.alloc();
    'counts: for count in COUNTS {
        let others = all_signed(&rt, alloc, count);
        let mut issued = tokens_of(&rt, alloc, &others);
        issued.push(token_of(SIGNED)).expect(&rt, "memory");
        'spellings: for token in [SIGNED, SIGNED_WITH_A_DOT] {
            let found = found_in_signed(&rt, alloc, &issued, token);
            expect_that(&rt, found.expect(&rt, "an answer").is_none(), count);
        }
    }
}

#[test]
fn a_public_token_that_does_not_verify(rt: HostRuntime) {
    let alloc = rt.alloc();
    let token = signed(&rt, alloc, 0);
    let wrong = token_of("v4.public.AAAA");
    let found = found_in_signed(&rt, alloc, &[token_of(SIGNED)], "v3.public.AAAA");
    expect_that(
        &rt,
        matches!(&found, Err(PasetoError::WrongHeader)),
        "the token",
    );
    let found = found_in_signed(&rt, alloc, &[wrong], token.as_str());
    expect_that(
        &rt,
        matches!(&found, Err(PasetoError::IncorrectSize)),
        "the first",
    );
    let found = found_in_signed(&rt, alloc, &[token_of(SIGNED), wrong], SIGNED);
    expect_that(&rt, matches!(&found, Ok(None)), "the second");
}
