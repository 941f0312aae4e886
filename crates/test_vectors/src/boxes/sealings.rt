//! Sealings of the draft, of another implementation, and in a token.

use super::{KEY, NONCE};
use crate::counted::counted_bytes;
use crate::expect::{expect_bytes, expect_same, expect_text};
use crate::hexadecimal::{array_of, bytes_of};
use paseto_xchacha20poly1305::XChaCha20Poly1305;
use rusty_paseto_core::{
    Key, Local, Paseto, PasetoNonce, PasetoSymmetricKey, Payload, SealedBox, V2,
};
use std::alloc::Global;
use std::process::Abort;

fn sealed(rt: &impl Abort, alloc: Global, data: &[u8], message: &[u8]) -> Vec<u8> {
    XChaCha20Poly1305
        .seal(
            alloc,
            &array_of(rt, KEY),
            &array_of(rt, NONCE),
            data,
            message,
        )
        .expect(rt, "memory")
        .expect(rt, "a sealing")
}

fn opened(rt: &impl Abort, alloc: Global, data: &[u8], boxed: &[u8]) -> Vec<u8> {
    XChaCha20Poly1305
        .open(alloc, &array_of(rt, KEY), &array_of(rt, NONCE), data, boxed)
        .expect(rt, "memory")
        .expect(rt, "a message")
}

// draft-irtf-cfrg-xchacha, appendix A.3.1.
#[test]
fn sealing_of_the_draft(rt: HostRuntime) {
    let message =
        b"Ladies and Gentlemen of the class of '99: If I could offer you only one tip for the future, \
sunscreen would be it.";
    let data: [u8; 12] = array_of(&rt, "50515253c0c1c2c3c4c5c6c7");
    let wanted = bytes_of(
        &rt,
        rt.alloc(),
        concat!(
            "bd6d179d3e83d43b9576579493c0e939572a1700252bfaccbed2902c21396cbb",
            "731c7f1b0b4aa6440bf3a82f4eda7e39ae64c6708c54c216cb96b72e1213b452",
            "2f8c9ba40db5d945b11b69b982c1bb9e3f3fac2bc369488f76b2383565d3fff9",
            "21f9664c97637da9768812f615c68b13b52e",
            "c0875924c1c7987947deafd8780acf49",
        ),
    );
    let boxed = sealed(&rt, rt.alloc(), &data, message);
    expect_bytes(&rt, boxed.as_slice(), wanted.as_slice());
    let found = opened(&rt, rt.alloc(), &data, &wanted);
    expect_bytes(&rt, found.as_slice(), message.as_slice());
}

// Length of the message, length of the data and the tag, by libsodium: tests/box_rows.py prints these rows.
const ROWS: &[(usize, usize, &str)] = &[
    (0, 0, "1dac8f73146d1e9da796cb7f7221a5df"),
    (0, 16, "c93cf937df26dee4a75c3881bf65d4b8"),
    (1, 1, "20a2aeaf6517f942c1e314a27c8f40a8"),
    (1, 17, "c131385385ab28405efc68a2db1e0664"),
    (15, 12, "97a821e377998147ab8c0a941ef5b178"),
    (15, 31, "294a3036ad8845e58028bab352068fc9"),
    (16, 15, "152fa904adcb413de3c4eccb61c499e9"),
    (16, 32, "08922369004c73132dbbec4393d1e909"),
    (17, 16, "45f0579469e8ce319c89bec41697fa5e"),
    (17, 33, "486ca12cace4a8c2fb1af1ca77a83bed"),
    (31, 17, "9c20d932b081928628f5b238ee920128"),
    (31, 0, "3075aaaaa427e764547b768c4e1ae580"),
    (32, 31, "13307557c3b4b0daf2e80e389bb857f7"),
    (32, 1, "8acba3e7d728ae4860a0328ed2d828cb"),
    (33, 32, "b4c7804a966aa4ff27b6a5eead4db99a"),
    (33, 12, "8d1c823c1572f0a191bff58598178604"),
    (63, 33, "65b2c57d09e4d4b8542e8c355912d354"),
    (63, 15, "1f94808a0a2d44c2a72467785fba0bec"),
    (64, 0, "75fa4928889db24e28d3123ca91e34c0"),
    (64, 16, "ec14fc734b0313efba556a7075da6d01"),
    (65, 1, "82909a2cf358d6f30c24f4c7269721f3"),
    (65, 17, "9a7b1cdc9ff4ec20a60010d01d6159d4"),
    (127, 12, "b7f009347281fa406cde7badf9a1d94a"),
    (127, 31, "581ebee64a19903cca1ac4906cac777a"),
    (128, 15, "89703b881a6b74ddf499c65e8702cacb"),
    (128, 32, "b745105712c5f59b9ddac1ef8a49a026"),
    (129, 16, "875f3f929b2b7ca54f3a363607951e58"),
    (129, 33, "c6a07a804eb87c48a7427e52b90ad6f0"),
    (255, 17, "09503dd4fbf27d2614798af77b3fcd4b"),
    (255, 0, "64378d43def75fab14efd54fc066f0a8"),
    (256, 31, "0e6c36d84d59d5e3e9e7241c8ea1f331"),
    (256, 1, "a4c5d19a8a7f54892ce3b8bbe668ba33"),
    (257, 32, "ce084fb606e3440c6480b49745ee3e5c"),
    (257, 12, "b9aaa6f7255609ea8827af439c2caa38"),
    (1023, 33, "ba2c647fa03b498e93f932fa5c1c0cc5"),
    (1023, 15, "267ded9eaee607dbc1dc30853629434b"),
    (1024, 0, "bb1095da8fbfa5e696cc38cee88d83b1"),
    (1024, 16, "db9597ebd26702cc97d52a527a4445e8"),
    (1025, 1, "d9f950dc13b6d5520770474639389591"),
    (1025, 17, "4cf535cba46e8da3f54279f4c559cca4"),
];

// A message is sealed with the tag, and opened again.
fn check(rt: &impl Abort, alloc: Global, message: &[u8], data: &[u8], tag: &str) {
    let boxed = sealed(rt, alloc, data, message);
    let found = boxed.get(message.len()..).expect(rt, "a tag");
    let wanted: [u8; 16] = array_of(rt, tag);
    expect_same(rt, found, wanted.as_slice(), &(message.len(), data.len()));
    expect_bytes(rt, opened(rt, alloc, data, &boxed).as_slice(), message);
}

#[test]
fn sealings_of_another_implementation(rt: HostRuntime) {
    let bytes: [u8; 1088] = counted_bytes();
    'rows: for &(message_length, data_length, tag) in ROWS {
        let message = bytes.get(..message_length).expect(&rt, "a message");
        let data = bytes.get(..data_length).expect(&rt, "data");
        check(&rt, rt.alloc(), message, data, tag);
    }
}

// The vector 2-E-1 of the PASETO specification.
#[test]
fn token_of_the_specification(rt: HostRuntime) {
    let alloc = rt.alloc();
    let text = "{\"data\":\"this is a signed message\",\"exp\":\"2019-01-01T00:00:00+00:00\"}";
    let key = PasetoSymmetricKey::<V2, Local>::from(Key::from(array_of::<32>(
        &rt,
        "707172737475767778797a7b7c7d7e7f808182838485868788898a8b8c8d8e8f",
    )));
    let nonce = Key::from([0u8; 24]);
    let mut paseto = Paseto::<V2, Local>::builder();
    paseto.set_payload(Payload::from(text));
    let token = paseto
        .try_encrypt(alloc, &XChaCha20Poly1305, &key, &PasetoNonce::from(&nonce))
        .expect(&rt, "a token");
    let wanted = concat!(
        "v2.local.97TTOvgwIxNGvV80XKiGZg_kD3tsXM_-qB4dZGHOeN1cTkgQ4PnW8888l802W8d9AvEGnoNBY3BnqHORy8a5cC8aKpbA0En8",
        "XELw2yDk2f1sVODyfnDbi6rEGMY3pSfCbLWMM2oHJxvlEl2XbQ",
    );
    expect_text(&rt, token.as_str(), wanted);
    let found = Paseto::<V2, Local>::try_decrypt(
        alloc,
        &XChaCha20Poly1305,
        wanted,
        &key,
        None,
    ).expect(&rt, "a text");
    expect_text(&rt, found.as_str(), text);
}
