//! HMAC with SHA-384 (RFC 2104).

use crate::expect::expect_digits;
use rusty_paseto_primitives::hmac_sha384;

// A key, a message and its authentication code, in hexadecimal digits.
#[derive(Clone, Copy)]
struct Row {
    key: &'static str,
    message: &'static str,
    mac: &'static str,
}

// RFC 4231, sections 4.2 to 4.5, 4.7 and 4.8.
const ROWS: &[Row] = &[
    Row {
        key: "0b0b0b0b0b0b0b0b0b0b0b0b0b0b0b0b0b0b0b0b",
        message: "4869205468657265",
        mac: concat!(
            "afd03944d84895626b0825f4ab46907f15f9dadbe4101ec682aa034c7cebc59c",
            "faea9ea9076ede7f4af152e8b2fa9cb6",
        ),
    },
    Row {
        key: "4a656665",
        message: "7768617420646f2079612077616e7420666f72206e6f7468696e673f",
        mac: concat!(
            "af45d2e376484031617f78d2b58a6b1b9c7ef464f5a01b47e42ec3736322445e",
            "8e2240ca5e69e2c78b3239ecfab21649",
        ),
    },
    Row {
        key: "aaaaaaaaaaaaaaaaaaaaaaaaaaaaaaaaaaaaaaaa",
        message: concat!(
            "dddddddddddddddddddddddddddddddddddddddddddddddddddddddddddddddd",
            "dddddddddddddddddddddddddddddddddddd",
        ),
        mac: concat!(
            "88062608d3e6ad8a0aa2ace014c8a86f0aa635d947ac9febe83ef4e55966144b",
            "2a5ab39dc13814b94e3ab6e101a34f27",
        ),
    },
    Row {
        key: "0102030405060708090a0b0c0d0e0f10111213141516171819",
        message: concat!(
            "cdcdcdcdcdcdcdcdcdcdcdcdcdcdcdcdcdcdcdcdcdcdcdcdcdcdcdcdcdcdcdcd",
            "cdcdcdcdcdcdcdcdcdcdcdcdcdcdcdcdcdcd",
        ),
        mac: concat!(
            "3e8a69b7783c25851933ab6290af6ca77a9981480850009cc5577c6e1f573b4e",
            "6801dd23c4a7d679ccf8a386c674cffb",
        ),
    },
    Row {
        key: concat!(
            "aaaaaaaaaaaaaaaaaaaaaaaaaaaaaaaaaaaaaaaaaaaaaaaaaaaaaaaaaaaaaaaa",
            "aaaaaaaaaaaaaaaaaaaaaaaaaaaaaaaaaaaaaaaaaaaaaaaaaaaaaaaaaaaaaaaa",
            "aaaaaaaaaaaaaaaaaaaaaaaaaaaaaaaaaaaaaaaaaaaaaaaaaaaaaaaaaaaaaaaa",
            "aaaaaaaaaaaaaaaaaaaaaaaaaaaaaaaaaaaaaaaaaaaaaaaaaaaaaaaaaaaaaaaa",
            "aaaaaa",
        ),
        message: concat!(
            "54657374205573696e67204c6172676572205468616e20426c6f636b2d53697a",
            "65204b6579202d2048617368204b6579204669727374",
        ),
        mac: concat!(
            "4ece084485813e9088d2c63a041bc5b44f9ef1012a2b588f3cd11f05033ac4c6",
            "0c2ef6ab4030fe8296248df163f44952",
        ),
    },
    Row {
        key: concat!(
            "aaaaaaaaaaaaaaaaaaaaaaaaaaaaaaaaaaaaaaaaaaaaaaaaaaaaaaaaaaaaaaaa",
            "aaaaaaaaaaaaaaaaaaaaaaaaaaaaaaaaaaaaaaaaaaaaaaaaaaaaaaaaaaaaaaaa",
            "aaaaaaaaaaaaaaaaaaaaaaaaaaaaaaaaaaaaaaaaaaaaaaaaaaaaaaaaaaaaaaaa",
            "aaaaaaaaaaaaaaaaaaaaaaaaaaaaaaaaaaaaaaaaaaaaaaaaaaaaaaaaaaaaaaaa",
            "aaaaaa",
        ),
        message: concat!(
            "5468697320697320612074657374207573696e672061206c6172676572207468",
            "616e20626c6f636b2d73697a65206b657920616e642061206c61726765722074",
            "68616e20626c6f636b2d73697a6520646174612e20546865206b6579206e6565",
            "647320746f20626520686173686564206265666f7265206265696e6720757365",
            "642062792074686520484d414320616c676f726974686d2e",
        ),
        mac: concat!(
            "6617178e941f020d351e2f254e8fd32c602420feb0b8fb9adccebb82461e99c5",
            "a678cc31e799176d3860e6110c46523e",
        ),
    },
];

#[test]
fn macs_of_the_standard(rt: HostRuntime) {
    'rows: for &row in ROWS {
        let key = hex::decode(rt.alloc(), row.key).expect(&rt, "a key");
        let message = hex::decode(rt.alloc(), row.message).expect(&rt, "a message");
        let mac = hmac_sha384(key.as_slice(), message.as_slice());
        expect_digits(&rt, rt.alloc(), mac.as_slice(), row.mac);
    }
}
