//! Keys of passwords by Argon2id.

use crate::expect::{expect_digits, expect_shown};
use paseto_argon2::{Parameters, argon2id, argon2id_with};
use std::alloc::Global;
use std::process::Abort;

// RFC 9106, section 5.3.
#[test]
fn vector_of_the_standard(rt: HostRuntime) {
    let parameters = Parameters {
        memory: 32,
        passes: 3,
        lanes: 4,
    };
    let mut tag = [0u8; 32];
    argon2id_with(
        rt.alloc(),
        &[1; 32],
        &[2; 16],
        &[3; 8],
        &[4; 12],
        parameters,
        &mut tag,
    )
    .expect(&rt, "memory");
    expect_digits(
        &rt,
        rt.alloc(),
        &tag,
        "0d640df58d78766c08c037a34a8b53c9d01ef0452d75b65eb52520e96b01e659",
    );
}

// A password, a salt, the memory, the passes, the lanes and the key, as libargon2 of Debian derives it.
const ROWS: &[(&str, &str, u32, u32, u32, &str)] = &[
    ("password", "somesalt", 8, 1, 1, "6b7a947d"),
    (
        "password",
        "somesalt",
        8,
        1,
        1,
        "f137f8e186a403a679ccd0606e5ab5dcdafe43c1640855ac8c6e33e9bd63eeb3",
    ),
    (
        "password",
        "saltsaltsaltsalt",
        37,
        3,
        2,
        "1c41eaa8c838f07a9f536872cc9d9ae66605a15c0d1d0a6dc42e9d4d9608f91f4eb1e51aefa1bb8430c8394fa12a83d1580c4e4465945d25b58d83abea43b51d",
    ),
    (
        "",
        "saltsaltsaltsalt",
        600,
        1,
        1,
        "d2920e14edadab98ac195329fbb2f0412f3417004c680cb6849a6561da53ae813e35f0bfee1809b938c6dad6068886ce2da0415eef7a695cf2ef8e88280191f176",
    ),
    (
        "password",
        "saltsaltsaltsalt",
        1030,
        2,
        1,
        "0c33d49da02862348d721bd00b4ced4fe19507c07e4148bae38a54b3626fdb72c9",
    ),
    (
        "passwordPASSWORDpassword",
        "diffsalt",
        256,
        2,
        4,
        "b4fb927be66ac75b17ba028b54c77deaec6264249d48d78c960278274b2bc910eb122cb46dfb3735cbfa0f4335303e370485c8a3385e23f7027cc065eb59e8313b95c57d4139117a91e20aa930b7e971d5308ab47864c65b519558f326537e29",
    ),
    (
        "password",
        "saltsaltsaltsaltsalt",
        123,
        4,
        5,
        "3dc717e47f571f4305a930cd51adbbbf3fc9318f1c0db8c7e7c5e71791b149f9335f58e1865434eca032fb61ac042fba9fabe7515c70f6b273ec8ca14a21912d7d5561b8631b32971790ecc0caa11147b88c1f011cb2155c175df321457788da41ba0480",
    ),
];

fn check_row(
    rt: &impl Abort,
    alloc: Global,
    password: &str,
    salt: &str,
    parameters: Parameters,
    wanted: &str,
) {
    let mut room = [0u8; 100];
    let length = wanted.len() / 2;
    assert!(rt; length <= 100);
    let output = &mut room[..length];
    argon2id(
        alloc,
        password.as_bytes(),
        salt.as_bytes(),
        parameters,
        output,
    )
    .expect(rt, "memory");
    expect_digits(rt, alloc, output, wanted);
}

#[test]
fn keys_of_passwords(rt: HostRuntime) {
    'rows: for &(password, salt, memory, passes, lanes, wanted) in ROWS {
        let parameters = Parameters {
            memory,
            passes,
            lanes,
        };
        check_row(&rt, rt.alloc(), password, salt, parameters, wanted);
    }
}

// The length of the salt, the memory, the passes, the lanes, the length of the output, and what the refusal shows.
const REFUSED: &[(usize, u32, u32, u32, usize, &str)] = &[
    (8, 8, 1, 0, 4, "Argon2id needs a lane"),
    (
        8,
        u32::MAX,
        1,
        16_777_216,
        4,
        "Argon2id has at most 16,777,215 lanes",
    ),
    (8, 8, 0, 1, 4, "Argon2id needs a pass"),
    (
        8,
        7,
        1,
        1,
        4,
        "Argon2id needs 8 KiB of memory for each lane",
    ),
    (
        8,
        15,
        1,
        2,
        4,
        "Argon2id needs 8 KiB of memory for each lane",
    ),
    (7, 8, 1, 1, 4, "the salt is shorter than 8 bytes"),
    (8, 8, 1, 1, 3, "the output is shorter than 4 bytes"),
];

fn expect_refusal(
    rt: &impl Abort,
    alloc: Global,
    salt: &[u8],
    parameters: Parameters,
    output: &mut [u8],
    wanted: &str,
) {
    match argon2id(alloc, b"password", salt, parameters, output) {
        Err(error) => expect_shown(rt, alloc, &error, wanted),
        Ok(()) => panic!(rt; "taken"),
    }
}

#[test]
fn what_is_not_allowed_is_refused_by_its_name(rt: HostRuntime) {
    'rows: for &(salt, memory, passes, lanes, length, wanted) in REFUSED {
        let parameters = Parameters {
            memory,
            passes,
            lanes,
        };
        let mut room = [7u8; 4];
        let output = room.get_mut(..length).expect(&rt, "room");
        let salt = b"somesalt".get(..salt).expect(&rt, "a salt");
        expect_refusal(&rt, rt.alloc(), salt, parameters, output, wanted);
    }
}
