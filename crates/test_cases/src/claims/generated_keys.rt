//! Keys of bytes that a generator gives.

use crate::expect::{expect_bytes, expect_outcome, expect_same};
use rusty_paseto_core::{Key, Local, PasetoSymmetricKey, V4};
use test_toys::generators::{Counting, Failing};

#[test]
fn of_the_generators_bytes(rt: HostRuntime) {
    let mut generator = Counting::new();
    let key = Key::<4>::try_new_random(&mut generator).expect(&rt, "a key");
    expect_bytes(&rt, key.as_bytes(), &[1, 2, 3, 4]);
    let key = Key::<2>::try_new_random(&mut generator).expect(&rt, "a key");
    expect_bytes(&rt, key.as_bytes(), &[5, 6]);
    let key = Key::<32>::try_new_random(&mut generator).expect(&rt, "a key");
    expect_same(&rt, &key.as_bytes()[0], &7, "the answer");
    expect_same(&rt, &key.as_bytes()[31], &38, "the answer");
    let key = PasetoSymmetricKey::<V4, Local>::try_new_random(&mut generator).expect(&rt, "a key");
    expect_same(&rt, &key.as_bytes()[0], &39, "the answer");
    expect_same(&rt, &key.as_bytes()[31], &70, "the answer");
}

#[test]
fn refused_where_the_generator_fails(rt: HostRuntime) {
    let mut generator = Failing { asked: 0 };
    let answer = Key::<32>::try_new_random(&mut generator).map(drop);
    expect_outcome(&rt, rt.alloc(), answer, "Cipher", "a key");
    expect_same(&rt, &generator.asked, &1, "how often it was asked");
    let answer = PasetoSymmetricKey::<V4, Local>::try_new_random(&mut generator).map(drop);
    expect_outcome(&rt, rt.alloc(), answer, "Cipher", "a symmetric key");
}
