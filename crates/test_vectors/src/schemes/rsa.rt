//! A key and signatures of OpenSSL, a token, and what is to be refused.

use super::Repeated;
use crate::expect::{expect_digits, expect_text, expect_that};
use crate::hexadecimal::{array_of, bytes_of};
use paseto_rsa::{PublicKey, RsaPss, is_private_key, public_key_of};
use rusty_paseto_core::{
    Footer, Paseto, PasetoAsymmetricPublicKey, PasetoError, Public, SignatureScheme, V1,
};
use test_toys::generators::Failing;

// A private key of OpenSSL in PKCS #8.
pub(crate) const PRIVATE: &str = concat!(
    "308204be020100300d06092a864886f70d0101010500048204a8308204a40201000282010100a771b4c3a8860a31a6ea62a3",
    "eb9dd21a0afef065bcfbe310a2a51cac1d315a06de7fc81a482dfaa6902d6639d02bacc3ed5b51396e7fdeac7851030b3d94",
    "95d9076e101bc01500f8a751a3fe2af79d63c70eb161ed64e3ed98380d78b469154c10434711c81cb85bd27e389270811c32",
    "1d44ddb151032ca17135ca573e59d2819f9be6f278f9e42226108a7200a28e8cd66fb58229b83d411e29ca69c6278e171391",
    "418c24668be7e7784f96e2a7a1651a3e3c2d7852ca1aeb0c9da49c266e78548fe0e5e04a008fcc081fbfee71230ce1e09152",
    "946f3427c8ae53fbc7925807a04e4e71f131af120e95449e051cae9f003dfb9bd36f4798b1a1a1da4f897c25020301000102",
    "820100358669ffbf7fb58380b55cf9c4482b50cae20acba2d92c10f5c4ed00f1c6045ebcc2411f71a24d04f082aab261628c",
    "b406cc518f17cd054bc19c37ea60717e6325765fecd6fe7fd47c7be2fdcd13613af3773569b5deb1e391ec9d15d029e5366e",
    "de6ab9faeb7f5d4ed0ad59d65fd73907d52b3ed2c43e808ef5606c7a1071731cc5399552ae60778e700935370be7d8b09258",
    "e0df752cffe5a20b98c2b76b22313aa563f5cde6c82c85e2704dd62479d82ea44f3c4cbde98a8a13c85b1c0957f0dd664ef8",
    "690bd6dd5c2603466f639755ed2f32d3fb1f110bdf2324efda9f81c5bc830c4595875a0415cba2cb6b8f9969a07b88976de9",
    "bc7111c906316d701302818100d287433a26db5505c4cdbffb9359d6212a0ffcf307e2a0693b53b9f524564774ded3543d78",
    "775bbe7336cc272ce0064999d2bef51925d79c083816599f718a4433b571184ad8c7256de1ffc9df6546aa48b8fe69ec126e",
    "4ae8229eaa9af7de0232fdfd2c0b798953279ef96c422a0332528e2f136826dda85bde3e617d23777702818100cb9c30acef",
    "4b7eea0c2790306a8b9b6bf494a3c08a0085f2d1292e5454c8024c7dd193370f7aa0bfab4e40cb0506b30728e53165bfb807",
    "f7f606b17557adbe4dd2fbf104790337d0d7522791a7a87ea7f3add81c1850b618dd7d1004a299017f7b6c98cc6c97a6460f",
    "8d7b3482a2f590107ddf6c83f5f872d873aef12d068843028181009532b0ed0c4e9231b5688eef0e5d33486b93cb12bcfad9",
    "edd9d29b4de4c3947e79cfd0ba839e2b118c7b40315f37209d967ae943afdfc6ae5890cf1e12c6175400454cf207511bc925",
    "d76d3c36aa826af980c9246dde1df5ce0f82dcab58902884d4c5502a8da6499d21a7e815f7ca2e269d87353cb19692d3106c",
    "ab10514b3f0281804654e783750d5103abbb26d5729852d191a49e83eda78c9d799e8e005760d75a70c3a9e4851648dcac61",
    "d583cb72aaf8b829a34c9053137d95a06e40284f3dc34833fae71e9dfbf3c9ccf91a191ddcd24b1c2be0588dd8b8f2193725",
    "42bd338543af1980d3a9f6a790cbc0593d1ee95020423aa1135c2dbc0e04b7d35b483c5d028181009d3ee0284f806962d318",
    "69c94bb0bef3ab6d41bf9640a0cdaaa3bf82485ebf2cf98b9d2704d98b254c0699a849287bd898200781437c00ccf00b568b",
    "4df3c5b20419ee65c023a00a7b49d0faf6bddcc8d54377a820647abb211aac6a1dc658deb94c92d7beb843c33c86678271da",
    "43e951f75eb1ee31c8534874f90e349d9344",
);

// Its public key in PKCS #1.
pub(crate) const PUBLIC: &str = concat!(
    "3082010a0282010100a771b4c3a8860a31a6ea62a3eb9dd21a0afef065bcfbe310a2a51cac1d315a06de7fc81a482dfaa690",
    "2d6639d02bacc3ed5b51396e7fdeac7851030b3d9495d9076e101bc01500f8a751a3fe2af79d63c70eb161ed64e3ed98380d",
    "78b469154c10434711c81cb85bd27e389270811c321d44ddb151032ca17135ca573e59d2819f9be6f278f9e42226108a7200",
    "a28e8cd66fb58229b83d411e29ca69c6278e171391418c24668be7e7784f96e2a7a1651a3e3c2d7852ca1aeb0c9da49c266e",
    "78548fe0e5e04a008fcc081fbfee71230ce1e09152946f3427c8ae53fbc7925807a04e4e71f131af120e95449e051cae9f00",
    "3dfb9bd36f4798b1a1a1da4f897c250203010001",
);

// Its signature of "sample" with a salt of 48 bytes of 7, by whole numbers, which OpenSSL verifies.
const SIGNATURE: &str = concat!(
    "92aea56be06e3d4adcc8ba02011cf491c769893e6578e951bef2f4fc3e6cae19dcdbade60a08f08836408a0e3e30c394ed9c",
    "10fd1c5691a086d3aa5630be8788ace02b7abf2b0479fa61d660859dcf973b647b5aa2fd8c9d7314198ada9e0e2b70c9562a",
    "61fc12a20ef21524ed6aad6854d02cf8310518f44ae961b15556e066da4c62293fea73194eacd407c1bca4d9378ee1cdb6c7",
    "c9177acdff7ee7af95e79f0fcfed2d5d54ffa79a8d47b007cc59f44982e3f0d7729bc78e9aae44cfe1059724839f3e6cc27f",
    "be1485d211b981f55b88289b723d299127d03413dce9b553ae9271989eebb788977495c165f6022b9726ca4e3b23e04a93e3",
    "89246288eb76",
);

// Its signature of "sample" by OpenSSL, with a random salt.
const OTHER: &str = concat!(
    "719d35111e5301651898bf777f3c512ea3d0a26a6f0a217a8cecf5a9fadae82e7c8f18cd4ac40356f8d1ac879105e08f7708",
    "2a7f989b857b948ec83c25807f2d65d885fe3ccb65667c8bf04347c8545f217f505840bd20d9869e245bdeb62ada348d8128",
    "cf97201720776a6a4476bf86753d5c0e49e5e38c4ce0084df83aa08b6e020d2d3229eee96f706aa5ef75a4d2658267e75657",
    "f6a7e1ae4e8395f585f3cb454f0d7c704702eb1d85bd7feb79d4d9697be0273f929fcae8fc9a8c5923dc14cef0bd9bd4415b",
    "b88e4014eb270ee3bd22a19a8b9794e43983d6a4a5728bc764d5a4a7605d2ea965ed63e63beef898f0545df64f5054cec360",
    "001cebd590d7",
);

// A token with a footer, whose signature is OpenSSL's.
const TOKEN: &str = concat!(
    "v1.public.eyJkYXRhIjoidGhpcyBpcyBhIHNpZ25lZCBtZXNzYWdlIn1N6ICPzwEGtuy12y1DdVOl1bbV7NuvzE3UNhnES--74E",
    "gjohCkiyv5nLX8YM6otmZvsu9eKYDl6BFj3O5djSSo6YVu-cYn0wJrwWA-xIWGWEHlrcXC3QITyLRkhT6Iu1U1lJWfa4D8mbNmFI",
    "yuvf8i5wqZCkfGMaKpzfVZKJrUK1nI4sdiQskmE79i3QPtcJ1Tj0s43p_LDAe8D1tgjL4l4gE7BMXfY33ZpWtKUnrHRXHWR-RZ84",
    "zDG5RYMdD2t7U_6mAAO6KcMFUU9iAFWu6csA8pu2CmyN53phMI3_-SrZPLcqnp1Xjgj8D6tPQPopxBprC0p8lp6YXNltQ1PG8f.Y",
    "SBmb290ZXI",
);

// The scheme with salts of 7.
fn sevens() -> RsaPss<Repeated> {
    RsaPss::new(Repeated { byte: 7 })
}

#[test]
fn signs_with_the_salt_that_it_draws(rt: HostRuntime) {
    let private = bytes_of(&rt, rt.alloc(), PRIVATE);
    let made = sevens()
        .sign(rt.alloc(), &private, b"sample")
        .expect(&rt, "a signature");
    expect_digits(&rt, rt.alloc(), &made, SIGNATURE);
}

#[test]
fn verifies_signatures_of_openssl(rt: HostRuntime) {
    let public = bytes_of(&rt, rt.alloc(), PUBLIC);
    let key = PublicKey::from_der(&public).expect(&rt, "a public key");
    let other: [u8; 256] = array_of(&rt, OTHER);
    expect_that(&rt, key.verify(b"sample", &other), "the signature");
    expect_that(&rt, !key.verify(b"Sample", &other), "another message");
    sevens()
        .verify(rt.alloc(), &public, b"sample", &other)
        .expect(&rt, "a signature");
}

#[test]
fn bits_of_a_signature_count(rt: HostRuntime) {
    let public = bytes_of(&rt, rt.alloc(), PUBLIC);
    let key = PublicKey::from_der(&public).expect(&rt, "a public key");
    let other: [u8; 256] = array_of(&rt, OTHER);
    'bits: for i in 0..64usize {
        let mut changed = other;
        changed[4 * i] ^= 1 << (i % 8);
        expect_that(&rt, !key.verify(b"sample", &changed), &i);
    }
}

// Another message, and a private key, which is no public one.
#[test]
fn what_is_not_valid_is_refused_by_its_name(rt: HostRuntime) {
    let other: [u8; 256] = array_of(&rt, OTHER);
    'rows: for &(key, message) in &[(PUBLIC, "Sample"), (PRIVATE, "sample")] {
        let key = bytes_of(&rt, rt.alloc(), key);
        let answer = sevens().verify(rt.alloc(), &key, message.as_bytes(), &other);
        let is_named = matches!(&answer, Err(PasetoError::InvalidSignature));
        expect_that(&rt, is_named, message);
    }
}

#[test]
fn the_public_key_of_a_private_key(rt: HostRuntime) {
    let private = bytes_of(&rt, rt.alloc(), PRIVATE);
    let public = public_key_of(&private).expect(&rt, "a public key");
    expect_digits(&rt, rt.alloc(), &public, PUBLIC);
    expect_that(&rt, public_key_of(&public).is_none(), "a public key");
}

#[test]
fn no_private_key(rt: HostRuntime) {
    let public = bytes_of(&rt, rt.alloc(), PUBLIC);
    let answer = sevens().sign(rt.alloc(), &public, b"sample");
    let is_named = matches!(&answer, Err(PasetoError::KeyRejected));
    expect_that(&rt, is_named, "a public key");
}

#[test]
fn numbers_of_two_keys(rt: HostRuntime) {
    let mut private = bytes_of(&rt, rt.alloc(), PRIVATE);
    // The last byte is of the coefficient.
    if let Some(last) = private.last_mut() {
        *last ^= 1;
    }
    let answer = sevens().sign(rt.alloc(), &private, b"sample");
    let is_named = matches!(&answer, Err(PasetoError::RsaCipher));
    expect_that(&rt, is_named, "another coefficient");
}

// The factors are those of the key, and the modulus, of 2048 bits and odd as before, is not their product.
#[test]
fn another_modulus(rt: HostRuntime) {
    let mut private = bytes_of(&rt, rt.alloc(), PRIVATE);
    // The bytes of the modulus are those from 38 to 293.
    if let Some(byte) = private.get_mut(160) {
        *byte ^= 1;
    }
    expect_that(&rt, !is_private_key(&private), "another modulus");
    let answer = sevens().sign(rt.alloc(), &private, b"sample");
    let is_named = matches!(&answer, Err(PasetoError::KeyRejected));
    expect_that(&rt, is_named, "another modulus");
}

#[test]
fn a_generator_that_fails(rt: HostRuntime) {
    let private = bytes_of(&rt, rt.alloc(), PRIVATE);
    let answer = RsaPss::new(Failing { asked: 0 }).sign(rt.alloc(), &private, b"sample");
    let is_named = matches!(&answer, Err(PasetoError::Cipher));
    expect_that(&rt, is_named, "no salt");
}

#[test]
fn opens_a_token_signed_by_openssl(rt: HostRuntime) {
    let public = bytes_of(&rt, rt.alloc(), PUBLIC);
    let key = PasetoAsymmetricPublicKey::<V1, Public>::from(public.as_slice());
    let text = Paseto::<V1, Public>::try_verify(
        rt.alloc(),
        &sevens(),
        TOKEN,
        &key,
        Some(Footer::from("a footer")),
    )
    .expect(&rt, "a valid token");
    expect_text(
        &rt,
        text.as_str(),
        "{\"data\":\"this is a signed message\"}",
    );
}
