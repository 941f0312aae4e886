//! The primitives, all in one.

ghost use Rattle.std.specs.Prelude.{◌≡◌};
ghost use Rattle.rusty_paseto_primitives.specs.Blake2.Hasher.{output_length};

use rusty_paseto_primitives::*;

/// A digest of what each of them makes of a text.
pub fn digest(text: &[u8]) -> [u8; 64] {
    let mut hasher = Blake2b::new(b"a key", 64);
    add_ciphers(&mut hasher, text);
    add_macs(&mut hasher, text);
    let mut digest = [0; 64];
    hasher.finalize_into(&mut digest);
    digest
}

fn add_ciphers(hasher: &mut Blake2b, text: &[u8])
    ensures { output_length hasher.new ≡ output_length hasher.old }
{
    let subkey = hchacha20(&[7; 32], &[1; 16]);
    hasher.update(&subkey);
    hasher.update(&chacha20_block(&subkey, &[2; 16]));
    hasher.update(&Aes256::new(&subkey).encrypt_block(&[3; 16]));
    let mut words = [1, 2, 3, 4];
    quarter_round(&mut words);
    hasher.update(&words[0].to_be_bytes());
    let mut bytes = [0; 500];
    let count = text.len().min(500);
    bytes[..count].copy_from_slice(&text[..count]);
    xchacha20_apply(&subkey, &[4; 24], &mut bytes);
    aes256_ctr_apply(&subkey, &[5; 16], &mut bytes);
    hasher.update(&bytes);
}

fn add_macs(hasher: &mut Blake2b, text: &[u8])
    ensures { output_length hasher.new ≡ output_length hasher.old }
{
    let digest: [u8; 24] = blake2b_keyed(b"a key", text);
    hasher.update(&digest);
    let (first, second): ([u8; 32], [u8; 56]) = blake2b_keyed_pair(&digest, text, b"another text");
    hasher.update(&first);
    hasher.update(&second);
    let mut mac = HmacSha384::new(text);
    mac.update(text);
    hasher.update(&mac.finalize());
    let prk = hkdf_sha384_extract(&hmac_sha384(b"a key", text), text);
    let mut material = [0; 80];
    hkdf_sha384_expand(&prk, b"a context", &mut material);
    hasher.update(&material);
}
