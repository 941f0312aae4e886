//! Of `tag_collision`.

use rusty_paseto_core::{
    Local, Opening, Paseto, PasetoError, PasetoSymmetricKey, TagCollision, V4,
};
use std::alloc::Global;

/// The collision that two tokens under one key are, if they share nonce and tag and differ in their text.
pub fn find_collision(
    alloc: Global,
    key: &PasetoSymmetricKey<V4, Local>,
    first: &str,
    second: &str,
) -> Result<Option<TagCollision>, PasetoError> {
    Paseto::<V4, Local>::tag_collision(alloc, &[opening(key, first), opening(key, second)])
}

fn opening<'a>(key: &'a PasetoSymmetricKey<V4, Local>, token: &'a str) -> Opening<'a, V4> {
    Opening {
        key,
        token,
        footer: None,
        assertion: None,
    }
}
