//! Everything of `generic` and `paseto_core`, and the items of this crate.

pub use crate::{
    CountingSetter, DefaultAssertionVersion, DefaultLocalVersion, GeneralPasetoError, KeyRing,
    KeyRingError, KeyRingParserError, OwnedPublicKeyRing, PasetoBuilder, PasetoParser,
    PublicKeyRing, Ring, fits_default, key_footer,
};
pub use rusty_paseto_generic::{
    AssertionVersion, Audience, AudienceClaim, Blame, BoxForgery, CheckSetter, ClaimSetter,
    ClaimValue, CompressedKey, CustomClaim, DateClaim, Expiration, ExpirationClaim, Explained,
    Footer, GenericBuilder, GenericBuilderError, GenericLocalVersion, GenericParser,
    GenericParserError, Header, ImplicitAssertion, ImplicitAssertionCapable, IssuedAt,
    IssuedAtClaim, Issuer, IssuerClaim, Itself, Key, KeyPair, Local, LocalVersion, NotBefore,
    NotBeforeClaim, Opening, Paseto, PasetoAsymmetricPrivateKey, PasetoAsymmetricPublicKey,
    PasetoClaim, PasetoClaimError, PasetoError, PasetoNonce, PasetoSymmetricKey, Payload,
    PreAuthenticationEncoding, PrivateKey, Public, PublicKey, PublicVersion, PurposeTrait,
    ReservedKey, SealedBox, SignatureForgery, SignatureScheme, SignedToken, Signs, Subject,
    SubjectClaim, TagCollision, TagForgery, TextClaim, TokenIdentifier, TokenIdentifierClaim,
    UntrustedToken, V1, V1orV3, V2, V2orV4, V3, V4, Validator, ValidatorFn, ValidatorMap, Verifies,
    VersionTrait, from_section, has_short_year, is_whole, moment_text, odd_key, same_value,
    split_token, to_section,
};
