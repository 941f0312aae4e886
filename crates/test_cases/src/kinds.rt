//! The eight kinds of tokens, each made and read by one call, under the keys that a secret tells.

use crate::expect::{expect_outcome, expect_same};
use rusty_paseto_core::{
    Footer, ImplicitAssertion, Key, Local, LocalVersion, Paseto, PasetoError, PasetoNonce, Payload,
    Signs, V1, V2, V3, V4, Verifies,
};
use std::alloc::Global;
use std::process::Abort;
use test_toys::ToyBox;
use test_toys::counting::{Calls, Counting};
pub(crate) use test_toys::keys::{SECRET, symmetric_key};
use test_toys::keys::{Keys, ToyVersion};

/// Another secret.
pub(crate) const OTHER_SECRET: [u8; 64] = [8; 64];

/// A kind of tokens: a version and a purpose. Version 2 is local by the toy box, and each version is
/// public by its toy scheme.
#[derive(Clone, Copy, Debug, PartialEq, Eq)]
pub(crate) enum Kind {
    V1Local,
    V2Local,
    V3Local,
    V4Local,
    V1Public,
    V2Public,
    V3Public,
    V4Public,
}

/// All kinds.
pub(crate) const KINDS: &[Kind] = &[
    Kind::V1Local,
    Kind::V2Local,
    Kind::V3Local,
    Kind::V4Local,
    Kind::V1Public,
    Kind::V2Public,
    Kind::V3Public,
    Kind::V4Public,
];

/// The kinds that show their text, and are signed by a scheme.
pub(crate) const PUBLIC_KINDS: &[Kind] = &[
    Kind::V1Public,
    Kind::V2Public,
    Kind::V3Public,
    Kind::V4Public,
];

/// The kinds that take a text of any length, which is all but those that ask the toy box.
pub(crate) const ENDLESS_KINDS: &[Kind] = &[
    Kind::V1Local,
    Kind::V3Local,
    Kind::V4Local,
    Kind::V1Public,
    Kind::V2Public,
    Kind::V3Public,
    Kind::V4Public,
];

/// The kinds that are bound to an implicit assertion.
pub(crate) const ASSERTED_KINDS: &[Kind] = &[
    Kind::V3Local,
    Kind::V4Local,
    Kind::V3Public,
    Kind::V4Public,
];

/// What a token is bound to besides its key and its text. A kind with no implicit assertion leaves that
/// out.
#[derive(Clone, Copy)]
pub(crate) struct Binding<'a> {
    pub(crate) footer: Option<&'a str>,
    pub(crate) assertion: Option<&'a str>,
}

impl<'a> Binding<'a> {
    /// Neither a footer nor an implicit assertion.
    pub(crate) const NONE: Binding<'static> = Binding {
        footer: None,
        assertion: None,
    };

    /// A footer or none, and no implicit assertion.
    pub(crate) fn of_footer(footer: Option<&'a str>) -> Self {
        Binding {
            footer,
            assertion: None,
        }
    }

    /// An implicit assertion or none, and no footer.
    pub(crate) fn of_assertion(assertion: Option<&'a str>) -> Self {
        Binding {
            footer: None,
            assertion,
        }
    }

    fn footer(self) -> Option<Footer<'a>> {
        match self.footer {
            Some(text) => Some(Footer::from(text)),
            None => None,
        }
    }

    pub(crate) fn assertion(self) -> Option<ImplicitAssertion<'a>> {
        match self.assertion {
            Some(text) => Some(ImplicitAssertion::from(text)),
            None => None,
        }
    }
}

/// What was answered, and what was asked of a box or a scheme for it.
pub(crate) type Counted = (Result<String, PasetoError>, Calls);

impl Kind {
    /// What the tokens begin with.
    pub(crate) fn header(self) -> &'static str {
        match self {
            Kind::V1Local => "v1.local.",
            Kind::V2Local => "v2.local.",
            Kind::V3Local => "v3.local.",
            Kind::V4Local => "v4.local.",
            Kind::V1Public => "v1.public.",
            Kind::V2Public => "v2.public.",
            Kind::V3Public => "v3.public.",
            Kind::V4Public => "v4.public.",
        }
    }

    /// How a token is refused that was not made under the key and for the binding, by the error's `Debug` text.
    pub(crate) fn refusal(self) -> &'static str {
        match self {
            Kind::V2Local => "ChaChaCipherError",
            Kind::V1Local | Kind::V3Local | Kind::V4Local => "Cryption",
            _ => "InvalidSignature",
        }
    }

    /// The token of a text under a secret's keys, and what was asked for it.
    pub(crate) fn make_counted(
        self,
        alloc: Global,
        secret: &[u8; 64],
        text: &str,
        binding: Binding<'_>,
    ) -> Counted {
        match self {
            Kind::V1Local => (seal::<V1>(alloc, secret, text, binding), Calls::NONE),
            Kind::V2Local => seal_counted(alloc, secret, text, binding),
            Kind::V3Local => (seal::<V3>(alloc, secret, text, binding), Calls::NONE),
            Kind::V4Local => (seal::<V4>(alloc, secret, text, binding), Calls::NONE),
            Kind::V1Public => sign_counted::<V1>(alloc, secret, text, binding),
            Kind::V2Public => sign_counted::<V2>(alloc, secret, text, binding),
            Kind::V3Public => sign_counted::<V3>(alloc, secret, text, binding),
            Kind::V4Public => sign_counted::<V4>(alloc, secret, text, binding),
        }
    }

    /// What a token is read as under a secret's keys, and what was asked for it.
    pub(crate) fn read_counted(
        self,
        alloc: Global,
        secret: &[u8; 64],
        token: &str,
        binding: Binding<'_>,
    ) -> Counted {
        match self {
            Kind::V1Local => (open::<V1>(alloc, secret, token, binding), Calls::NONE),
            Kind::V2Local => open_counted(alloc, secret, token, binding),
            Kind::V3Local => (open::<V3>(alloc, secret, token, binding), Calls::NONE),
            Kind::V4Local => (open::<V4>(alloc, secret, token, binding), Calls::NONE),
            Kind::V1Public => verify_counted::<V1>(alloc, secret, token, binding),
            Kind::V2Public => verify_counted::<V2>(alloc, secret, token, binding),
            Kind::V3Public => verify_counted::<V3>(alloc, secret, token, binding),
            Kind::V4Public => verify_counted::<V4>(alloc, secret, token, binding),
        }
    }

    /// The token of a text under the secret's keys.
    pub(crate) fn make(
        self,
        alloc: Global,
        text: &str,
        binding: Binding<'_>,
    ) -> Result<String, PasetoError> {
        let (answer, _) = self.make_counted(alloc, &SECRET, text, binding);
        answer
    }

    /// What a token is read as under the secret's keys.
    pub(crate) fn read(
        self,
        alloc: Global,
        token: &str,
        binding: Binding<'_>,
    ) -> Result<String, PasetoError> {
        let (answer, _) = self.read_counted(alloc, &SECRET, token, binding);
        answer
    }

    /// The token of a text that has one.
    pub(crate) fn token(
        self,
        rt: &impl Abort,
        alloc: Global,
        text: &str,
        binding: Binding<'_>,
    ) -> String {
        self.make(alloc, text, binding).expect(rt, "a token")
    }

    /// A token is read as the text.
    pub(crate) fn check_text(
        self,
        rt: &impl Abort,
        alloc: Global,
        token: &str,
        binding: Binding<'_>,
        text: &str,
    ) {
        let found = self.read(alloc, token, binding).expect(rt, "a text");
        expect_same(rt, found.as_str(), text, &self);
    }

    /// A token is refused as one that was not made under the keys and for the binding.
    pub(crate) fn check_refused(
        self,
        rt: &impl Abort,
        alloc: Global,
        token: &str,
        binding: Binding<'_>,
    ) {
        let answer = self.read(alloc, token, binding);
        expect_outcome(rt, alloc, answer, self.refusal(), self);
    }
}

fn seal<V: LocalVersion>(
    alloc: Global,
    secret: &[u8; 64],
    text: &str,
    binding: Binding<'_>,
) -> Result<String, PasetoError> {
    let nonce = Key::from([0u8; 32]);
    V::seal(
        alloc,
        &symmetric_key(secret),
        &PasetoNonce::from(&nonce),
        Payload::from(text),
        binding.footer(),
        V::bound_assertion(binding.assertion()),
    )
}

fn open<V: LocalVersion>(
    alloc: Global,
    secret: &[u8; 64],
    token: &str,
    binding: Binding<'_>,
) -> Result<String, PasetoError> {
    V::open(
        alloc,
        token,
        &symmetric_key(secret),
        binding.footer(),
        V::bound_assertion(binding.assertion()),
    )
}

fn seal_counted(alloc: Global, secret: &[u8; 64], text: &str, binding: Binding<'_>) -> Counted {
    let sealed_box = Counting::new(ToyBox);
    let nonce = Key::from([0u8; 32]);
    let mut paseto = Paseto::<V2, Local>::builder();
    paseto.set_payload(Payload::from(text));
    if let Some(footer) = binding.footer() {
        paseto.set_footer(footer);
    }
    let key = symmetric_key(secret);
    let answer = paseto.try_encrypt(alloc, &sealed_box, &key, &PasetoNonce::from(&nonce));
    (answer, sealed_box.calls())
}

fn open_counted(alloc: Global, secret: &[u8; 64], token: &str, binding: Binding<'_>) -> Counted {
    let sealed_box = Counting::new(ToyBox);
    let key = symmetric_key(secret);
    let answer = Paseto::<V2, Local>::try_decrypt(
        alloc,
        &sealed_box,
        token,
        &key,
        binding.footer(),
    );
    (answer, sealed_box.calls())
}

fn sign_counted<V>(alloc: Global, secret: &[u8; 64], text: &str, binding: Binding<'_>) -> Counted
where
    V: ToyVersion + Signs<Counting<V::Toy>>,
{
    let keys = Keys::of(secret);
    let mut scheme = Counting::new(V::toy());
    let answer = V::sign(
        alloc,
        &mut scheme,
        &V::private_key(&keys),
        Payload::from(text),
        binding.footer(),
        V::bound(binding.assertion()),
    );
    (answer, scheme.calls())
}

fn verify_counted<V>(alloc: Global, secret: &[u8; 64], token: &str, binding: Binding<'_>) -> Counted
where
    V: ToyVersion + Verifies<Counting<V::Toy>>,
{
    let keys = Keys::of(secret);
    let scheme = Counting::new(V::toy());
    let answer = match V::public_key(&keys) {
        Ok(key) => V::verify(
            alloc,
            &scheme,
            token,
            &key,
            binding.footer(),
            V::bound(binding.assertion()),
        ),
        Err(error) => Err(error),
    };
    (answer, scheme.calls())
}
