//! Tokens that are read under a key and for a binding: their own, or another.

use crate::expect::{expect_outcome, expect_same};
use crate::kinds::{ASSERTED_KINDS, Binding, KINDS, Kind, OTHER_SECRET, SECRET};
use std::alloc::Global;
use std::process::Abort;

// What a token is made under, or read.
#[derive(Clone, Copy, Debug)]
struct Under {
    is_other_key: bool,
    footer: Option<&'static str>,
    assertion: Option<&'static str>,
}

impl Under {
    fn secret(self) -> &'static [u8; 64] {
        if self.is_other_key {
            &OTHER_SECRET
        } else {
            &SECRET
        }
    }

    fn binding(self) -> Binding<'static> {
        Binding {
            footer: self.footer,
            assertion: self.assertion,
        }
    }
}

// What is answered.
#[derive(Clone, Copy, Debug)]
enum Told {
    Text,
    Refusal,
    OtherFooter,
}

// What a token is made under, what it is read under, and what is answered.
type Row = (Under, Under, Told);

const NONE: Under = Under {
    is_other_key: false,
    footer: None,
    assertion: None,
};

const FOOTER: Under = Under {
    footer: Some("footer"),
    ..NONE
};

const OTHER_FOOTER: Under = Under {
    footer: Some("other"),
    ..NONE
};

const OTHER_KEY: Under = Under {
    is_other_key: true,
    ..FOOTER
};

const ROWS: &[Row] = &[
    (FOOTER, FOOTER, Told::Text),
    (FOOTER, OTHER_KEY, Told::Refusal),
    (FOOTER, OTHER_FOOTER, Told::OtherFooter),
    (OTHER_KEY, FOOTER, Told::Refusal),
    (OTHER_KEY, OTHER_KEY, Told::Text),
];

const X: Under = Under {
    assertion: Some("x"),
    ..NONE
};

const Y: Under = Under {
    assertion: Some("y"),
    ..NONE
};

const XX: Under = Under {
    assertion: Some("xx"),
    ..NONE
};

const EMPTY: Under = Under {
    assertion: Some(""),
    ..NONE
};

const BOTH: Under = Under {
    assertion: Some("assertion"),
    ..FOOTER
};

// Of kinds with an implicit assertion. None and an empty one are alike.
const ASSERTED_ROWS: &[Row] = &[
    (X, X, Told::Text),
    (X, NONE, Told::Refusal),
    (X, EMPTY, Told::Refusal),
    (X, Y, Told::Refusal),
    (X, XX, Told::Refusal),
    (NONE, X, Told::Refusal),
    (NONE, NONE, Told::Text),
    (NONE, EMPTY, Told::Text),
    (BOTH, BOTH, Told::Text),
    (BOTH, FOOTER, Told::Refusal),
];

fn token_of(rt: &impl Abort, alloc: Global, kind: Kind, under: Under) -> String {
    let (made, _) = kind.make_counted(alloc, under.secret(), "hello", under.binding());
    made.expect(rt, "a token")
}

fn check(rt: &impl Abort, alloc: Global, kind: Kind, row: Row) {
    let (made, read, told) = row;
    let token = token_of(rt, alloc, kind, made);
    let (answer, _) = kind.read_counted(alloc, read.secret(), token.as_str(), read.binding());
    match told {
        Told::Text => {
            let text = answer.expect(rt, "a text");
            expect_same(rt, text.as_str(), "hello", &(kind, row));
        }
        Told::Refusal => expect_outcome(rt, alloc, answer, kind.refusal(), (kind, row)),
        Told::OtherFooter => expect_outcome(rt, alloc, answer, "FooterInvalid", (kind, row)),
    }
}

fn check_rows(rt: &impl Abort, alloc: Global, kinds: &[Kind], rows: &[Row]) {
    'kinds: for &kind in kinds {
        'rows: for &row in rows {
            check(rt, alloc, kind, row);
        }
    }
}

#[test]
fn answers(rt: HostRuntime) {
    check_rows(&rt, rt.alloc(), KINDS, ROWS);
    check_rows(&rt, rt.alloc(), ASSERTED_KINDS, ASSERTED_ROWS);
}

#[test]
fn no_assertion_and_an_empty_one(rt: HostRuntime) {
    'kinds: for &kind in ASSERTED_KINDS {
        let token = token_of(&rt, rt.alloc(), kind, NONE);
        let same = token_of(&rt, rt.alloc(), kind, EMPTY);
        expect_same(&rt, same.as_str(), token.as_str(), kind);
    }
}

// A footer is not read in the place of an assertion.
#[test]
fn a_footer_for_an_assertion(rt: HostRuntime) {
    let asserted = Under {
        assertion: Some("footer"),
        ..NONE
    };
    'kinds: for &kind in ASSERTED_KINDS {
        let bare = token_of(&rt, rt.alloc(), kind, asserted);
        let token = format!(in rt.alloc(); "{bare}.Zm9vdGVy").expect(&rt, "memory");
        let answer = kind.read(rt.alloc(), token.as_str(), FOOTER.binding());
        expect_outcome(&rt, rt.alloc(), answer, kind.refusal(), kind);
    }
}
