//! Many maps, which are read back as they were stored.

use crate::claims::json;
use crate::expect::expect_that;
use rusty_paseto_core::{Local, V4};
use rusty_paseto_generic::{ClaimSetter, GenericBuilder};
use serde_json::{Map, Value};
use std::alloc::Global;
use std::process::Abort;

/// Numbers that follow from a seed.
#[derive(Drop)]
pub(crate) struct Numbers {
    last: u64,
}

impl Numbers {
    pub(crate) fn of_seed(seed: u64) -> Self {
        Numbers { last: seed }
    }

    /// The next one, below 2^32.
    pub(crate) fn next(&mut self) -> u64 {
        self.last = self
            .last
            .wrapping_mul(6364136223846793005)
            .wrapping_add(1442695040888963407);
        self.last / 4294967296
    }
}

// A key of up to three letters of four, the empty one too.
fn key_of(rt: &impl Abort, alloc: Global, numbers: &mut Numbers) -> String {
    let mut key = String::new(alloc);
    'letters: for _ in 0..numbers.next() % 4 {
        let letter = match numbers.next() % 4 {
            0 => 'a',
            1 => 'Z',
            2 => '"',
            _ => '\u{e9}',
        };
        key.push(letter).expect(rt, "memory");
    }
    key
}

// A value that holds no others, or an array of two or an object of one.
fn value_of(rt: &impl Abort, alloc: Global, numbers: &mut Numbers) -> Value {
    match numbers.next() % 6 {
        0 => Value::Null,
        1 => Value::from(numbers.next() % 2 == 0),
        2 => Value::from(numbers.next()),
        3 => {
            let text = key_of(rt, alloc, numbers);
            Value::try_from_str(alloc, text.as_str()).expect(rt, "memory")
        }
        4 => {
            let mut items = Vec::new(alloc);
            items.push(Value::from(numbers.next())).expect(rt, "memory");
            items.push(Value::Null).expect(rt, "memory");
            Value::Array(items)
        }
        _ => {
            let mut members = Map::new(alloc);
            let key = key_of(rt, alloc, numbers);
            let old: Result<_, _> = members.insert(key, Value::from(numbers.next()));
            drop(old.expect(rt, "memory"));
            Value::Object(members)
        }
    }
}

#[test]
fn read_back(rt: HostRuntime) {
    let alloc = rt.alloc();
    let mut numbers = Numbers::of_seed(1);
    'maps: for index in 0..1000u16 {
        let mut more = Map::new(alloc);
        'entries: for _ in 0..numbers.next() % 6 {
            let key = key_of(&rt, alloc, &mut numbers);
            let old: Result<_, _> = more.insert(key, value_of(&rt, alloc, &mut numbers));
            drop(old.expect(&rt, "memory"));
        }
        let wanted = Value::Object(more.clone().expect(&rt, "memory"));
        let mut builder = GenericBuilder::<V4, Local>::new(alloc);
        builder.put_claims(more).expect(&rt, "claims");
        let text = builder.build_payload_from_claims().expect(&rt, "a payload");
        let found = json::value_of(&rt, alloc, text.as_str());
        expect_that(
            &rt,
            rusty_paseto_claims::same_value(&found, &wanted),
            &(index, text),
        );
        drop(found);
        drop(builder);
        drop(wanted);
    }
}
