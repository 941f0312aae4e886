//! The texts of claims' errors. Those of checks that fail are among the rows of parsers.

use crate::expect::expect_error;
use rusty_paseto_claims::PasetoClaimError;
use std::alloc::{AllocError, Global};
use std::process::Abort;

fn owned(rt: &impl Abort, alloc: Global, text: &str) -> String {
    String::from_str(alloc, text).expect(rt, "memory")
}

#[test]
fn of_dates_keys_and_memory(rt: HostRuntime) {
    let alloc = rt.alloc();
    let error = PasetoClaimError::UseBeforeAvailable(owned(&rt, alloc, "2024-01-01T00:00:00Z"));
    let text = "The token cannot be used before 2024-01-01T00:00:00Z";
    expect_error(&rt, alloc, error, text);
    let error = PasetoClaimError::RFC3339Date(owned(&rt, alloc, "hello"));
    let text = "The value hello is a malformed RFC3339 date";
    expect_error(&rt, alloc, error, text);
    let error = PasetoClaimError::Reserved(owned(&rt, alloc, "exp"));
    let text =
        "The key exp is a reserved for use within PASETO.  To set a reserved claim, use the strong type: e.g - ExpirationClaimClaim";
    expect_error(&rt, alloc, error, text);
    let error = PasetoClaimError::DuplicateTopLevelPayloadClaim(owned(&rt, alloc, "iat"));
    let text = "The claim 'iat' appears more than once in the top level payload json";
    expect_error(&rt, alloc, error, text);
    let error = PasetoClaimError::from(AllocError);
    expect_error(&rt, alloc, error, "No memory was found");
}
