//! The version of the library.

ghost use Rattle.std.specs.Prelude.{◌≡◌};

/// The version of the library: 10000 times the major number, 100 times the minor number, and the patch number, like
/// `PASETO_VERSION` of `c/paseto.h`.
#[unsafe(no_mangle)]
pub extern "C" fn paseto_version() -> u32
    ensures { result ≡ 10000 }
{
    10000
}
