//! The hashes for C and for languages that call C: `packages/c/include/rapidhash_c.h` declares
//! them. Each export calls the library's function and restates its clause.
#![tactic(auto)]

ghost use Rattle.std.specs.Prelude.{◌≡◌};

mod hashes;
mod secrets;
mod streams;

/// Returns the version number of the library: 100 times the major number, and the minor number.
#[unsafe(no_mangle)]
pub extern "C" fn rapidhash_c_version() -> u32
    ensures { result ≡ 100 }
{
    100
}
