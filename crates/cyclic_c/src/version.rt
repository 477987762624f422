//! The version.

ghost use Rattle.std.specs.Prelude.{◌≡◌};

/// The version of this library: a million for each major, a thousand for each minor, and the patch. It is `CYCLIC_VERSION_NUMBER`
/// of the header.
#[unsafe(no_mangle)]
pub extern "C" fn cyclic_version() -> u32
    ensures { result ≡ 1000 }
{
    1_000
}
