//! The version of the library.
ghost use Rattle.std.specs.Prelude.{◌≡◌, ◌+◌, ◌*◌};

// The three numbers, as in the header.
const MAJOR: u32 = 0;

const MINOR: u32 = 1;

const PATCH: u32 = 0;

/// The version of the library in one number: the major number in millions, the minor one in thousands,
/// and the patch. In C `REAMERTAN_VERSION` is that of the header.
#[unsafe(no_mangle)]
pub extern "C" fn reamertan_version() -> u32
    ensures { result ≡ MAJOR * 1000000 + MINOR * 1000 + PATCH }
{
    MAJOR * 1_000_000 + MINOR * 1_000 + PATCH
}
