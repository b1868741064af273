//! The version of the library.
ghost use Rattle.std.specs.Prelude.{◌≡◌};
ghost use Rattle.csicodec_c.specs.Version.{version};

/// 10,000 times the first number of the version, 100 times the second and the third.
#[unsafe(no_mangle)]
pub extern "C" fn csicodec_version() -> u32
    ensures { result ≡ version }
{
    12700
}
