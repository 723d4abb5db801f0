// The library's version.
ghost use Rattle.std.specs.Prelude.{◌≡◌};
ghost use Rattle.tteuyomal.specs.Version.{version};

#[unsafe(no_mangle)]
pub extern "C" fn tteuyomal_version() -> u64
    ensures { result ≡ version }
{
    tteuyomal::version::tteuyomal_version()
}
