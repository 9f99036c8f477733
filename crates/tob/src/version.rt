// The version of the interface, so that a caller can tell whether the archive is the header's: 100 times its first number, and its second.
ghost use Rattle.std.specs.Prelude.{◌≡◌};
ghost use Rattle.library.specs.Calls.{interface_version};

#[unsafe(no_mangle)]
pub extern "C" fn tob_version() -> u32
    ensures { result ≡ interface_version }
{
    100
}
