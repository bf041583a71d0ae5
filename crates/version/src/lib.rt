// The version of the calls for hosts, answered by the library itself, so that a host can tell whether its header fits.
#![tactic(auto)]

ghost use Rattle.std.specs.Prelude.{◌≡◌};
ghost use Rattle.version.specs.Version.{version_of};

// The version, as the header's PSIC_VERSION writes it.
pub fn psic_version() -> u32
    ensures { result ≡ version_of 4 0 0 }
{
    40000
}
