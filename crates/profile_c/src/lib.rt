// The host's door to the check of the service profile, for C.
#![tactic(auto)]

ghost use Rattle.std.specs.Prelude.{◌≡◌};
ghost use Rattle.profile.specs.Profile.{profile_of};

use profile::Report;

#[unsafe(no_mangle)]
pub extern "C" fn profile(words: &[u8]) -> Report
    ensures { result ≡ profile_of words.now }
{
    match profile::profile(words) {
        Ok(_) => Report {
            answer: 0,
            address: 0,
            rule: 0,
        },
        Err(unfit) => Report::from(unfit),
    }
}
