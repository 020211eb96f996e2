// The settings of a file, and checks 5 and 15.
ghost use Rattle.std.specs.Prelude.{◌≡◌, ◌||◌, not, eqb};
ghost use Rattle.drawing_spec.specs.Drawing.{linking};
ghost use Rattle.drawing_spec.specs.Read.{settings_fit};
ghost use Rattle.file_records.specs.Body.{record_read};
ghost use Rattle.file_checks.specs.Settings.{settings_in};
ghost use Rattle.file_records.specs.Meaning.{settings_of};

use file_records::{Body, Settings};
use limits::{MOST_FLAGS, MOST_PAIRING, MOST_SIDE};

// What stands where no settings are.
const NO_SETTINGS: Settings = Settings {
    width: 0,
    height: 0,
    pairing: 0,
    flags: 0,
};

// Check 5.
#[tactic(auto, using(std::proofs::lemmas::Bool::Decides::nat_tests), unfolding(drawing_spec::specs::Read::settings_fit))]
pub fn settings_fit(s: Settings) -> bool
    ensures { result ≡ settings_fit (settings_of s) }
{
    s.width <= MOST_SIDE
        && s.height <= MOST_SIDE
        && s.pairing <= MOST_PAIRING
        && s.flags <= MOST_FLAGS
}

// Check 15, of the settings and of how many links the file has.
#[tactic(auto, using(std::proofs::lemmas::Bool::Decides::nat_tests))]
pub fn own_links_fit(s: Settings, links: usize) -> bool
    ensures { result ≡ (not (linking (settings_of s)) || eqb links 0) }
{
    let linking = s.flags / 4 % 2 == 1;
    !linking || links == 0
}

// The settings of the record at a place, and all zeros where it is another.
pub fn settings_of(file: &[u8], at: usize) -> Settings
    ensures { result ≡ settings_in (record_read file.now at).body }
{
    match file_records::record_at(file, at).body {
        Body::Settings(settings) => settings,
        Body::Line(_) | Body::Link(_) | Body::Other => NO_SETTINGS,
    }
}
