// The controls as a host lends them: numbers alone, for no enum crosses to C or Rust. The functions here turn them into what has
// enums, or back, or say whether their numbers are known.
ghost use Rattle.std.specs.Prelude.{◌≡◌};
ghost use Rattle.abi.specs.HostControls.{controls_from_host, controls_to_host, known_controls};

use crate::values;
use control::state::{Controls, Settings};
use reading::limits;

// The settings by number, 0 where one is not set, and the arrays with how many of their places are in use.
#[repr(C)]
#[derive(Clone, Copy)]
pub struct HostControls {
    // 0 not set, 1 On, 2 DetectionOnly, 3 Off.
    pub mode: u64,
    // 0 not set, 1 On, 2 Off.
    pub access: u64,
    // 0 not set, 1 URLENCODED, 2 MULTIPART, 3 JSON, 4 XML.
    pub processor: u64,
    // How many ranges are held, merged.
    pub ranges: u64,
    // How many targets are held.
    pub targets: u64,
    // Where the ranges start: rising, each at least two above the end before it.
    pub starts: [u64; limits::RANGES],
    // Where the ranges end; both ends are removed.
    pub ends: [u64; limits::RANGES],
    // The phases of the targets' places.
    pub phases: [u64; limits::TARGETS],
    // The positions of the targets' places.
    pub positions: [u64; limits::TARGETS],
}

#[tactic(auto, unfolding(crate::specs::HostControls::known_controls))]
pub fn is_known_controls(c: HostControls) -> bool
    ensures { result ≡ known_controls c }
{
    values::are_settings_known(c.mode, c.access, c.processor)
}

impl From<HostControls> for Controls {
    ghost from_gives = { λ h c. c ≡ controls_from_host h };

    #[tactic(auto, using(crate::proofs::values::Settings::settings_same), unfolding(crate::specs::HostControls::controls_from_host))]
    fn from(h: HostControls) -> Controls {
        let starts = h.starts; // locals, here and below: a proof covers no array moved straight into a literal
        let ends = h.ends;
        let phases = h.phases;
        let positions = h.positions;
        Controls {
            settings: Settings {
                mode: values::setting_of(h.mode),
                access: values::setting_of(h.access),
                processor: values::setting_of(h.processor),
            },
            starts,
            ends,
            ranges: h.ranges as usize,
            phases,
            positions,
            targets: h.targets as usize,
        }
    }
}

impl From<Controls> for HostControls {
    ghost from_gives = { λ c h. h ≡ controls_to_host c };

    #[tactic(auto, using(crate::proofs::values::Settings::settings_same), unfolding(crate::specs::HostControls::controls_to_host))]
    fn from(c: Controls) -> HostControls {
        let starts = c.starts;
        let ends = c.ends;
        let phases = c.phases;
        let positions = c.positions;
        HostControls {
            mode: values::setting_number(c.settings.mode),
            access: values::setting_number(c.settings.access),
            processor: values::setting_number(c.settings.processor),
            ranges: c.ranges as u64,
            targets: c.targets as u64,
            starts,
            ends,
            phases,
            positions,
        }
    }
}
