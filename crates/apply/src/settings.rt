// The mode, the body access or the body processor that an action sets, by its code of the module codes.
ghost use Rattle.std.specs.Prelude.{◌≡◌};
ghost use Rattle.apply.specs.SettingCodes.{mode_set, access_set, processor_set, settings_after};

use crate::codes;
use control::state::Settings;
use reading::{BodyAccess, BodyProcessor, RuleEngineMode};

fn mode_set(s: Settings, mode: RuleEngineMode) -> Settings
    ensures { result ≡ mode_set s mode }
{
    Settings {
        mode: Some(mode),
        ..s
    }
}

fn access_set(s: Settings, access: BodyAccess) -> Settings
    ensures { result ≡ access_set s access }
{
    Settings {
        access: Some(access),
        ..s
    }
}

fn processor_set(s: Settings, processor: BodyProcessor) -> Settings
    ensures { result ≡ processor_set s processor }
{
    Settings {
        processor: Some(processor),
        ..s
    }
}

// The settings after a code; those of no setting leave them.
#[tactic(auto, unfolding(crate::specs::SettingCodes::settings_after))]
pub fn set_by_code(s: Settings, code: u16) -> Settings
    ensures { result ≡ settings_after code s }
{
    match code {
        codes::MODE_ON => mode_set(s, RuleEngineMode::On),
        codes::MODE_DETECTION_ONLY => mode_set(s, RuleEngineMode::DetectionOnly),
        codes::MODE_OFF => mode_set(s, RuleEngineMode::Off),
        codes::ACCESS_ON => access_set(s, BodyAccess::On),
        codes::ACCESS_OFF => access_set(s, BodyAccess::Off),
        codes::URLENCODED => processor_set(s, BodyProcessor::Urlencoded),
        codes::MULTIPART => processor_set(s, BodyProcessor::Multipart),
        codes::JSON => processor_set(s, BodyProcessor::Json),
        codes::XML => processor_set(s, BodyProcessor::Xml),
        _ => s,
    }
}
