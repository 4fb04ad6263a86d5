// A setting, a number, a flag and a place as a host lends them: numbers alone, for no enum crosses to C or Rust. Each function here
// turns one of them into what has enums, or back, or says whether its numbers are known.
ghost use Rattle.std.specs.Prelude.{◌≡◌, ◌<◌, ℕ};
ghost use Rattle.reading.specs.Numbers.{mode_number, mode_of_number, access_number, processor_number};
ghost use Rattle.abi.specs.Settings.{setting_number, setting_of, access_of_number, processor_of_number};
ghost use Rattle.abi.specs.Settings.{mode_few, mode_back, access_few, access_back, processor_few, processor_back};
ghost use Rattle.abi.specs.HostValues.{settings_known, flag_of, flag_number, flag_known};
ghost use Rattle.abi.specs.HostValues.{number_of, host_number, number_known, place_of, host_place, place_known};

use control::fields;
use reading::{BodyAccess, BodyProcessor, Place, RuleEngineMode};

// A number or none: `present` is 1 or 0.
#[repr(C)]
#[derive(Clone, Copy, Default)]
pub struct HostNumber {
    // 1 where there is a number, else 0.
    pub present: u64,
    pub value: u64,
}

// A place or none.
#[repr(C)]
#[derive(Clone, Copy, Default)]
pub struct HostPlace {
    // 1 where there is a place, else 0.
    pub present: u64,
    pub phase: u64,
    // In that phase's whole action list.
    pub position: u64,
}

// THE SETTINGS

// An enum whose values are numbered from 0 on, in the order in which it declares them.
pub trait Numbered: Sized {
    // The number of a value.
    ghost number: { Self → ℕ };

    // The value of a number. Every one above the last is read as the last.
    ghost of_number: { ℕ → Self };

    fn number(self) -> u64
        ensures { result ≡ number self };

    fn of_number(n: u64) -> Self
        ensures { result ≡ of_number n };

    // There are no more than four values.
    ghost few: { (x : Self) → number x < 4 };

    // The number of a value stands for it.
    ghost back: { (x : Self) → of_number (number x) ≡ x };
}

impl Numbered for RuleEngineMode {
    ghost number = { mode_number };

    ghost of_number = { mode_of_number };

    ghost few = { mode_few };

    ghost back = { mode_back };

    fn number(self) -> u64 {
        self as u64 // 0, 1 or 2
    }

    fn of_number(n: u64) -> RuleEngineMode {
        fields::mode_of_number(n)
    }
}

impl Numbered for BodyAccess {
    ghost number = { access_number };

    ghost of_number = { access_of_number };

    ghost few = { access_few };

    ghost back = { access_back };

    fn number(self) -> u64 {
        self as u64 // 0 or 1
    }

    fn of_number(n: u64) -> BodyAccess {
        match n {
            0 => BodyAccess::On,
            _ => BodyAccess::Off,
        }
    }
}

impl Numbered for BodyProcessor {
    ghost number = { processor_number };

    ghost of_number = { processor_of_number };

    ghost few = { processor_few };

    ghost back = { processor_back };

    fn number(self) -> u64 {
        self as u64 // 0 to 3
    }

    fn of_number(n: u64) -> BodyProcessor {
        match n {
            0 => BodyProcessor::Urlencoded,
            1 => BodyProcessor::Multipart,
            2 => BodyProcessor::Json,
            _ => BodyProcessor::Xml,
        }
    }
}

// The number of a setting: 0 where it is not set, else one more than its value's.
pub fn setting_number<T: Numbered>(setting: Option<T>) -> u64
    ensures { result ≡ setting_number T.number setting }
{
    match setting {
        None => 0,
        Some(value) => 1 + value.number(),
    }
}

// The setting that a number stands for.
pub fn setting_of<T: Numbered>(n: u64) -> Option<T>
    ensures { result ≡ setting_of T.of_number n }
{
    match n {
        0 => None,
        _ => Some(T::of_number(n - 1)),
    }
}

// Whether three numbers are those of settings.
pub fn are_settings_known(mode: u64, access: u64, processor: u64) -> bool
    ensures { result ≡ settings_known mode access processor }
{
    mode <= 3 && access <= 2 && processor <= 4
}

// NUMBERS AND PLACES, OR NONE

// 1 is true; false is every other number, of which 0 alone is known.
pub fn flag_of(n: u64) -> bool
    ensures { result ≡ flag_of n }
{
    n == 1
}

pub fn is_flag(n: u64) -> bool
    ensures { result ≡ flag_known n }
{
    n <= 1
}

pub fn flag_number(b: bool) -> u64
    ensures { result ≡ flag_number b }
{
    b as u64
}

impl From<HostNumber> for Option<u64> {
    ghost from_gives = { λ h o. o ≡ number_of h };

    fn from(h: HostNumber) -> Option<u64> {
        (h.present == 1).then_some(h.value)
    }
}

impl From<Option<u64>> for HostNumber {
    ghost from_gives = { λ o h. h ≡ host_number o };

    fn from(o: Option<u64>) -> HostNumber {
        match o {
            None => HostNumber::default(),
            Some(value) => HostNumber { present: 1, value },
        }
    }
}

// Of a number and of a place only the flag is looked at: a function each, for they are structs of their own.
pub fn is_number_known(h: HostNumber) -> bool
    ensures { result ≡ number_known h }
{
    h.present <= 1 // with any value
}

impl From<HostPlace> for Option<Place> {
    ghost from_gives = { λ h o. o ≡ place_of h };

    fn from(h: HostPlace) -> Option<Place> {
        (h.present == 1).then_some(Place {
            phase: h.phase,
            position: h.position,
        })
    }
}

pub fn is_place_known(h: HostPlace) -> bool
    ensures { result ≡ place_known h }
{
    h.present <= 1 // with any phase and position
}

impl From<Option<Place>> for HostPlace {
    ghost from_gives = { λ o h. h ≡ host_place o };

    fn from(o: Option<Place>) -> HostPlace {
        match o {
            None => HostPlace::default(),
            Some(at) => HostPlace {
                present: 1,
                phase: at.phase,
                position: at.position,
            },
        }
    }
}
