// The transaction that a recorded case starts with, and settings beside their recorded numbers.
use crate::replay_case::Entry;
use control::state::{Controls, Settings};
use reading::{BodyAccess, BodyProcessor, Intervention, Place, RuleEngineMode, RuleMetadata};
use transaction::types::Transaction;

fn mode_setting(n: u64) -> Option<RuleEngineMode> {
    match n {
        0 => None,
        1 => Some(RuleEngineMode::On),
        2 => Some(RuleEngineMode::DetectionOnly),
        _ => Some(RuleEngineMode::Off),
    }
}

fn access_setting(n: u64) -> Option<BodyAccess> {
    match n {
        0 => None,
        1 => Some(BodyAccess::On),
        _ => Some(BodyAccess::Off),
    }
}

fn processor_setting(n: u64) -> Option<BodyProcessor> {
    match n {
        0 => None,
        1 => Some(BodyProcessor::Urlencoded),
        2 => Some(BodyProcessor::Multipart),
        3 => Some(BodyProcessor::Json),
        _ => Some(BodyProcessor::Xml),
    }
}

pub fn mode_number(setting: Option<RuleEngineMode>) -> u64 {
    match setting {
        None => 0,
        Some(RuleEngineMode::On) => 1,
        Some(RuleEngineMode::DetectionOnly) => 2,
        Some(RuleEngineMode::Off) => 3,
    }
}

pub fn access_number(setting: Option<BodyAccess>) -> u64 {
    match setting {
        None => 0,
        Some(BodyAccess::On) => 1,
        Some(BodyAccess::Off) => 2,
    }
}

pub fn processor_number(setting: Option<BodyProcessor>) -> u64 {
    match setting {
        None => 0,
        Some(BodyProcessor::Urlencoded) => 1,
        Some(BodyProcessor::Multipart) => 2,
        Some(BodyProcessor::Json) => 3,
        Some(BodyProcessor::Xml) => 4,
    }
}

// The controls at entry. The ranges go into their arrays as they are recorded: those of an accepted call have the merged form.
fn entry_controls(entry: &Entry<'_>) -> Controls {
    let mut controls = Controls::new();
    let (ranges, _) = entry.ranges.as_chunks::<2>();
    controls.settings = Settings {
        mode: mode_setting(entry.mode),
        access: access_setting(entry.access),
        processor: processor_setting(entry.processor),
    };
    let places = controls.starts.iter_mut().zip(&mut controls.ends);
    for ((start, end), &[first, last]) in places.zip(ranges) {
        *start = first;
        *end = last;
    }
    controls.ranges = ranges.len();
    controls
}

fn no_metadata() -> RuleMetadata {
    RuleMetadata {
        id: None,
        msg: None,
        logdata: None,
        rev: None,
        ver: None,
        severity: None,
        maturity: None,
        accuracy: None,
    }
}

// The intervention at entry, where there is one: nothing is in it, since nothing of it is compared.
fn entry_stop(stopped: bool) -> Option<Intervention> {
    if !stopped {
        return None;
    }
    Some(Intervention {
        status: 0,
        url: None,
        log: None,
        closing: None,
        starter: None,
        phase: 0,
        drop: false,
        metadata: no_metadata(),
    })
}

pub fn entry_transaction(entry: &Entry<'_>) -> Transaction {
    Transaction {
        controls: entry_controls(entry),
        allowed: entry.allowed,
        intervention: entry_stop(entry.stopped),
        ids: 0,
        entries: 0,
    }
}
