// What the `ctl` directives of a transaction have set (`TransactionControls`), held in arrays and
// handed back by each operation.
ghost use Rattle.std.specs.Prelude.{Err, ◌<◌, ◌≡◌, true, false};
ghost use Rattle.reading.specs.Ranges.{add_range};
ghost use Rattle.reading.specs.Controls.{bad_controls, with_mode, with_access, with_processor, with_ranges, with_range, with_target, add_range_answer, add_target_answer};
ghost use Rattle.control.specs.ControlsStruct.{controls_of, New, Became, Added};

use crate::{fields, ranges};
use reading::{BodyAccess, BodyProcessor, Place, Refusal, RuleEngineMode, RuleIdRange, limits};

// The mode, the body access and the body processor, each set or not.
#[derive(Clone, Copy)]
pub struct Settings {
    pub mode: Option<RuleEngineMode>,
    pub access: Option<BodyAccess>,
    pub processor: Option<BodyProcessor>,
}

// 01 names this form, arrays with their counts: `ranges` and `targets` say how many places are in use, from the start. The ranges have
// the merged form of the module ranges.
#[derive(Clone, Copy)]
pub struct Controls {
    pub settings: Settings,
    pub starts: [u64; limits::RANGES],
    pub ends: [u64; limits::RANGES],
    pub ranges: usize,
    pub phases: [u64; limits::TARGETS],
    pub positions: [u64; limits::TARGETS],
    pub targets: usize,
}

// Whether an addition was refused, and the controls after it, which are handed back as they were if it was.
#[derive(Clone, Copy)]
pub struct ChangeAnswer {
    pub answer: Result<(), Refusal>,
    pub controls: Controls,
}

impl Controls {
    // Nothing set.
    #[tactic(auto, unfolding(crate::specs::ControlsStruct::controls_of, crate::specs::ControlsStruct::unset))]
    pub fn new() -> Self
        ensures { New result }
    {
        Controls {
            settings: Settings {
                mode: None,
                access: None,
                processor: None,
            },
            starts: [0; limits::RANGES],
            ends: [0; limits::RANGES],
            ranges: 0,
            phases: [0; limits::TARGETS],
            positions: [0; limits::TARGETS],
            targets: 0,
        }
    }

    // Refusal 3, of the controls. Where no range is held no array is looked at, and none is copied for it.
    pub fn is_bad(self) -> bool
        ensures { result ≡ bad_controls (controls_of self) }
    {
        if self.ranges == 0 {
            return limits::TARGETS < self.targets;
        }
        fields::is_bad(&self.starts, &self.ends, self.ranges, self.targets)
    }

    // The last mode, body access or processor wins, and no limit refuses one. 01 names a method for each.
    #[tactic(auto, unfolding(crate::specs::ControlsStruct::controls_of))]
    pub fn set_engine_mode(mut self, mode: RuleEngineMode) -> Self
        ensures { Became false self result (with_mode (controls_of self) mode) }
    {
        self.settings.mode = Some(mode);
        self
    }

    #[tactic(auto, unfolding(crate::specs::ControlsStruct::controls_of))]
    pub fn set_request_body_access(mut self, access: BodyAccess) -> Self
        ensures { Became false self result (with_access (controls_of self) access) }
    {
        self.settings.access = Some(access);
        self
    }

    #[tactic(auto, unfolding(crate::specs::ControlsStruct::controls_of))]
    pub fn set_request_body_processor(mut self, processor: BodyProcessor) -> Self
        ensures { Became false self result (with_processor (controls_of self) processor) }
    {
        self.settings.processor = Some(processor);
        self
    }

    // The controls with a range merged in, and 0 in the places after the ranges.
    fn with_range(mut self, range: RuleIdRange) -> Self
        requires { self.ranges < 256 }
        ensures { Became true self result (with_ranges (controls_of self) (add_range (controls_of self).ranges range)) }
    {
        let at = self.ranges;
        ranges::clear_once(false, &mut self.starts, at);
        ranges::clear_once(false, &mut self.ends, at);
        self.starts[at] = range.start;
        self.ends[at] = range.end;
        self.ranges = ranges::merge_after(&mut self.starts, &mut self.ends, at, at + 1);
        self
    }

    fn refused(self, refusal: Refusal) -> ChangeAnswer
        ensures { result ≡ record { answer = Err refusal; controls = self } }
    {
        ChangeAnswer {
            answer: Err(refusal),
            controls: self,
        }
    }

    // One range merged in. Refusals 3, 5 (start above end) and 8 (256 are held, also where it would merge), in this order.
    pub fn remove_range(self, range: RuleIdRange) -> ChangeAnswer
        ensures { Added true self result (add_range_answer (controls_of self) range) (with_range (controls_of self) range) }
    {
        let at = self.ranges;
        if fields::is_bad(&self.starts, &self.ends, at, self.targets) {
            return self.refused(Refusal::Counts);
        }
        if range.end < range.start {
            return self.refused(Refusal::Record);
        }
        if limits::RANGES <= at {
            return self.refused(Refusal::Ranges);
        }
        ChangeAnswer {
            answer: Ok(()),
            controls: self.with_range(range),
        }
    }

    // One target at the end. Refusals 3 and 9 (64 are held).
    pub fn remove_target(mut self, at: Place) -> ChangeAnswer
        ensures { Added false self result (add_target_answer (controls_of self)) (with_target (controls_of self) at) }
    {
        let next = self.targets;
        if fields::is_bad(&self.starts, &self.ends, self.ranges, next) {
            return self.refused(Refusal::Counts);
        }
        if limits::TARGETS <= next {
            return self.refused(Refusal::Targets);
        }
        self.phases[next] = at.phase;
        self.positions[next] = at.position;
        self.targets = next + 1;
        ChangeAnswer {
            answer: Ok(()),
            controls: self,
        }
    }
}
