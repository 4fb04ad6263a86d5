// Whether what a call gave is what is recorded of it.
use crate::replay_case::{Expected, Given, Metadata, Stop, Stopped, Targets};
use actions::record;
use control::state::Controls;
use reading::{Intervention, Place, RuleMetadata};
use text::{span, trim};

// The number of a removed rule's verdict.
const REMOVED: u64 = 2;

// Whether a recorded text is that.
fn same_text(recorded: &[u64], bytes: &[u8]) -> bool {
    recorded
        .iter()
        .copied()
        .eq(bytes.iter().map(|&b| u64::from(b)))
}

impl Given<'_> {
    // Whether a recorded text is that of the action at a place, which must be one of this call's phase.
    fn same_text_at(&self, recorded: Option<&[u64]>, place: Option<Place>) -> bool {
        match (recorded, place) {
            (None, None) => true,
            (Some(recorded), Some(p)) => {
                let action = record::action_at(self.actions, p.position as usize);
                p.phase == self.settings.phase
                    && same_text(recorded, span::part_of(self.text, action.text))
            }
            _ => false,
        }
    }

    fn same_metadata(&self, recorded: &Metadata<'_>, m: &RuleMetadata) -> bool {
        recorded.id == m.id
            && self.same_text_at(recorded.msg, m.msg)
            && self.same_text_at(recorded.logdata, m.logdata)
            && self.same_text_at(recorded.rev, m.rev)
            && self.same_text_at(recorded.ver, m.ver)
            && recorded.severity == m.severity
            && recorded.maturity == m.maturity
            && recorded.accuracy == m.accuracy
    }

    // The ids of an intervention are the closing rule's and then the starter's, each if any.
    fn same_intervention(&self, recorded: &Stopped<'_>, i: &Intervention) -> bool {
        let ids = i.closing.into_iter().chain(i.starter);
        recorded.status == i.status
            && recorded.drop == u64::from(i.drop)
            && self.same_text_at(recorded.url, i.url)
            && self.same_text_at(recorded.log, i.log)
            && recorded.ids.iter().copied().eq(ids)
            && recorded.phase == i.phase
            && self.same_metadata(&recorded.metadata, &i.metadata)
    }

    // Whether the recorded stop is that: what the transaction holds after the call, and whether it held one before.
    pub fn same_stop(&self, recorded: &Stop<'_>, held: bool, after: &Option<Intervention>) -> bool {
        match (recorded, after) {
            (Stop::Nothing, None) => true,
            (Stop::Held, Some(_)) => held,
            (Stop::New(stopped), Some(i)) => { !held && self.same_intervention(stopped, i) }
            _ => false,
        }
    }

    // The two texts of a target are the sides of the first ';' in its action's value.
    fn same_target(&self, rule: &[u64], target: &[u64], p: Place) -> bool {
        let action = record::action_at(self.actions, p.position as usize);
        let value = span::part_of(self.text, action.value);
        let Some(cut) = value.iter().position(|&b| b == b';') else {
            return false;
        };
        p.phase == self.settings.phase
            && same_text(rule, trim::trim(&value[..cut]))
            && same_text(target, trim::trim(&value[cut + 1..]))
    }

    // Whether the recorded targets are those after the first `held`.
    pub fn same_targets(&self, recorded: &Targets<'_>, held: usize, after: &Controls) -> bool {
        let mut texts = recorded.texts;
        let places = after.phases.iter().zip(&after.positions);
        if after.targets.checked_sub(held).map(|n| n as u64) != Some(recorded.count) {
            return false;
        }
        for (&phase, &position) in places.take(after.targets).skip(held) {
            let (Some(rule), Some(target)) = (texts.list(1), texts.list(1)) else {
                return false;
            };
            if !self.same_target(rule, target, Place { phase, position }) {
                return false;
            }
        }
        true
    }
}

impl Expected<'_> {
    // Whether the recorded visits are the journal's first `n` entries; a removed rule's is not recorded.
    pub fn same_visits(&self, journal: &[[u64; 2]], n: usize) -> bool {
        let visits = journal
            .iter()
            .take(n)
            .filter(|[_, verdict]| *verdict != REMOVED);
        visits.flatten().eq(self.visits)
    }

    // Whether the recorded ids are those from the index `from` up to `to`.
    pub fn same_ids(&self, ids: &[u64], from: usize, to: usize) -> bool {
        ids.get(from..to) == Some(self.ids)
    }

    // Whether the recorded data entries are those from the index `from` up to `to`; an entry's phase is not recorded.
    pub fn same_entries(&self, entries: &[[u64; 4]], from: usize, to: usize) -> bool {
        let Some(added) = entries.get(from..to) else {
            return false;
        };
        added
            .iter()
            .flat_map(|&[present, id, _, index]| [present, id, index])
            .eq(self.entries.iter().copied())
    }

    // Whether the recorded ranges are those that are held.
    pub fn same_ranges(&self, held: &Controls) -> bool {
        held.starts
            .iter()
            .zip(&held.ends)
            .take(held.ranges)
            .flat_map(|(&start, &end)| [start, end])
            .eq(self.ranges.iter().copied())
    }
}
