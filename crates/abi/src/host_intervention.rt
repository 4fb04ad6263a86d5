// The intervention of a transaction as a host lends it, with the metadata in it: numbers alone. Each function here turns one of
// the two into the part with enums that the phase call takes, or back, or says whether its numbers are known.
ghost use Rattle.std.specs.Prelude.{◌≡◌};
ghost use Rattle.abi.specs.HostIntervention.{metadata_of, host_metadata, metadata_known, intervention_of, host_intervention, intervention_known};

use crate::values;
use crate::values::{HostNumber, HostPlace};
use reading::{Intervention, Place, RuleMetadata};

// The metadata of the rule that started the unit: the last action of each kind.
#[repr(C)]
#[derive(Clone, Copy, Default)]
pub struct HostMetadata {
    pub id: HostNumber,
    pub msg: HostPlace,
    pub logdata: HostPlace,
    pub rev: HostPlace,
    pub ver: HostPlace,
    pub severity: HostNumber,
    pub maturity: HostNumber,
    pub accuracy: HostNumber,
}

// An intervention or none.
#[repr(C)]
#[derive(Clone, Copy, Default)]
pub struct HostIntervention {
    // 1 where there is an intervention, else 0.
    pub present: u64,
    pub status: u64,
    // Where a redirect leads.
    pub url: HostPlace,
    // The log text, the starter's msg.
    pub log: HostPlace,
    // The closing rule's id.
    pub closing: HostNumber,
    // The starter's metadata id, where it is another.
    pub starter: HostNumber,
    // The phase in which it came about.
    pub phase: u64,
    // 1 where the connection is dropped, else 0.
    pub drop: u64,
    // The starter's metadata.
    pub metadata: HostMetadata,
}

impl From<HostMetadata> for RuleMetadata {
    ghost from_gives = { λ h m. m ≡ metadata_of h };

    #[tactic(auto, unfolding(crate::specs::HostIntervention::metadata_of))]
    fn from(h: HostMetadata) -> RuleMetadata {
        RuleMetadata {
            id: h.id.into(),
            msg: h.msg.into(),
            logdata: h.logdata.into(),
            rev: h.rev.into(),
            ver: h.ver.into(),
            severity: h.severity.into(),
            maturity: h.maturity.into(),
            accuracy: h.accuracy.into(),
        }
    }
}

impl From<RuleMetadata> for HostMetadata {
    ghost from_gives = { λ m h. h ≡ host_metadata m };

    #[tactic(auto, unfolding(crate::specs::HostIntervention::host_metadata))]
    fn from(m: RuleMetadata) -> HostMetadata {
        HostMetadata {
            id: m.id.into(),
            msg: m.msg.into(),
            logdata: m.logdata.into(),
            rev: m.rev.into(),
            ver: m.ver.into(),
            severity: m.severity.into(),
            maturity: m.maturity.into(),
            accuracy: m.accuracy.into(),
        }
    }
}

// Whether each `present` of metadata is 0 or 1.
#[tactic(auto, unfolding(crate::specs::HostIntervention::metadata_known))]
fn is_metadata_known(h: HostMetadata) -> bool
    ensures { result ≡ metadata_known h }
{
    values::is_number_known(h.id)
        && values::is_place_known(h.msg)
        && values::is_place_known(h.logdata)
        && values::is_place_known(h.rev)
        && values::is_place_known(h.ver)
        && values::is_number_known(h.severity)
        && values::is_number_known(h.maturity)
        && values::is_number_known(h.accuracy)
}

impl From<HostIntervention> for Option<Intervention> {
    ghost from_gives = { λ h o. o ≡ intervention_of h };

    #[tactic(auto, unfolding(crate::specs::HostIntervention::intervention_of))]
    fn from(h: HostIntervention) -> Option<Intervention> {
        if h.present != 1 {
            return None;
        }
        Some(Intervention {
            status: h.status,
            url: h.url.into(),
            log: h.log.into(),
            closing: h.closing.into(),
            starter: h.starter.into(),
            phase: h.phase,
            drop: values::flag_of(h.drop),
            metadata: h.metadata.into(),
        })
    }
}

impl From<Option<Intervention>> for HostIntervention {
    ghost from_gives = { λ o h. h ≡ host_intervention o };

    #[tactic(auto, unfolding(crate::specs::HostIntervention::host_intervention, crate::specs::HostIntervention::host_stop, crate::specs::HostIntervention::no_stop, crate::specs::HostIntervention::host_metadata))]
    fn from(o: Option<Intervention>) -> HostIntervention {
        match o {
            None => HostIntervention::default(),
            Some(i) => HostIntervention {
                present: 1,
                status: i.status,
                url: i.url.into(),
                log: i.log.into(),
                closing: i.closing.into(),
                starter: i.starter.into(),
                phase: i.phase,
                drop: values::flag_number(i.drop),
                metadata: i.metadata.into(),
            },
        }
    }
}

// Of an intervention that is absent nothing else is looked at.
#[tactic(auto, unfolding(crate::specs::HostIntervention::intervention_known))]
pub fn is_intervention_known(h: HostIntervention) -> bool
    ensures { result ≡ intervention_known h }
{
    h.present == 0
        || values::is_flag(h.present)
            && values::is_place_known(h.url)
            && values::is_place_known(h.log)
            && values::is_number_known(h.closing)
            && values::is_number_known(h.starter)
            && values::is_flag(h.drop)
            && is_metadata_known(h.metadata)
}
