// The words of docs/RULES.md and docs/FORMATS.md, found again, and those of docs/REFUSALS.md with their numbers, as they are shown.
use files::RuleColumn;
use rules::Relation;
use std::fmt::Debug;
use std::process::Abort;
use std::test::Fail;
use terms::{Refusal, Worded};

// A text, and what has it for its word.
const RELATIONS: [(&[u8], Option<Relation>); 16] = [
    (b"before", Some(Relation::Before)),
    (b"meet", Some(Relation::Meet)),
    (b"during", Some(Relation::During)),
    (b"coincide", Some(Relation::Coincide)),
    (b"start", Some(Relation::Start)),
    (b"finish", Some(Relation::Finish)),
    (b"overlap", Some(Relation::Overlap)),
    (b"slice", Some(Relation::Slice)),
    (b"after", Some(Relation::After)),
    (b"follow", Some(Relation::Follow)),
    (b"contain", Some(Relation::Contain)),
    (b"", None),
    (b"Before", None),
    (b"befor", None),
    (b"before ", None),
    (b"contains", None),
];

const COLUMNS: [(&[u8], Option<RuleColumn>); 6] = [
    (b"label", Some(RuleColumn::Label)),
    (b"first", Some(RuleColumn::First)),
    (b"how", Some(RuleColumn::How)),
    (b"second", Some(RuleColumn::Second)),
    (b"when", None),
    (b"labels", None),
];

fn found<W: Worded + PartialEq + Debug>(rt: &impl Abort, table: &[(&[u8], Option<W>)]) {
    for (text, expected) in table {
        assert_eq!(rt; W::from_word(text), *expected);
    }
}

#[test]
fn relations(rt: HostRuntime) {
    found(&rt, &RELATIONS);
    assert_eq!(rt; Relation::all().len(), 11);
}

#[test]
fn columns(rt: HostRuntime) {
    found(&rt, &COLUMNS);
    assert_eq!(rt; RuleColumn::all().len(), 4);
}

// Each refusal, with its number and its word.
const REFUSALS: [(Refusal, u8, &str); 21] = [
    (Refusal::Headless, 1, "headless"),
    (Refusal::Ragged, 2, "ragged"),
    (Refusal::Misspelt, 3, "misspelt"),
    (Refusal::Unrelated, 4, "unrelated"),
    (Refusal::Overfull, 5, "overfull"),
    (Refusal::Ringed, 6, "ringed"),
    (Refusal::Unended, 7, "unended"),
    (Refusal::NoAct, 8, "no act"),
    (Refusal::Undated, 9, "undated"),
    (Refusal::Stranger, 10, "stranger"),
    (Refusal::Noted, 11, "noted"),
    (Refusal::NotStanding, 12, "not standing"),
    (Refusal::LogFull, 13, "log full"),
    (Refusal::Narrow, 14, "narrow"),
    (Refusal::Crowded, 15, "crowded"),
    (Refusal::Full, 16, "full"),
    (Refusal::Unsettled, 17, "unsettled"),
    (Refusal::Backwards, 18, "backwards"),
    (Refusal::PageShort, 19, "page short"),
    (Refusal::OffThePool, 20, "off the pool"),
    (Refusal::BadMeasure, 21, "bad measure"),
];

#[test]
fn refusals(rt: HostRuntime) -> Result<(), Fail> {
    for (refusal, number, word) in &REFUSALS {
        assert_eq!(rt; refusal.number(), *number);
        assert_eq!(rt; refusal.word(), *word);
        let shown = refusal.to_string(rt.alloc())?;
        assert_eq!(rt; shown.as_str(), *word);
    }
    Ok(())
}
