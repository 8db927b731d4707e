// Rings and groups, by files and by names.
use crate::asking::ask;
use files::read_rules;
use rules::{Draft, Group, Relation, RuleWords};
use std::test::Fail;
use terms::{LabelNo, Refusal, RuleNo};

#[test]
fn exclusive_rules_in_rings(rt: HostRuntime) -> Result<(), Fail> {
    let heap = rt.alloc();
    // a rule that reads its own label is a ring
    assert_eq!(rt;
        ask(heap, b"label,first,how,second\na,a,after,b\n")?,
        Err((Refusal::Ringed, 2, 0))
    );
    assert_eq!(rt;
        ask(heap, b"label,first,how,second\na,b,contain,a\n")?,
        Err((Refusal::Ringed, 2, 0))
    );
    assert_eq!(rt;
        ask(heap, b"label,first,how,second\na,a,meet,b\n")?,
        Ok((1, 2))
    );
    assert_eq!(rt;
        ask(
            heap,
            b"label,first,how,second\nc,a,meet,b\na,c,meet,b\nb,d,follow,c\n",
        )?,
        Err((Refusal::Ringed, 4, 0))
    );
    // the lowest of two
    assert_eq!(rt;
        ask(
            heap,
            b"label,first,how,second\nx,y,meet,y\na,a,follow,b\nc,c,after,c\n",
        )?,
        Err((Refusal::Ringed, 3, 0))
    );
    // an exclusive rule beside a ring is none in it
    assert_eq!(rt;
        ask(heap, b"label,first,how,second\na,a,meet,b\nq,a,contain,b\n")?,
        Ok((2, 3))
    );
    Ok(())
}

#[test]
fn groups_of_a_ring(rt: HostRuntime) -> Result<(), Fail> {
    let Ok(table) = read_rules(
        rt.alloc(),
        b"label,first,how,second\nc,a,meet,b\na,c,meet,b\n",
    ) else {
        return Err(Fail::new("refused"));
    };
    let ring = Group {
        start: 0,
        end: 2,
        ringed: true,
    };
    assert!(rt; table.groups() == [ring].as_slice());
    assert!(rt; table.order() == [RuleNo(1), RuleNo(2)].as_slice());
    Ok(())
}

fn rule<'a>(label: &'a str, first: &'a str, how: Relation, second: &'a str) -> RuleWords<'a> {
    RuleWords {
        label,
        first,
        how,
        second,
    }
}

#[test]
fn a_table_by_names(rt: HostRuntime) -> Result<(), Fail> {
    let mut draft = Draft::new(rt.alloc());
    let one = draft.add(rule("short", "hut", Relation::Contain, "hut"));
    let two = draft.add(rule("hut", "lifted", Relation::Before, "boxed"));
    let bad = draft.add(rule("hut", "Lifted", Relation::Before, "boxed"));
    assert!(rt; one.is_ok() && two.is_ok() && bad.is_err());
    let Ok(table) = draft.close() else {
        return Err(Fail::new("not closed"));
    };
    assert!(rt; table.rule_count() == 2 && table.label_count() == 4 && table.group_count() == 2);
    // the rule that makes `hut` comes before the one that reads it
    assert!(rt; table.order() == [RuleNo(2), RuleNo(1)].as_slice());
    assert_eq!(rt; table.label_name(LabelNo(2)), Some("lifted"));
    assert_eq!(rt; table.label_name(LabelNo(4)), None);
    assert!(rt; table.label_no(b"boxed").is_some() && table.label_no(b"box").is_none());
    assert!(rt;
        table.rule(RuleNo(0)).is_none()
            && table.rule(RuleNo(2)).is_some()
            && table.rule(RuleNo(3)).is_none()
    );
    Ok(())
}
