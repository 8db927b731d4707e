// The limits of a rule file, and the 24 orders of its columns.
ghost use Rattle.std.specs.Prelude.{◌<◌};

use crate::asking::ask;
use files::read_rules;
use std::alloc::{AllocError, Global};
use std::test::Fail;
use terms::{LabelNo, Refusal};

const NAMES: &str = "label,first,how,second\n";

// A file of so many rules `a,a,meet,a`.
fn of_rules(heap: Global, count: usize) -> Result<String, AllocError> {
    let mut text = String::from_str(heap, NAMES)?;
    for _ in 0..count {
        text.push_str("a,a,meet,a\n")?;
    }
    Ok(text)
}

// A file with so many labels, of which each rule brings one.
fn of_labels(heap: Global, count: usize) -> Result<String, AllocError> {
    let mut text = String::from_str(heap, NAMES)?;
    for i in 0..count {
        let line = format!(in heap; "l{i},l{i},meet,l{i}\n")?;
        text.push_str(line.as_str())?;
    }
    Ok(text)
}

#[test]
fn rules_and_labels(rt: HostRuntime) -> Result<(), Fail> {
    let heap = rt.alloc();
    assert_eq!(rt; ask(heap, of_rules(heap, 48)?.as_bytes())?, Ok((48, 1)));
    assert_eq!(rt;
        ask(heap, of_rules(heap, 49)?.as_bytes())?,
        Err((Refusal::Overfull, 50, 0))
    );
    assert_eq!(rt; ask(heap, of_labels(heap, 32)?.as_bytes())?, Ok((32, 32)));
    assert_eq!(rt;
        ask(heap, of_labels(heap, 33)?.as_bytes())?,
        Err((Refusal::Overfull, 34, 0))
    );
    // a line that brings the 32nd label and the 33rd
    let mut both = of_labels(heap, 31)?;
    both.push_str("l0,x,meet,y\n")?;
    assert_eq!(rt;
        ask(heap, both.as_bytes())?,
        Err((Refusal::Overfull, 33, 0))
    );
    // a line that is the 49th rule and brings the 33rd label
    let mut last = of_labels(heap, 32)?;
    for _ in 0..16 {
        last.push_str("l0,l1,meet,l2\n")?;
    }
    last.push_str("l0,x,meet,l2\n")?;
    assert_eq!(rt;
        ask(heap, last.as_bytes())?,
        Err((Refusal::Overfull, 50, 0))
    );
    // a wrong field comes before that
    let mut wrong = of_rules(heap, 48)?;
    wrong.push_str("a,a,near,a\n")?;
    assert_eq!(rt;
        ask(heap, wrong.as_bytes())?,
        Err((Refusal::Unrelated, 50, 3))
    );
    Ok(())
}

// The names line, one rule, and then a line of fillers up to a length.
fn of_bytes(heap: Global, length: usize) -> Result<String, AllocError>
    requires { 0 < length }
{
    let mut text = of_rules(heap, 1)?;
    for _ in text.len()..length - 1 {
        text.push_str("x")?;
    }
    text.push_str("\n")?;
    Ok(text)
}

#[test]
fn bytes(rt: HostRuntime) -> Result<(), Fail> {
    let heap = rt.alloc();
    // a long line is ragged; a long file is overfull before anything else
    assert_eq!(rt;
        ask(heap, of_bytes(heap, 32768)?.as_bytes())?,
        Err((Refusal::Ragged, 3, 0))
    );
    assert_eq!(rt;
        ask(heap, of_bytes(heap, 32769)?.as_bytes())?,
        Err((Refusal::Overfull, 0, 0))
    );
    Ok(())
}

// A column's name, and what the one rule has under it.
struct Column {
    name: &'static str,
    value: &'static str,
}

const COLUMNS: [Column; 4] = [
    Column {
        name: "label",
        value: "hut",
    },
    Column {
        name: "first",
        value: "lifted",
    },
    Column {
        name: "how",
        value: "before",
    },
    Column {
        name: "second",
        value: "boxed",
    },
];

fn in_order(
    heap: Global,
    a: &Column,
    b: &Column,
    c: &Column,
    d: &Column,
) -> Result<String, AllocError> {
    let (p, q, r, s) = (a.name, b.name, c.name, d.name);
    let (t, u, v, w) = (a.value, b.value, c.value, d.value);
    format!(in heap; "{p},{q},{r},{s}\n{t},{u},{v},{w}\n")
}

#[test]
fn orders(rt: HostRuntime) -> Result<(), Fail> {
    let heap = rt.alloc();
    let mut right = 0u32;
    let mut wrong = 0u32;
    for a in &COLUMNS {
        for b in &COLUMNS {
            for c in &COLUMNS {
                for d in &COLUMNS {
                    let text = in_order(heap, a, b, c, d)?;
                    match read_rules(heap, text.as_bytes()) {
                        Ok(table) => {
                            assert_eq!(rt; table.label_name(LabelNo(0)), Some("hut"));
                            assert_eq!(rt; table.label_name(LabelNo(1)), Some("lifted"));
                            assert_eq!(rt; table.label_name(LabelNo(2)), Some("boxed"));
                            right = right.saturating_add(1);
                        }
                        Err(_) => {
                            assert_eq!(rt;
                                ask(heap, text.as_bytes())?,
                                Err((Refusal::Headless, 1, 0))
                            );
                            wrong = wrong.saturating_add(1);
                        }
                    }
                }
            }
        }
    }
    assert_eq!(rt; right, 24);
    assert_eq!(rt; wrong, 232);
    Ok(())
}
