// Each refusal with its line and column.
use crate::asking::{Answer, ask};
use std::test::Fail;
use terms::Refusal;

// A file, and what it answers.
const CASES: [(&[u8], Answer); 34] = [
    // accepted
    (b"label,first,how,second\n", Ok((0, 0))),
    (b"label,first,how,second\na,b,meet,c\n", Ok((1, 3))),
    (b"how,second,first,label\nmeet,c,b,a\n", Ok((1, 3))),
    (b"label,first,how,second\na,a,meet,a\n", Ok((1, 1))),
    (
        b"label,first,how,second\nsixteen-bytes-ok,z9-,slice,a-\n",
        Ok((1, 3)),
    ),
    // headless
    (b"", Err((Refusal::Headless, 1, 0))),
    (b"\n", Err((Refusal::Headless, 1, 0))),
    (b"label,first,how,second", Err((Refusal::Headless, 1, 0))),
    (b"label,first,how\n", Err((Refusal::Headless, 1, 0))),
    (b"label,first,how,second,\n", Err((Refusal::Headless, 1, 0))),
    (b"label,first,how,first\n", Err((Refusal::Headless, 1, 0))),
    (b"label,first,how,Second\n", Err((Refusal::Headless, 1, 0))),
    (
        b"label,first,how,second\r\n",
        Err((Refusal::Headless, 1, 0)),
    ),
    (b"label, first,how,second\n", Err((Refusal::Headless, 1, 0))),
    (
        b"label,first,how,second,label\na,b,meet,c,a\n",
        Err((Refusal::Headless, 1, 0)),
    ),
    // unended, whatever the line holds
    (
        b"label,first,how,second\na,b,meet,c",
        Err((Refusal::Unended, 2, 0)),
    ),
    (
        b"label,first,how,second\na,b,meet,c\nx",
        Err((Refusal::Unended, 3, 0)),
    ),
    (
        b"label,first,how,second\n,,,,,",
        Err((Refusal::Unended, 2, 0)),
    ),
    // ragged, before any field is looked at
    (b"label,first,how,second\n\n", Err((Refusal::Ragged, 2, 0))),
    (
        b"label,first,how,second\na,b,meet\n",
        Err((Refusal::Ragged, 2, 0)),
    ),
    (
        b"label,first,how,second\na,b,meet,c,\n",
        Err((Refusal::Ragged, 2, 0)),
    ),
    (
        b"label,first,how,second\na,b,meet,c,d\n",
        Err((Refusal::Ragged, 2, 0)),
    ),
    (
        b"label,first,how,second\nA,b,near\n",
        Err((Refusal::Ragged, 2, 0)),
    ),
    (
        b"label,first,how,second\na,b,meet,c\n\n",
        Err((Refusal::Ragged, 3, 0)),
    ),
    // misspelt and unrelated, from the left
    (
        b"label,first,how,second\n,b,meet,c\n",
        Err((Refusal::Misspelt, 2, 1)),
    ),
    (
        b"label,first,how,second\na,9,near,c\n",
        Err((Refusal::Misspelt, 2, 2)),
    ),
    (
        b"label,first,how,second\na,b,near,-\n",
        Err((Refusal::Unrelated, 2, 3)),
    ),
    (
        b"label,first,how,second\na,b,meet,C\n",
        Err((Refusal::Misspelt, 2, 4)),
    ),
    (
        b"how,label,first,second\nMeet,A,b,c\n",
        Err((Refusal::Unrelated, 2, 1)),
    ),
    (
        b"label,first,how,second\na,b,meet,c\r\n",
        Err((Refusal::Misspelt, 2, 4)),
    ),
    (
        b"label,first,how,second\na,b,meet,c\na,seventeen-bytes-x,meet,c\n",
        Err((Refusal::Misspelt, 3, 2)),
    ),
    (
        b"label,first,how,second\na,b\x00,meet,c\n",
        Err((Refusal::Misspelt, 2, 2)),
    ),
    (
        b"label,first,how,second\na,b,meet,\xff\n",
        Err((Refusal::Misspelt, 2, 4)),
    ),
    (
        b"label,first,how,second\na,b, meet,c\n",
        Err((Refusal::Unrelated, 2, 3)),
    ),
];

#[test]
fn each_case(rt: HostRuntime) -> Result<(), Fail> {
    for (text, expected) in &CASES {
        assert_eq!(rt; ask(rt.alloc(), text)?, *expected);
    }
    Ok(())
}
