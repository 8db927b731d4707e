// What is told of a file, and how a fault that holds it is shown.
use files::{CheckFault, check_rules};
use std::io;
use std::io::ErrorKind;
use std::test::Fail;

#[test]
fn told(rt: HostRuntime) -> Result<(), Fail> {
    let heap = rt.alloc();
    let counts = check_rules(heap, b"label,first,how,second\na,b,meet,c\n")?;
    assert_eq!(rt; counts.as_str(), "rules,labels,groups\n1,3,1\n");
    let Err(fault) = check_rules(heap, b"label,first,how,second\na,b,near,c\n") else {
        return Err(Fail::new("accepted"));
    };
    assert_eq!(rt;
        fault.to_string(heap)?.as_str(),
        "refused,file,line,column\n4,1,2,3\n"
    );
    assert!(rt; io::Error::from(fault).kind() == ErrorKind::InvalidData);
    assert_eq!(rt;
        CheckFault::OutOfMemory.to_string(heap)?.as_str(),
        "not enough memory"
    );
    Ok(())
}
