use std::alloc::Global;
use std::test::Fail;
use tm_script::{Kind, ReadScript, ScriptFault};
use work_script::*;

fn refusal(alloc: Global, text: &[u8]) -> Option<ScriptFault> {
    match read_works(alloc, text) {
        Err(ReadScript::Refused(fault)) => Some(fault),
        _ => None,
    }
}

#[test]
fn a_script_of_works_is_read(rt: HostRuntime) -> Result<(), Fail> {
    let text = b"works 1\ncount 2\nat 10\nqueue 1 50 3 7\ncancel 0\nat 20\nend 100\n";
    let Ok(script) = read_works(rt.alloc(), text) else {
        assert!(rt; false);
        return Ok(());
    };
    assert_eq!(rt; script.count, 2);
    assert_eq!(rt; script.end, 100);
    assert_eq!(rt; script.moments.len(), 2);
    let moment = script.moments.get(0).unwrap();
    assert_eq!(rt; moment.at, 10);
    let queue = WorkOp::Queue {
        line: 4,
        work: 1,
        delay: 50,
        job: 3,
        arg: 7,
    };
    let cancel = WorkOp::Cancel { line: 5, work: 0 };
    assert!(rt; moment.ops.as_slice() == [queue, cancel].as_slice());
    Ok(())
}

// Each line and kind by hand, from the rules of lines and of kinds.
#[test]
fn a_fault_is_told_by_its_line_and_kind(rt: HostRuntime) -> Result<(), Fail> {
    let cases = [
        (b"".as_slice(), 1, Kind::NoEnd),
        (b"works 1".as_slice(), 1, Kind::BadLine),
        (b"works 2\ncount 0\n".as_slice(), 1, Kind::BadLine),
        (b"works 1\n".as_slice(), 2, Kind::NoEnd),
        (b"works 1\ncount 1 1\n".as_slice(), 2, Kind::BadLine),
        (b"works 1\ncount 01\n".as_slice(), 2, Kind::BadNumber),
        (b"works 1\ncount 0\n".as_slice(), 2, Kind::OutOfRange),
        (b"works 1\ncount 4097\n".as_slice(), 2, Kind::OutOfRange),
        (b"works 1\ncount 4096\n".as_slice(), 3, Kind::NoEnd),
        (b"works 1\ncount 1\ncancel 0\n".as_slice(), 3, Kind::BadLine),
        (
            b"works 1\ncount 1\nat 5\nqueue 0 x 0\n".as_slice(),
            4,
            Kind::BadLine,
        ),
        (
            b"works 1\ncount 1\nat 5\nqueue 1 x 0 0\n".as_slice(),
            4,
            Kind::BadNumber,
        ),
        (
            b"works 1\ncount 1\nat 5\nqueue 1 0 0 0\n".as_slice(),
            4,
            Kind::OutOfRange,
        ),
        (
            b"works 1\ncount 1\nat 5\nqueue 0 0 256 0\n".as_slice(),
            4,
            Kind::OutOfRange,
        ),
        (
            b"works 1\ncount 1\nat 5\nqueue 0 4294967296 0 0\n".as_slice(),
            4,
            Kind::OutOfRange,
        ),
        (
            b"works 1\ncount 1\nat 1099511627776\n".as_slice(),
            3,
            Kind::OutOfRange,
        ),
        (
            b"works 1\ncount 1\nat 5\nat 5\n".as_slice(),
            4,
            Kind::OutOfOrder,
        ),
        (
            b"works 1\ncount 1\nat 5\nend 4\n".as_slice(),
            4,
            Kind::OutOfOrder,
        ),
        (b"works 1\ncount 1\nat 5\n".as_slice(), 4, Kind::NoEnd),
        (
            b"works 1\ncount 1\nend 5\nat 6\n".as_slice(),
            4,
            Kind::BadLine,
        ),
    ];
    for (text, line, kind) in cases {
        let fault = ScriptFault { line, kind };
        assert_eq!(rt; refusal(rt.alloc(), text), Some(fault));
    }
    Ok(())
}
