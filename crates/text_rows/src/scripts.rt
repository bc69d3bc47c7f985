ghost use Rattle.std.specs.Prelude.{IfOk};
ghost use Rattle.tm_script.specs.Grammar.{IsScript};

use std::alloc::Global;
use std::test::Fail;
use tm_base::{Class, CpuId, TimerId};
use tm_script::*;

/// The first four lines with one CPU and one timer.
const ONE: &[u8] = b"tmig 1\nnodes 1\ncpus 1\ntimers 1\n";

/// A script of each line and class, with the largest numbers, as the grammar spells it.
const EVERYTHING: &[u8] = b"tmig 2\nnodes 8\ncpus 64\ntimers 4096\nisolated 0 7 511\nat 0\n\
arm 511 4095 deferrable 4294967295 255 4294967295\narm 0 0 pinned 0 0 0\n\
arm 1 1 global 62 3 7\ncancel 2 0\nidle 3\nwake 4\noffline 5\nat 1099511627774\nonline 5\n\
end 1099511627775\n";

/// The bytes of several pieces, one behind the other.
fn joined(alloc: Global, pieces: &[&[u8]]) -> Result<Vec<u8>, Fail> {
    let mut bytes = Vec::new(alloc);
    for piece in pieces {
        bytes.extend_from_slice(piece)?;
    }
    Ok(bytes)
}

/// The script of these bytes.
fn script_read(alloc: Global, bytes: &[u8]) -> Result<Script, Fail>
    ensures { IfOk result IsScript }
{
    match read_script(alloc, bytes) {
        Ok(script) => Ok(script),
        Err(_) => Err(Fail::from("refused")),
    }
}

fn fault(line: u32, kind: Kind) -> Option<ScriptFault> {
    Some(ScriptFault { line, kind })
}

/// The fault that is told of these bytes; None for a script.
fn fault_told(alloc: Global, bytes: &[u8]) -> Result<Option<ScriptFault>, Fail> {
    match read_script(alloc, bytes) {
        Ok(_) => Ok(None),
        Err(ReadScript::Refused(fault)) => Ok(Some(fault)),
        Err(ReadScript::NoMemory) => Err(Fail::from("no memory")),
    }
}

/// The worked rows of refused scripts, of hostile scripts and of version 2's limits, with line and
/// kind as the specification has them.
#[test]
fn each_worked_row_is_refused_at_its_line(rt: HostRuntime) -> Result<(), Fail> {
    let rows: [(&[u8], Option<ScriptFault>); 30] = [
        (b"", fault(1, Kind::NoEnd)),
        (
            b"tmig 2\nnodes 1\ncpus 1\ntimers 1\nend 1\n",
            fault(5, Kind::BadLine),
        ),
        (
            b"tmig 3\nnodes 1\ncpus 1\ntimers 1\nend 1\n",
            fault(1, Kind::BadLine),
        ),
        (
            b"tmig 1\nnodes 01\ncpus 1\ntimers 1\nend 1\n",
            fault(2, Kind::BadNumber),
        ),
        (
            b"tmig 1\nnodes 8\ncpus 9\ntimers 1\nend 1\n",
            fault(3, Kind::OutOfRange),
        ),
        (
            b"tmig 1\nnodes 1\ncpus 1\ntimers 1\nat 20\nat 10\nend 30\n",
            fault(6, Kind::OutOfOrder),
        ),
        (
            b"tmig 1\nnodes 1\ncpus 1\ntimers 1\nat 20\nend 5\n",
            fault(6, Kind::OutOfOrder),
        ),
        (
            b"tmig 1\nnodes 1\ncpus 1\ntimers 1\nend 1099511627776\n",
            fault(5, Kind::OutOfRange),
        ),
        (
            b"tmig 1\nnodes 1\ncpus 1\ntimers 1\nat 20\n",
            fault(6, Kind::NoEnd),
        ),
        (
            b"tmig 1\nnodes 1\ncpus 1\ntimers 1\nat 10\narm 0 0 global 50 0 0\nend 100",
            fault(7, Kind::BadLine),
        ),
        (
            b"tmig 1\r\nnodes 1\ncpus 1\ntimers 1\nend 1\n",
            fault(1, Kind::BadLine),
        ),
        (
            b"tmig 1\nnodes 1\ncpus 1\ntimers 1\n \nend 1\n",
            fault(5, Kind::BadLine),
        ),
        (
            b"tmig 1\nnodes 1\ncpus 1\ntimers 1\nat 1\xff\nend 1\n",
            fault(5, Kind::BadNumber),
        ),
        (
            b"tmig 1\nnodes 1\ncpus 1\ntimers 1\nat 99999999999999\nend 1\n",
            fault(5, Kind::BadNumber),
        ),
        (
            b"tmig 1\nnodes 1\ncpus 1\ntimers 1\nat 10\narm 0 0 Global 50 0 0\nend 100\n",
            fault(6, Kind::BadLine),
        ),
        (
            b"tmig 1\nnodes 1\ncpus 1\ntimers 1\nat 10\narm 0 0 global 50 0\nend 100\n",
            fault(6, Kind::BadLine),
        ),
        (
            b"tmig 1\nnodes 1\ncpus 1\ntimers 1\nat 10\narm 0 0 global 4294967296 0 0\nend 100\n",
            fault(6, Kind::OutOfRange),
        ),
        (
            b"tmig 1\nnodes 1\ncpus 1\ntimers 1\nat 10\narm 0 1 global 50 0 0\nend 100\n",
            fault(6, Kind::OutOfRange),
        ),
        (
            b"tmig 1\nnodes 1\ncpus 1\ntimers 1\nat 10\noffline 0\nwake 0\nend 100\n",
            fault(7, Kind::OutOfOrder),
        ),
        (
            b"tmig 1\nnodes 1\ncpus 1\ntimers 1\nend 20\nat 30\n",
            fault(6, Kind::BadLine),
        ),
        (
            b"tmig 1\nnodes 1\ncpus 1\ntimers 1\nat 10\narm 0 0 global 50 0 0\nend 100\n",
            None,
        ),
        (
            b"tmig 2\nnodes 8\ncpus 64\ntimers 1\nisolated\nend 0\n",
            None,
        ),
        (
            b"tmig 2\nnodes 1\ncpus 9\ntimers 1\nisolated 0\nend 0\n",
            None,
        ),
        (
            b"tmig 2\nnodes 1\ncpus 2\ntimers 1\nisolated 0 1\nend 0\n",
            fault(5, Kind::OutOfRange),
        ),
        (
            b"tmig 2\nnodes 1\ncpus 3\ntimers 1\nisolated 1 0\nend 0\n",
            fault(5, Kind::OutOfOrder),
        ),
        (
            b"tmig 2\nnodes 1\ncpus 2\ntimers 1\nisolated 1 0\nend 0\n",
            fault(5, Kind::OutOfRange),
        ),
        (
            b"tmig 2\nnodes 1\ncpus 1\ntimers 1\nisolated 0 0\nend 0\n",
            fault(5, Kind::OutOfRange),
        ),
        (
            b"tmig 2\nnodes 1\ncpus 2\ntimers 1\nisolated 0 0\nend 0\n",
            fault(5, Kind::OutOfOrder),
        ),
        (
            b"tmig 1\nnodes 1\ncpus 1\ntimers 1\nat \nend 1\n",
            fault(5, Kind::BadNumber),
        ),
        (
            b"tmig 1\nnodes 1\ncpus 1\ntimers 1\nat  5\nend 9\n",
            fault(5, Kind::BadLine),
        ),
    ];
    for (text, expected) in rows {
        assert_eq!(rt; fault_told(rt.alloc(), text)?, expected);
    }
    Ok(())
}

/// Rows hostile-scripts, with 4,097 operations and with 65,537 lines; and the same with one fewer.
#[test]
fn too_many_operations_and_lines_are_refused(rt: HostRuntime) -> Result<(), Fail> {
    let mut wakes = joined(rt.alloc(), &[ONE, b"at 1\n"])?;
    for _ in 0..4096 {
        wakes.extend_from_slice(b"wake 0\n")?;
    }
    let most = joined(rt.alloc(), &[wakes.as_slice(), b"end 2\n"])?;
    assert_eq!(rt; fault_told(rt.alloc(), most.as_slice())?, None);
    let more = joined(rt.alloc(), &[wakes.as_slice(), b"wake 0\nend 2\n"])?;
    assert_eq!(rt;
        fault_told(rt.alloc(), more.as_slice())?,
        fault(4102, Kind::TooManyLines)
    );

    let mut lines = ONE.to_vec(rt.alloc())?;
    for at in 5u32..65_536 {
        let line = format!(in rt.alloc(); "at {at}\n")?;
        lines.extend_from_slice(line.as_bytes())?;
    }
    let most = joined(rt.alloc(), &[lines.as_slice(), b"end 65536\n"])?;
    assert_eq!(rt; fault_told(rt.alloc(), most.as_slice())?, None);
    let more = joined(rt.alloc(), &[lines.as_slice(), b"at 65536\nend 65537\n"])?;
    assert_eq!(rt;
        fault_told(rt.alloc(), more.as_slice())?,
        fault(65_537, Kind::TooManyLines)
    );
    let none = joined(rt.alloc(), &[lines.as_slice(), b"at 65536\n"])?;
    assert_eq!(rt;
        fault_told(rt.alloc(), none.as_slice())?,
        fault(65_537, Kind::NoEnd)
    );
    Ok(())
}

/// What is read of a script is printed as that script again, byte by byte.
#[test]
fn a_script_is_read_and_printed(rt: HostRuntime) -> Result<(), Fail> {
    let script = script_read(rt.alloc(), EVERYTHING)?;
    assert_eq!(rt;
        (script.version, script.nodes, script.cpus, script.timers),
        (2, 8, 64, 4096)
    );
    assert_eq!(rt;
        (script.isolated.has(CpuId(7)), script.isolated.has(CpuId(8))),
        (true, false)
    );
    assert_eq!(rt; (script.moments.len(), script.end), (2, 1_099_511_627_775));
    let moment = script.moments.get(0).ok_or("no moment")?;
    assert_eq!(rt; moment.at, 0);
    let largest = Op {
        line: 7,
        cpu: CpuId(511),
        what: What::Arm {
            timer: TimerId(4095),
            class: Class::Deferrable,
            delay: u32::MAX,
            job: 255,
            arg: u32::MAX,
        },
    };
    assert_eq!(rt; moment.ops.get(0).copied(), Some(largest));
    assert_eq!(rt; moment.ops.len(), 7);
    let text = print_script(rt.alloc(), &script).ok().ok_or("no memory")?;
    assert_eq!(rt; text.as_slice(), EVERYTHING);
    Ok(())
}

/// No class `deferrable` and no isolated line in version 1; both in version 2 alone.
#[test]
fn version_1_has_no_deferrable_timers(rt: HostRuntime) -> Result<(), Fail> {
    let text = joined(
        rt.alloc(),
        &[ONE, b"at 1\narm 0 0 deferrable 1 0 0\nend 9\n"],
    )?;
    assert_eq!(rt;
        fault_told(rt.alloc(), text.as_slice())?,
        fault(6, Kind::BadLine)
    );
    let text = joined(rt.alloc(), &[ONE, b"isolated\nend 9\n"])?;
    assert_eq!(rt;
        fault_told(rt.alloc(), text.as_slice())?,
        fault(5, Kind::BadLine)
    );
    Ok(())
}
