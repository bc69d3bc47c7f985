use super::*;
use std::test::Fail;

// The numbers are those of the reports' `refused` line.
#[test]
fn refusals_are_numbered_in_order_and_want_of_memory_has_no_number(
    rt: HostRuntime,
) -> Result<(), Fail> {
    let cases = [
        (OpFault::NotActive, Some(1)),
        (OpFault::NotIdle, Some(2)),
        (OpFault::Offline, Some(3)),
        (OpFault::AlreadyOnline, Some(4)),
        (OpFault::LastOnline, Some(5)),
        (OpFault::Queued { cpu: CpuId(3) }, Some(6)),
        (OpFault::Spent { made: 9 }, Some(7)),
        (OpFault::NoMemory, None),
    ];
    for (fault, want) in cases {
        assert_eq!(rt; fault.number(), want);
    }
    Ok(())
}

#[test]
fn each_class_has_the_word_of_the_scripts(rt: HostRuntime) -> Result<(), Fail> {
    assert_eq!(rt; Class::Pinned.word(), "pinned");
    assert_eq!(rt; Class::Global.word(), "global");
    assert_eq!(rt; Class::Deferrable.word(), "deferrable");
    Ok(())
}

#[test]
fn a_set_has_what_was_added_and_nothing_else(rt: HostRuntime) -> Result<(), Fail> {
    let mut set = CpuSet::new();
    assert!(rt; !set.has(CpuId(0)));
    for added in [0, 63, 64, 511, 63] {
        set.add(CpuId(added));
    }
    let copy = set.clone()?;
    for cpu in [0, 63, 64, 511] {
        assert!(rt; set.has(CpuId(cpu)));
        assert!(rt; copy.has(CpuId(cpu)));
    }
    for cpu in [1, 62, 65, 128, 510, 512, 575, 65_535] {
        assert!(rt; !set.has(CpuId(cpu)));
        assert!(rt; !copy.has(CpuId(cpu)));
    }
    Ok(())
}

// What a walk does at a gate, of which it knows no more than the bound.
fn passes<G: Gate>(gate: &G) {
    gate.at(CpuId(8), 1, Point::BeforeUp);
}

#[test]
fn the_free_gate_lets_a_cpu_pass(_rt: HostRuntime) -> Result<(), Fail> {
    passes(&FreeGate);
    Ok(())
}
