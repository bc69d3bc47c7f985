use linux_lines::LineFault;
use linux_rules::{Misfit, Verdict};
use linux_seen::{Rule, Whom};
use linux_view::*;
use std::test::Fail;
use tm_base::CpuId;

// The texts are those of docs/TRACES.md.
#[test]
fn a_misfit_names_its_line_and_its_rule(rt: HostRuntime) -> Result<(), Fail> {
    let misfit = Misfit {
        line: 68,
        rule: Rule::Rest,
        whom: Whom {
            cpu: Some(CpuId(4)),
            group: Some(0xffff_88be_08f8_c200),
        },
    };
    let text = print_verdict(rt.alloc(), Verdict::Broken(misfit))
        .ok()
        .ok_or("no memory")?;
    let want = b"line 68, CPU 4, group ffff88be08f8c200: with no walk under way a child's bit says \
          whether it is active (tmigr_active_up, tmigr_inactive_up)\n";
    assert!(rt; text.as_slice() == want.as_slice());
    let refused = Verdict::NoTrace(1, LineFault::NoEvent);
    let text = print_verdict(rt.alloc(), refused).ok().ok_or("no memory")?;
    let want = b"line 1: no line of a trace: there is no [CPU] with a time behind it\n";
    assert!(rt; text.as_slice() == want.as_slice());
    Ok(())
}
