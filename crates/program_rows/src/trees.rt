use script_main::tree_text::print_tree;
use std::test::Fail;
use tm_base::CpuSet;
use tree_plan::plan;

// The text is that of the specification's example, 1 node of 9 CPUs.
#[test]
fn nine_cpus_have_two_levels(rt: HostRuntime) -> Result<(), Fail> {
    let alloc = rt.alloc();
    let tree = plan(alloc, 1, 9, &CpuSet::new()).ok().ok_or("no memory")?;
    let text = print_tree(alloc, &tree).ok().ok_or("no memory")?;
    let want = b"levels 2 groups 3\ngroup 0:0 parent 1:0 bit 0 children 8\n\
          group 0:1 parent 1:0 bit 1 children 1\ngroup 1:0 top children 2\n";
    assert_eq!(rt; text.as_slice(), want.as_slice());
    Ok(())
}
