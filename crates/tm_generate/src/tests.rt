use super::*;
use crate::draws::Draws;
use std::test::Fail;
use tm_script::{print_script, read_script};

/// With number 1 the first draw modulo 8 is 6, as the rule of generated scripts says beside itself.
#[test]
fn the_first_draw_of_number_1_is_6(rt: HostRuntime) -> Result<(), Fail> {
    let mut draws = Draws { x: 1 };
    assert_eq!(rt; draws.draw(8), 6);
    Ok(())
}

/// Row generated-day: the beginning of the script of 1 1 1 1, whose first arm line is global since
/// the draw is 6. The last two lines follow from the rule: one moment at 5, and the end at 5 * 2.
#[test]
fn the_script_of_1_1_1_1_begins_as_the_rule_says(rt: HostRuntime) -> Result<(), Fail> {
    let script = generate(rt.alloc(), 1, 1, 1, 1).ok().ok_or("no memory")?;
    let text = print_script(rt.alloc(), &script).ok().ok_or("no memory")?;
    let text = text.as_slice();
    assert_eq!(rt;
        text.starts_with(b"tmig 1\nnodes 1\ncpus 1\ntimers 1\nat 0\narm 0 0 global "),
        true
    );
    assert_eq!(rt; text.ends_with(b"\nend 10\n"), true);
    Ok(())
}

/// The largest script is one, and reading its text gives it again.
#[test]
fn the_largest_script_is_read_again(rt: HostRuntime) -> Result<(), Fail> {
    let script = generate(rt.alloc(), u32::MAX, 64, 4_096, 1_000)
        .ok()
        .ok_or("no memory")?;
    let text = print_script(rt.alloc(), &script).ok().ok_or("no memory")?;
    let again = read_script(rt.alloc(), text.as_slice())
        .ok()
        .ok_or("refused")?;
    let copy = print_script(rt.alloc(), &again).ok().ok_or("no memory")?;
    assert_eq!(rt; copy.as_slice(), text.as_slice());
    Ok(())
}
