use script_main::day_text::{Summary, print_day};
use std::test::Fail;

// The lines are those of the day's table in docs/FORMATS.md.
#[test]
fn each_number_stands_on_its_line(rt: HostRuntime) -> Result<(), Fail> {
    let summary = Summary {
        moments: 1,
        runs: 2,
        remote: 3,
        armed: 4,
        cancels: 5,
        idles: 6,
        stays: 7,
        wakes: 8,
        refused: 9,
        left: 10,
        end: 11,
    };
    let text = print_day(rt.alloc(), &summary).ok().ok_or("no memory")?;
    let want = b"moments 1\nruns 2\nremote 3\narmed 4\ncancels 5\nidles 6\nstays 7\nwakes 8\n\
          refused 9\nleft 10\nend 11\n";
    assert_eq!(rt; text.as_slice(), want.as_slice());
    Ok(())
}
