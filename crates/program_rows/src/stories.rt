use std::alloc::Global;
use std::test::Fail;
use text_words::{cut, push_bytes};
use tm_base::NoMemory;
use view_story::*;

// A CPU that is the last active one goes offline: its duty is handed on, and its timers move.
const SCRIPT: &[u8] = b"tmig 1\nnodes 1\ncpus 3\ntimers 3\nat 10\narm 0 0 global 50 0 0\nidle 0\n\
    idle 1\narm 2 1 global 300 0 0\narm 2 2 pinned 20 0 0\nat 20\noffline 2\nend 100\n";

const REPORT: &[u8] = b"arm 10 0 0 global 61\nidle 10 0 never\nidle 10 1 never\n\
    arm 10 2 1 global 312\narm 10 2 2 pinned 31\ncover 10 0 61 migrator 0:0 2\noffline 20 2\n\
    handed 20 2 0\ncontrol 20 0\nmoved 20 2 2 0 31\nmoved 20 1 2 0 312\nrun 31 0 2 0 31 done\n\
    run 61 0 0 0 61 done\nleft 1 0 global 312\nend 100\n";

/// The script, and the report with other text in place of one line.
fn changed(alloc: Global, number: u64, text: &[u8]) -> Result<Vec<u8>, NoMemory> {
    let mut bytes = Vec::new(alloc);
    push_bytes(&mut bytes, SCRIPT)?;
    let mut rest = REPORT;
    for at in 1..u64::MAX {
        let Some((line, after)) = cut(rest, b'\n') else {
            break;
        };
        rest = after;
        if at == number {
            push_bytes(&mut bytes, text)?;
        } else {
            push_bytes(&mut bytes, line)?;
            push_bytes(&mut bytes, b"\n")?;
        }
    }
    Ok(bytes)
}

// Line 0 is none, so the first is the report of docs/FORMATS.md as it is. What is wrong with each
// other one follows from the rules there.
#[test]
fn a_line_that_no_run_prints_is_named_with_its_clause(rt: HostRuntime) -> Result<(), Fail> {
    let cases: [(u64, &str, &str); 22] = [
        (0, "", "story: fits, 15 lines, 2 runs\n"),
        (
            1,
            "arm 10 0 0 global 62\n",
            "line 1: Journals: the timer wheel gives another expiry\n",
        ),
        (
            2,
            "idle 9 0 never\n",
            "line 2: Moments: its time is before that of the line above\n",
        ),
        (
            2,
            "",
            "line 2: Operations: it answers no operation that comes next for its CPU\n",
        ),
        (
            2,
            "idle 10 0 never\nidle 10 0 never\n",
            "line 3: Operations: it answers no operation that comes next for its CPU\n",
        ),
        (
            3,
            "refused 10 1 8 1\n",
            "line 3: Refusals: the state of its CPU doesn't refuse the operation so\n",
        ),
        (
            3,
            "refused 10 1 9 1\n",
            "line 3: Operations: it answers no operation that comes next for its CPU\n",
        ),
        (
            4,
            "arm 10 2 1 pinned 312\n",
            "line 4: Operations: it answers no operation that comes next for its CPU\n",
        ),
        (6, "", "line 6: Idle: an idle CPU has no cover before it\n"),
        (
            6,
            "cover 10 0 61 migrator 0:0 1\n",
            "line 6: Idle: who it names doesn't answer for the first global timer\n",
        ),
        (
            6,
            "cover 10 0 60 migrator 0:0 2\n",
            "line 6: Idle: who it names doesn't answer for the first global timer\n",
        ),
        (
            9,
            "control 20 1\n",
            "line 9: Close: it names another CPU than the one that takes over\n",
        ),
        (
            10,
            "",
            "line 11: Close: a timer of a CPU that went offline has not moved before it\n",
        ),
        (
            10,
            "moved 20 1 2 0 312\nmoved 20 2 2 0 31\n",
            "line 11: Journals: another timer comes before it\n",
        ),
        (
            12,
            "run 32 0 2 0 31 done\n",
            "line 12: Runs: a timer that was due has not run before it\n",
        ),
        (
            12,
            "run 30 0 2 0 31 done\n",
            "line 12: Runs: the timer isn't due\n",
        ),
        (
            13,
            "run 61 1 0 0 61 done\n",
            "line 13: Runs: the CPU that runs it has no interrupt\n",
        ),
        (
            13,
            "run 61 0 0 0 61 mark 0\n",
            "line 13: Runs: the job of the timer replies otherwise\n",
        ),
        (
            13,
            "run 61 0 0 0 61 done\nrun 61 0 0 0 61 done\n",
            "line 14: Runs: the timer isn't queued there with that expiry\n",
        ),
        (
            13,
            "",
            "line 13: Runs: a timer that was due has not run before it\n",
        ),
        (
            14,
            "",
            "line 14: Close: a timer that is left isn't told before it\n",
        ),
        (15, "end 99\n", "line 15: Moments: the run ends elsewhere\n"),
    ];
    for i in 0..cases.len() {
        let (number, text, want) = cases[i];
        let bytes = changed(rt.alloc(), number, text.as_bytes())
            .ok()
            .ok_or("no memory")?;
        let told = judge_bytes(rt.alloc(), &bytes, false)
            .ok()
            .ok_or("no memory")?;
        assert!(rt; told.text.as_slice() == want.as_bytes(), "at {i}");
        assert!(rt; (told.status == 0) == (number == 0), "at {i}");
    }
    Ok(())
}

// CPU 0 alone is awake, so the timer of CPU 1 is run by it at 31, and at no later time.
#[test]
fn a_look_that_was_not_made_is_seen_in_a_plain_moment(rt: HostRuntime) -> Result<(), Fail> {
    let bytes = b"tmig 1\nnodes 1\ncpus 2\ntimers 1\nat 10\narm 1 0 global 20 0 0\nidle 1\nend 40\n\
        arm 10 1 0 global 31\nidle 10 1 never\ncover 10 1 31 migrator 0:0 0\n\
        run 32 0 0 1 31 done\nend 40\n";
    let told = judge_bytes(rt.alloc(), bytes.as_slice(), false)
        .ok()
        .ok_or("no memory")?;
    let want = b"line 4: Runs: a timer that was due has not run before it\n";
    assert!(rt; told.text.as_slice() == want.as_slice());
    Ok(())
}

// CPU 2 arms before CPU 1 is refused: so the lines stand in the script, but not by ascending CPU.
#[test]
fn the_lines_of_play_stand_by_the_lines_of_the_script(rt: HostRuntime) -> Result<(), Fail> {
    let bytes = b"tmig 1\nnodes 1\ncpus 3\ntimers 1\nat 10\narm 2 0 global 5 0 0\n\
        arm 1 0 global 7 0 0\nend 10\narm 10 2 0 global 16\nrefused 10 1 7 6 2\n\
        left 0 2 global 16\nend 10\n";
    let play = judge_bytes(rt.alloc(), bytes.as_slice(), true)
        .ok()
        .ok_or("no memory")?;
    assert!(rt; play.text.as_slice() == b"story: fits, 4 lines, 0 runs\n".as_slice());
    let run = judge_bytes(rt.alloc(), bytes.as_slice(), false)
        .ok()
        .ok_or("no memory")?;
    let want = b"line 1: Operations: it answers no operation that comes next for its CPU\n";
    assert!(rt; run.text.as_slice() == want.as_slice());
    Ok(())
}
