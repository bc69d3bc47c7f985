use report_reader::*;
use std::test::Fail;
use tm_base::{CpuId, NEVER, TimerId};
use tm_report::{Line, ShownReply, text_of};

// The texts are those of the tables of lines in `docs/FORMATS.md` and `docs/CHECK.md`, one of each
// form.
#[test]
fn each_form_of_a_line_is_read_back(rt: HostRuntime) -> Result<(), Fail> {
    let texts = [
        "arm 10 1 0 global 31\n",
        "arm 10 1 0 pinned never\n",
        "arm 10 1 0 deferrable 31\n",
        "run 31 0 0 1 31 done\n",
        "run 31 0 0 1 31 mark 7\n",
        "run 31 0 0 1 31 again global 94\n",
        "run 31 0 0 1 31 skip 2\n",
        "cancel 20 0 0 1\n",
        "none 10 1 1\n",
        "idle 10 1 never\n",
        "stay 70 1 71\n",
        "wake 70 1\n",
        "offline 20 2\n",
        "handed 20 2 0\n",
        "online 30 1\n",
        "control 20 0\n",
        "moved 20 1 2 0 312\n",
        "cover 20 8 61 migrator 1:0 1\n",
        "cover 40 1 61 wake 0 61\n",
        "refused 70 1 13 2\n",
        "refused 10 1 9 6 0\n",
        "left 0 1 global 94\n",
        "end 18446744073709551615\n",
        "why 3 0 0 held 0:0 1\n",
        "why 3 0 0 woken 1 61\n",
        "why 3 0 0 carried 2\n",
        "why 3 0 0 none\n",
        "yes 3\n",
        "no 0\n",
        "device 20 never\n",
    ];
    for text in texts {
        let lines = read_report(rt.alloc(), text.as_bytes())?;
        assert_eq!(rt; lines.len(), 1);
        let again = text_of(rt.alloc(), &lines[0])?;
        assert!(rt; again.as_slice() == text.as_bytes(), "{text}");
    }
    Ok(())
}

#[test]
fn the_words_of_a_line_are_its_fields(rt: HostRuntime) -> Result<(), Fail> {
    let lines = read_report(rt.alloc(), b"idle 10 1 never\nrun 61 8 3 0 60 mark 7\n")?;
    assert_eq!(rt; lines.len(), 2);
    assert!(rt;
        matches!(
            &lines[0],
            Line::Idle {
                now: 10,
                cpu: CpuId(1),
                until: NEVER
            }
        )
    );
    assert!(rt;
        matches!(
            &lines[1],
            Line::Run {
                now: 61,
                runner: CpuId(8),
                timer: TimerId(3),
                home: CpuId(0),
                wheel: 60,
                reply: ShownReply::Mark(7),
            }
        )
    );
    Ok(())
}

// By hand: what is no line, and why.
#[test]
fn the_first_line_at_fault_is_told(rt: HostRuntime) -> Result<(), Fail> {
    let cases = [
        ("sleep 10 1\n", 1, Kind::UnknownName),
        ("\n", 1, Kind::UnknownName),
        ("wake 10 1\n wake 11 1\n", 2, Kind::UnknownName),
        ("wake 10 1\nwake 11\nend\n", 2, Kind::WrongWords),
        ("wake 10 1 1\n", 1, Kind::WrongWords),
        ("wake  10 1\n", 1, Kind::WrongWords),
        ("wake 010 1\n", 1, Kind::WrongWords),
        ("wake 10 65536\n", 1, Kind::WrongWords),
        ("end 18446744073709551616\n", 1, Kind::WrongWords),
        ("idle 10 1 281474976710655\n", 1, Kind::WrongWords),
        ("arm 10 1 0 local 31\n", 1, Kind::WrongWords),
        ("end 10\nend 11", 2, Kind::NoLineFeed),
    ];
    for (text, line, kind) in cases {
        let answer = read_report(rt.alloc(), text.as_bytes());
        let want = ReadReport::Refused(ReportFault { line, kind });
        assert!(rt; matches!(answer, Err(fault) if fault == want), "{text}");
    }
    Ok(())
}
