//! Worked rows of the whole program: words and input, and the status and text that they come to.
//! They were worked out from the rules before the program was, and none is its own output.

use script_main::{
    DONE, JOB_UNKNOWN, SCRIPT_REFUSED, TRACE_REFUSED, USAGE, WORK_SPENT, WORKS_REFUSED,
};

/// What one run is given, and what it comes to.
#[derive(Clone, Copy)]
pub(crate) struct Row {
    /// The words, parted by spaces.
    pub words: &'static str,
    /// What the source has.
    pub input: &'static [u8],
    pub status: u8,
    pub text: &'static [u8],
}

/// The rows of scripts of which `play` and `run` make the same, whichever thread comes first.
pub(crate) fn rows_of_one_story() -> [Row; 7] {
    [
        // plain
        Row {
            words: "play",
            input: b"tmig 1\nnodes 1\ncpus 1\ntimers 1\nat 10\narm 0 0 global 50 0 0\nend 100\n",
            status: DONE,
            text: b"arm 10 0 0 global 61\nrun 61 0 0 0 61 done\nend 100\n",
        },
        // last-active-offline
        Row {
            words: "play",
            input: b"tmig 1\nnodes 1\ncpus 3\ntimers 3\nat 10\narm 0 0 global 50 0 0\nidle 0\n\
              idle 1\narm 2 1 global 300 0 0\narm 2 2 pinned 20 0 0\nat 20\noffline 2\nend 100\n",
            status: DONE,
            text: b"arm 10 0 0 global 61\nidle 10 0 never\nidle 10 1 never\narm 10 2 1 global 312\n\
              arm 10 2 2 pinned 31\ncover 10 0 61 migrator 0:0 2\noffline 20 2\nhanded 20 2 0\n\
              control 20 0\nmoved 20 2 2 0 31\nmoved 20 1 2 0 312\nrun 31 0 2 0 31 done\n\
              run 61 0 0 0 61 done\nleft 1 0 global 312\nend 100\n",
        },
        // isolated-last
        Row {
            words: "play",
            input: b"tmig 2\nnodes 1\ncpus 2\ntimers 1\nisolated 1\nat 10\noffline 0\nat 20\n\
              arm 1 0 pinned 50 0 0\noffline 1\nend 100\n",
            status: DONE,
            text: b"refused 10 0 7 5\narm 20 1 0 pinned 71\noffline 20 1\ncontrol 20 0\n\
              moved 20 0 1 0 71\nrun 71 0 0 0 71 done\nend 100\n",
        },
        // isolated-alone
        Row {
            words: "play",
            input: b"tmig 2\nnodes 1\ncpus 3\ntimers 1\nisolated 2\nat 10\narm 2 0 global 50 0 0\n\
              idle 2\nend 100\n",
            status: DONE,
            text: b"arm 10 2 0 global 61\nidle 10 2 61\ncover 10 2 61 wake 2 61\n\
              run 61 2 0 2 61 done\nend 100\n",
        },
        // deferrable
        Row {
            words: "play",
            input: b"tmig 2\nnodes 1\ncpus 1\ntimers 2\nisolated\nat 10\n\
              arm 0 0 deferrable 50 0 0\narm 0 1 global 200 0 0\nidle 0\nend 300\n",
            status: DONE,
            text: b"arm 10 0 0 deferrable 61\narm 10 0 1 global 216\nidle 10 0 216\n\
              cover 10 0 216 wake 0 216\nrun 216 0 1 0 216 done\nrun 216 0 0 0 61 done\nend 300\n",
        },
        // global-before-pinned
        Row {
            words: "play",
            input: b"tmig 1\nnodes 1\ncpus 2\ntimers 2\nat 10\narm 1 0 global 50 0 0\n\
              arm 1 1 pinned 200 0 0\nidle 1\nend 100\n",
            status: DONE,
            text: b"arm 10 1 0 global 61\narm 10 1 1 pinned 216\nidle 10 1 216\n\
              cover 10 1 61 migrator 0:0 0\nrun 61 0 0 1 61 done\nleft 1 1 pinned 216\nend 100\n",
        },
        // cancelled-event
        Row {
            words: "play",
            input: b"tmig 1\nnodes 1\ncpus 2\ntimers 1\nat 10\narm 1 0 global 50 0 0\nidle 1\n\
              at 20\ncancel 0 0\nat 30\nidle 0\nend 100\n",
            status: DONE,
            text: b"arm 10 1 0 global 61\nidle 10 1 never\ncover 10 1 61 migrator 0:0 0\n\
              cancel 20 0 0 1\nidle 30 0 61\nend 100\n",
        },
    ]
}

/// The rows of scripts that are played or drawn, and of words.
pub(crate) fn rows() -> [Row; 16] {
    [
        // jobs
        Row {
            words: "play",
            input: b"tmig 1\nnodes 1\ncpus 2\ntimers 2\nat 10\narm 1 0 global 50 2 100\n\
              arm 0 1 pinned 50 3 7\nidle 1\nend 200\n",
            status: DONE,
            text: b"arm 10 1 0 global 61\narm 10 0 1 pinned 61\nidle 10 1 never\n\
              cover 10 1 61 migrator 0:0 0\nrun 61 0 1 0 61 mark 7\n\
              run 61 0 0 1 61 again pinned 168\nrun 168 0 0 0 168 again pinned 272\n\
              left 0 0 pinned 272\nend 200\n",
        },
        // hotplug
        Row {
            words: "play",
            input: b"tmig 1\nnodes 1\ncpus 2\ntimers 1\nat 10\noffline 1\nat 20\n\
              arm 1 0 global 5 0 0\noffline 1\nat 30\nonline 1\nend 40\n",
            status: DONE,
            text: b"offline 10 1\nrefused 20 1 8 3\nrefused 20 1 9 3\nonline 30 1\nend 40\n",
        },
        // last-online
        Row {
            words: "play",
            input: b"tmig 1\nnodes 1\ncpus 1\ntimers 1\nat 10\noffline 0\nend 20\n",
            status: DONE,
            text: b"refused 10 0 6 5\nend 20\n",
        },
        // refusals
        Row {
            words: "play",
            input: b"tmig 1\nnodes 1\ncpus 2\ntimers 2\nat 10\nwake 0\narm 0 0 global 50 0 0\n\
              arm 1 0 pinned 5 0 0\ncancel 1 1\nidle 1\nidle 1\narm 1 1 global 5 0 0\nonline 0\n\
              at 20\noffline 1\nend 30\n",
            status: DONE,
            text: b"refused 10 0 6 2\narm 10 0 0 global 61\nrefused 10 1 8 6 0\nnone 10 1 1\n\
              idle 10 1 never\nrefused 10 1 11 1\nrefused 10 1 12 1\nrefused 10 0 13 4\n\
              refused 20 1 15 1\nleft 0 0 global 61\nend 30\n",
        },
        // two-levels-a
        Row {
            words: "play",
            input: b"tmig 1\nnodes 1\ncpus 9\ntimers 1\nat 10\narm 8 0 global 50 0 0\nidle 8\n\
              at 20\nidle 0\nend 100\n",
            status: DONE,
            text: b"arm 10 8 0 global 61\nidle 10 8 never\ncover 10 8 61 migrator 1:0 0\n\
              idle 20 0 never\ncover 20 8 61 migrator 1:0 1\nrun 61 1 0 8 61 done\nend 100\n",
        },
        // refused-scripts-a
        Row {
            words: "play",
            input: b"",
            status: SCRIPT_REFUSED,
            text: b"script refused line 1 kind 5\n",
        },
        // refused-scripts-b3
        Row {
            words: "play",
            input: b"tmig 3\nnodes 1\ncpus 1\ntimers 1\nend 1\n",
            status: SCRIPT_REFUSED,
            text: b"script refused line 1 kind 1\n",
        },
        // refused-scripts-i
        Row {
            words: "play",
            input: b"tmig 1\nnodes 1\ncpus 1\ntimers 1\nat 10\narm 0 0 global 50 0 0\nend 100",
            status: SCRIPT_REFUSED,
            text: b"script refused line 7 kind 1\n",
        },
        // statuses-d
        Row {
            words: "play",
            input: b"tmig 1\nnodes 1\ncpus 1\ntimers 1\nat 10\narm 0 0 global 50 9 0\nend 100\n",
            status: JOB_UNKNOWN,
            text: b"job unknown line 6 job 9\n",
        },
        // work-spent
        Row {
            words: "play",
            input: b"tmig 1\nnodes 1\ncpus 1\ntimers 1\nend 1000001\n",
            status: WORK_SPENT,
            text: b"work spent 1000000\n",
        },
        // tree-texts-a
        Row {
            words: "tree",
            input: b"tmig 1\nnodes 1\ncpus 1\ntimers 1\nend 0\n",
            status: DONE,
            text: b"levels 0 groups 0\n",
        },
        // tree-texts-b
        Row {
            words: "tree",
            input: b"tmig 1\nnodes 1\ncpus 9\ntimers 1\nend 0\n",
            status: DONE,
            text: b"levels 2 groups 3\ngroup 0:0 parent 1:0 bit 0 children 8\n\
              group 0:1 parent 1:0 bit 1 children 1\ngroup 1:0 top children 2\n",
        },
        // words-table-b
        Row {
            words: "generate 1 65 1 1",
            input: b"",
            status: USAGE,
            text: b"usage: tmig play | run | tree | generate NUMBER CPUS TIMERS MOMENTS \
              | day NUMBER CPUS TIMERS MOMENTS | check | deep | works\n",
        },
        // words-table-d
        Row {
            words: "generate 01 1 1 1",
            input: b"",
            status: USAGE,
            text: b"usage: tmig play | run | tree | generate NUMBER CPUS TIMERS MOMENTS \
              | day NUMBER CPUS TIMERS MOMENTS | check | deep | works\n",
        },
        // words-table-f
        Row {
            words: "play play",
            input: b"",
            status: USAGE,
            text: b"usage: tmig play | run | tree | generate NUMBER CPUS TIMERS MOMENTS \
              | day NUMBER CPUS TIMERS MOMENTS | check | deep | works\n",
        },
        // statuses-b
        Row {
            words: "paly",
            input: b"",
            status: USAGE,
            text: b"usage: tmig play | run | tree | generate NUMBER CPUS TIMERS MOMENTS \
              | day NUMBER CPUS TIMERS MOMENTS | check | deep | works\n",
        },
    ]
}

/// The rows of traces, of plays under a broadcast device, and of scripts of works.
pub(crate) fn further_rows() -> [Row; 8] {
    [
        // check-held
        Row {
            words: "check",
            input: b"trace 1\nnodes 1\ncpus 2\ntimers 1\nisolated\nclock 10\n\
              arm 1 0 global 60 0 0 0\nidle 1\nwhy 1 0\nwalk 1\nwalk 1\nwalk 1\nwalk 1\nwalk 1\n\
              walk 1\nwalk 1\nwalk 1\nwhy 1 0\nend\n",
            status: DONE,
            text: b"why 3 1 0 carried 1\nwhy 11 1 0 held 0:0 0\nyes 11\n",
        },
        // check-no
        Row {
            words: "check",
            input: b"trace 1\nnodes 1\ncpus 2\ntimers 1\nisolated\nwake 0\nend\n",
            status: DONE,
            text: b"no 0\n",
        },
        // a first line of another version is a bad line, as in a script
        Row {
            words: "check",
            input: b"trace 2\nnodes 1\ncpus 2\ntimers 1\nisolated\nend\n",
            status: TRACE_REFUSED,
            text: b"trace refused line 1 kind 1\n",
        },
        // device
        Row {
            words: "deep",
            input: b"tmig 1\nnodes 1\ncpus 2\ntimers 1\nat 10\narm 1 0 global 50 0 0\nidle 1\n\
              at 20\nidle 0\nend 100\n",
            status: DONE,
            text: b"arm 10 1 0 global 61\nidle 10 1 never\ncover 10 1 61 migrator 0:0 0\n\
              idle 20 0 61\ncover 20 1 61 wake 0 61\ndevice 20 61\nrun 61 0 0 1 61 done\n\
              device 61 never\nend 100\n",
        },
        // device-for-nobody
        Row {
            words: "deep",
            input: b"tmig 1\nnodes 1\ncpus 1\ntimers 1\nat 10\narm 0 0 pinned 50 0 0\nidle 0\n\
              at 20\nwake 0\nend 100\n",
            status: DONE,
            text: b"arm 10 0 0 pinned 61\nidle 10 0 61\ndevice 10 61\nwake 20 0\n\
              run 61 0 0 0 61 done\ndevice 61 never\nend 100\n",
        },
        // works
        Row {
            words: "works",
            input: b"works 1\ncount 2\nat 10\nqueue 0 50 0 0\nqueue 0 5 0 0\nqueue 1 0 3 7\nat 20\n\
              cancel 0\ncancel 0\nend 100\n",
            status: DONE,
            text: b"queued 10 0 61\npending 10 0\nqueued 10 1 ready\nran 10 1 mark 7\n\
              cancelled 20 0\nnone 20 0\nend 100\n",
        },
        // works-again
        Row {
            words: "works",
            input: b"works 1\ncount 1\nat 10\nqueue 0 50 1 100\nend 200\n",
            status: DONE,
            text: b"queued 10 0 61\nran 61 0 again 168\nran 168 0 again 272\nleft 0 272\nend 200\n",
        },
        // a number of works past the limit, by the kinds of a script
        Row {
            words: "works",
            input: b"works 1\ncount 4097\nend 0\n",
            status: WORKS_REFUSED,
            text: b"works refused line 2 kind 3\n",
        },
    ]
}
