use std::test::Fail;
use trace_check::read_trace;
use trace_explain::*;

const HEAD: &[u8] = b"trace 1\nnodes 1\ncpus 2\ntimers 1\nisolated\n";

// By hand, from the stages of walks and the causes of steps: CPU 1 goes idle with a timer, and
// isn't awake again as it is to go idle once more.
#[test]
fn each_step_is_told_and_the_first_that_cannot_be_made_has_its_cause(
    rt: HostRuntime,
) -> Result<(), Fail> {
    let mut bytes = Vec::new(rt.alloc());
    bytes.extend_from_slice(HEAD)?;
    bytes.extend_from_slice(b"clock 10\narm 1 0 global 60 0 0 0\nwhy 1 0\nidle 1\nwhy 1 0\n")?;
    bytes.extend_from_slice(b"walk 1\nidle 1\nend\n")?;
    let mut want = Vec::new(rt.alloc());
    want.extend_from_slice(b"step 0: it is jiffy 10\n")?;
    want.extend_from_slice(b"step 1: CPU 1 arms timer 0 for jiffy 60, of class global\n")?;
    want.extend_from_slice(b"why: nobody has to answer for timer 0 of CPU 1\n")?;
    want.extend_from_slice(b"step 2: CPU 1 goes idle\n")?;
    want.extend_from_slice(b"  timer 0 of CPU 1: its CPU's own walk or interrupt carries it\n")?;
    want.extend_from_slice(b"why: timer 0 of CPU 1: its CPU's own walk or interrupt carries it\n")?;
    want.extend_from_slice(b"step 3: the walk of CPU 1 reads 0:0\n")?;
    want.extend_from_slice(b"  timer 0 of CPU 1: its CPU's own walk or interrupt carries it\n")?;
    want.extend_from_slice(b"step 4 can't be made: CPU 1 has a walk\n")?;
    match read_trace(rt.alloc(), &bytes) {
        Ok(trace) => {
            let told = explain(rt.alloc(), &trace)?;
            assert!(&rt; told.text.as_slice() == want.as_slice());
        },
        Err(_) => assert!(&rt; false),
    }
    Ok(())
}
