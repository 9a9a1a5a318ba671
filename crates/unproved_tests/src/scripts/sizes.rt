// Machines and walks of each number of comers, and a script of more reads than any other test has: no clause
// says that these have memory enough, or that a run which counts its reads ends by no fault.
use line_script::RunError;
use queue_texts::{Refusal, ScanKind, run_walk};
use split_core::ids::IdError;
use split_core::machine::Machine;
use std::alloc::Global;
use std::io::Write;
use test_aids::SlowReader;

#[test]
fn a_machine_of_each_number_of_comers_is_opened(rt: HostRuntime) {
    let mut ids = Vec::new(rt.alloc());
    for id in 1..=64u64 {
        ids.push(id).expect(&rt, "there is memory");
        let made = Machine::new(rt.alloc(), ids.as_slice());
        assert!(rt; made.is_ok(), "{id} comers");
    }
}

// Whether a walk of this script ends well.
fn walks(alloc: Global, mut script: &[u8]) -> bool {
    run_walk(
        alloc,
        &mut script,
        &mut Vec::new(alloc),
        ScanKind::Diagonals,
    ) == Ok(())
}

#[test]
fn a_walk_of_each_number_of_comers_makes_its_step(rt: HostRuntime) {
    let mut script = Vec::new(rt.alloc());
    for id in 1..=64u64 {
        writeln!(script, "comer {id}").expect(&rt, "there is memory");
        let end = script.len();
        writeln!(script, "step {id}").expect(&rt, "there is memory");
        assert!(rt; walks(rt.alloc(), script.as_slice()), "{id} comers");
        script.truncate(end);
    }
}

#[test]
fn two_million_reads_are_no_fault(rt: HostRuntime) {
    let script = vec![in rt.alloc(); b'\n'; 2_000_000].expect(&rt, "there is memory");
    let mut reader = SlowReader::new(script.as_slice(), 1);
    let mut written = Vec::new(rt.alloc());
    let ended = run_walk(rt.alloc(), &mut reader, &mut written, ScanKind::Diagonals);
    let no_comers = Refusal::Comers(IdError::NoComers);
    assert!(rt; ended == Err(RunError::Refused(no_comers)) && reader.reads() == 2_000_001);
}
