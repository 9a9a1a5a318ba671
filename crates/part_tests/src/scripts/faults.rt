// A read or a write of `seq` or `walk` fails once, and would then go on: the run ends there.
use leftist_heap::StoreKind;
use line_script::RunError;
use queue_texts::{Refusal, ScanKind, run_seq, run_walk};
use std::alloc::Global;
use std::io;
use std::io::{Read, Write};
use test_aids::{Fault, SlowReader, SlowWriter};

// A script of `walk` or of `seq`, and all that is written.
struct Script {
    is_walk: bool,
    input: &'static [u8],
    text: &'static [u8],
}

const SEQ: Script = Script {
    is_walk: false,
    input: b"push 5\npush 3\npush 5\npop\npop\npop\npop\n",
    text: b"1 pushed\n2 pushed\n3 pushed\n4 got 3 0\n5 got 5 0\n6 got 5 0\n7 empty\n",
};

const WALK: Script = Script {
    is_walk: true,
    input: b"comer 7\nstep 7\nstep 7\n",
    text: b"7 writes 0\n7 sees open 0\n",
};

// Runs the script.
fn run<R: Read, W: Write>(
    alloc: Global,
    script: &Script,
    reader: &mut R,
    writer: &mut W,
) -> Result<(), RunError<Refusal>> {
    if script.is_walk {
        return run_walk(alloc, reader, writer, ScanKind::Diagonals);
    }
    match run_seq::<u32, _, _, _>(alloc, reader, writer, 8, StoreKind::Leftist) {
        Ok(_) => Ok(()),
        Err(error) => Err(error),
    }
}

// Of a script whose reads give one byte each, a fault of which reads leaves how many bytes of its text.
type Left = (Script, u32, u32, usize);

const LEFT: [Left; 11] = [
    (SEQ, 1, 7, 0),
    (SEQ, 8, 14, 9),
    (SEQ, 15, 21, 18),
    (SEQ, 22, 25, 27),
    (SEQ, 26, 29, 37),
    (SEQ, 30, 33, 47),
    (SEQ, 34, 37, 57),
    (SEQ, 38, 38, 65),
    (WALK, 1, 15, 0),
    (WALK, 16, 22, 11),
    (WALK, 23, 23, 25),
];

// Whether a run ends at this fault of the read with this number, tries none again, and leaves so many bytes
// of its text.
fn ends_at_read(
    alloc: Global,
    script: &Script,
    number: u32,
    kind: io::ErrorKind,
    left: usize,
) -> bool {
    let mut reader = SlowReader::failing(script.input, 1, number, kind);
    let mut written = Vec::new(alloc);
    let ended = run(alloc, script, &mut reader, &mut written);
    ended == Err(RunError::Input)
        && reader.reads() == number
        && written.len() == left
        && script.text.starts_with(written.as_slice())
}

#[test]
fn a_fault_of_a_read_leaves_the_texts_of_the_whole_lines(rt: HostRuntime) {
    for (script, first, last, left) in &LEFT {
        for number in *first..=*last {
            for &kind in &[io::ErrorKind::Other, io::ErrorKind::Interrupted] {
                let is_end = ends_at_read(rt.alloc(), script, number, kind, *left);
                assert!(rt; is_end, "read {number}");
            }
        }
    }
}

// Whether a run that reads so many bytes at a time ends at this fault of a write behind so many of one byte,
// tries none again, and leaves their bytes.
fn ends_behind(alloc: Global, script: &Script, step: usize, taken: u32, fault: Fault) -> bool {
    let mut reader = SlowReader::new(script.input, step);
    let mut writer = SlowWriter::failing(alloc, 1, taken.saturating_add(1), fault);
    let ended = run(alloc, script, &mut reader, &mut writer);
    ended == Err(RunError::Output)
        && writer.writes() == taken.saturating_add(1)
        && writer.bytes().len() == taken as usize
        && script.text.starts_with(writer.bytes())
}

// Whether all that a script writes is written by one write where one read gives it whole; and nothing by none,
// at its end.
fn is_written_at_once(alloc: Global, script: &Script) -> bool {
    let mut reader = SlowReader::new(script.input, 4096);
    let mut writer = SlowWriter::failing(alloc, 4096, 0, Fault::TakesNothing);
    let ended = run(alloc, script, &mut reader, &mut writer);
    ended == Ok(()) && writer.writes() == 1 && writer.bytes() == script.text
}

#[test]
fn a_fault_of_a_write_leaves_the_bytes_before_it(rt: HostRuntime) {
    const FAULTS: [Fault; 3] = [
        Fault::Error(io::ErrorKind::Other),
        Fault::Error(io::ErrorKind::Interrupted),
        Fault::TakesNothing,
    ];
    for script in &[SEQ, WALK] {
        assert!(rt; is_written_at_once(rt.alloc(), script));
        for &fault in &FAULTS {
            for taken in 0..script.text.len() as u32 {
                let is_end = ends_behind(rt.alloc(), script, 1, taken, fault)
                    && ends_behind(rt.alloc(), script, 4096, taken, fault);
                assert!(rt; is_end, "behind {taken} writes");
            }
        }
    }
}
