// Texts that are written and read: of commands and of a journal.
use pq_types::{Item, Line, Operation, Reply, Request};
use queue_texts::{LineError, NumberedLine, append_line, read_command, read_line, write_journal};

const PUSH: Request = Request::Push(Item {
    priority: 5,
    value: 1,
});

#[test]
fn commands_are_read(rt: HostRuntime) {
    assert!(rt; read_command::<u32>(b"push 5 1") == Ok(PUSH));
    assert!(rt; read_command::<u32>(b"pop") == Ok(Request::Pop));
    assert!(rt; read_command::<u32>(b"least") == Ok(Request::Least));
}

#[test]
fn a_journal_is_written_and_read_back(rt: HostRuntime) {
    let line: Line = Line {
        serial: 2,
        operation: Operation::asked(PUSH),
        reply: Reply::Pushed,
        place: 3,
    };
    let read = NumberedLine { number: 1, line };
    let mut text = Vec::new(rt.alloc());
    append_line(1, &line, &mut text).expect(&rt, "there is memory");
    write_journal(&[line], &mut text).expect(&rt, "there is memory");
    assert!(rt; text.as_slice() == b"1 3 2 push 5 1 pushed\n1 3 2 push 5 1 pushed\n".as_slice());
    assert!(rt; read_line::<u32>(b"1 3 2 push 5 1 pushed") == Ok(read));
}

#[test]
fn a_wide_line_is_written_and_read_back_as_a_wide_one(rt: HostRuntime) {
    let line: Line<u64> = Line {
        serial: 72_057_594_037_927_936,
        operation: Operation::asked(Request::Push(Item {
            priority: 18_446_744_073_709_551_615,
            value: 4_294_967_296,
        })),
        reply: Reply::Pushed,
        place: 65_535,
    };
    let read = NumberedLine { number: 7, line };
    const TEXT: &[u8] = b"7 65535 72057594037927936 push 18446744073709551615 4294967296 pushed";
    let mut text = Vec::new(rt.alloc());
    append_line(7, &line, &mut text).expect(&rt, "there is memory");
    assert!(rt; text.as_slice().split_last() == Some((&b'\n', TEXT)));
    assert!(rt; read_line::<u64>(TEXT) == Ok(read));
    assert!(rt; read_line::<u32>(TEXT) == Err(LineError::OutOfRange));
}

#[test]
fn a_removal_is_written_and_read_back(rt: HostRuntime) {
    let line: Line = Line {
        serial: 5,
        operation: Operation::remove(7),
        reply: Reply::Got(Item {
            priority: 3,
            value: 1,
        }),
        place: 0,
    };
    let read = NumberedLine { number: 9, line };
    let mut text = Vec::new(rt.alloc());
    append_line(9, &line, &mut text).expect(&rt, "there is memory");
    assert!(rt; text.as_slice() == b"9 0 5 remove 7 got 3 1\n".as_slice());
    assert!(rt; read_line::<u32>(b"9 0 5 remove 7 got 3 1") == Ok(read));
    assert!(rt; read_line::<u32>(b"9 0 5 remove 7 pushed") == Err(LineError::NoSuchReply));
    assert!(rt;
        read_line::<u32>(b"9 0 5 remove 18446744073709551616 empty") == Err(LineError::OutOfRange)
    );
    assert!(rt; read_line::<u32>(b"9 0 5 remove  7 empty") == Err(LineError::UnknownWord));
}

#[test]
fn a_move_is_written_and_read_back(rt: HostRuntime) {
    let line: Line = Line {
        serial: 5,
        operation: Operation::reschedule(7, 9),
        reply: Reply::Got(Item {
            priority: 3,
            value: 1,
        }),
        place: 0,
    };
    let read = NumberedLine { number: 9, line };
    let mut text = Vec::new(rt.alloc());
    append_line(9, &line, &mut text).expect(&rt, "there is memory");
    assert!(rt; text.as_slice() == b"9 0 5 move 7 9 got 3 1\n".as_slice());
    assert!(rt; read_line::<u32>(b"9 0 5 move 7 9 got 3 1") == Ok(read));
    assert!(rt; read_line::<u32>(b"9 0 5 move 7 9 pushed") == Err(LineError::NoSuchReply));
    assert!(rt; read_line::<u32>(b"9 0 5 move 7 4294967296 empty") == Err(LineError::OutOfRange));
    assert!(rt; read_line::<u64>(b"9 0 5 move 7 4294967296 empty").is_ok());
    assert!(rt;
        read_line::<u64>(b"9 0 5 move 18446744073709551616 9 empty") == Err(LineError::OutOfRange)
    );
    assert!(rt; read_line::<u32>(b"9 0 5 move 7 empty") == Err(LineError::UnknownWord));
    assert!(rt; read_line::<u32>(b"9 0 5 move 7  9 empty") == Err(LineError::UnknownWord));
}

#[test]
fn a_shut_is_written_and_read_back(rt: HostRuntime) {
    let line: Line = Line {
        serial: 5,
        operation: Operation::shut(),
        reply: Reply::Empty,
        place: 3,
    };
    let read = NumberedLine { number: 12, line };
    let mut text = Vec::new(rt.alloc());
    append_line(12, &line, &mut text).expect(&rt, "there is memory");
    assert!(rt; text.as_slice() == b"12 3 5 shut\n".as_slice());
    assert!(rt; read_line::<u32>(b"12 3 5 shut") == Ok(read));
    assert!(rt; read_line::<u32>(b"12 3 5 shut empty") == Err(LineError::UnknownWord));
    assert!(rt; read_line::<u32>(b"12 3 5 shut ") == Err(LineError::UnknownWord));
    assert!(rt; read_line::<u32>(b"12 65536 5 shut") == Err(LineError::OutOfRange));
}

// The longest line that can be written has 134 bytes, and a line feed.
#[test]
fn the_longest_line_fits(rt: HostRuntime) {
    let greatest = 18_446_744_073_709_551_615;
    let line: Line<u64> = Line {
        serial: 72_057_594_037_927_936,
        operation: Operation::reschedule(greatest, greatest),
        reply: Reply::Got(Item {
            priority: greatest,
            value: greatest,
        }),
        place: 65_535,
    };
    let mut text = Vec::new(rt.alloc());
    append_line(72_057_594_037_927_936, &line, &mut text).expect(&rt, "there is memory");
    assert!(rt; text.len() == 135);
}
