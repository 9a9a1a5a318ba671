// A text of rows, each of which names a number.
ghost use Rattle.std.specs.Prelude.{◌≡◌, ◌≤◌, ◌+◌, ◌++◌, length};
ghost use Rattle.byte_writer.specs.Rows.{row};

use arrayvec::ArrayVec;
use itoa::Buffer;

/// Room for a text of rows, in bytes: enough for eight of them with short names.
pub const ROWS_ROOM: usize = 288;

/// A text of rows, kept on the stack.
pub type Rows = ArrayVec<u8, ROWS_ROOM>;

/// Puts the bytes behind the text so far.
pub fn append(text: &mut Rows, bytes: &[u8])
    requires { length text.old.items + length bytes.now ≤ ROWS_ROOM }
    ensures { text.new.items ≡ text.old.items ++ bytes.now }
{
    text.try_extend_from_slice(bytes).unwrap();
}

/// Puts a row behind the text so far: a name, a space and a number.
pub fn append_row(text: &mut Rows, name: &[u8], number: u64)
    requires { length text.old.items + length name.now + 22 ≤ ROWS_ROOM }
    ensures text { text.new.items ≡ text.old.items ++ row name.now number }
    ensures room { length text.new.items ≤ length text.old.items + length name.now + 22 }
{
    append(text, name);
    append(text, b" ");
    append(text, Buffer::new().format(number).as_bytes());
    append(text, b"\n");
}

/// The same for a number that may be larger.
pub fn append_sum(text: &mut Rows, name: &[u8], sum: u128)
    requires { length text.old.items + length name.now + 42 ≤ ROWS_ROOM }
    ensures text { text.new.items ≡ text.old.items ++ row name.now sum }
    ensures room { length text.new.items ≤ length text.old.items + length name.now + 42 }
{
    append(text, name);
    append(text, b" ");
    append(text, Buffer::new().format(sum).as_bytes());
    append(text, b"\n");
}
