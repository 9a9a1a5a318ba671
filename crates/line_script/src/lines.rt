// The lines of a script: how long they may be, what ends them, and what a line loses at its end.
ghost use Rattle.std.specs.Prelude.{◌≡◌};
ghost use Rattle.line_script.specs.Lines.{without_return};

/// The longest line of a script of commands, without its line feed.
pub const LONGEST_LINE: usize = 80;

/// The longest line that any player takes, without its line feed.
pub const LINE_ROOM: usize = 160;

/// The most bytes that are read at once.
pub const BUFFER: usize = 4096;

/// The byte that ends a line.
pub const LINE_FEED: u8 = b'\n';

/// The byte that a line loses at its end.
pub const CARRIAGE_RETURN: u8 = b'\r';

/// The line without one carriage return at its end.
pub fn without_return(line: &[u8]) -> &[u8]
    ensures { result.now ≡ without_return line.now }
{
    let Some((last, text)) = line.split_last() else {
        return line;
    };
    if *last == CARRIAGE_RETURN { text } else { line }
}
