// A run over a script: bytes in through a buffer of fixed size, lines to a player, texts out.
ghost use Rattle.std.specs.Prelude.{◌≡◌, ℕ, ◌≤◌, List, [], ◌∷◌, ◌++◌, length, Some, OnOk, IfErr};
ghost use Rattle.std.specs.Io.KnownBytes.{Appends};
ghost use Rattle.line_script.specs.Script.{PlaysLine, StopsLine, Writes, WritesAs};
ghost use Rattle.line_script.specs.Run.{PlaysOn, StopsWithin, PlaysLastLine, PlaysToEnd, StopsAtEnd};

use crate::error::RunError;
use crate::lines::{BUFFER, LINE_FEED, LINE_ROOM, without_return};
use crate::player::Player;
use arrayvec::ArrayVec;
use byte_writer::write_bytes;
use std::alloc::Allocator;
use std::io::{Read, Write};

/// A run under way: its player, the line under way, and how many lines came before it.
#[derive(Drop)]
struct Run<P> {
    player: P,
    line: ArrayVec<u8, LINE_ROOM>,
    count: u64,
}

// Plays a line of the script, unless it is empty.
fn play_line<P: Player, A: Allocator>(
    player: &mut P,
    number: u64,
    line: &[u8],
    out: &mut Vec<u8, A>,
) -> Result<(), RunError<P::Refusal>>
    ensures ok { length line.now ≤ P.kind.longest → OnOk result ((text : List ℕ)
        × PlaysLine P.kind player.old line.now text player.new × (out.new.items ≡ out.old.items ++ text)) }
    ensures err { length line.now ≤ P.kind.longest
        → IfErr result (λ e. StopsLine P.kind player.old number line.now e out.old.items out.new.items) }
{
    let text = without_return(line);
    if text.is_empty() {
        return Ok(());
    }
    player.play(number, text, out)
}

// Ends the line under way, and begins the next.
fn end_line<P: Player, A: Allocator>(
    run: &mut Run<P>,
    out: &mut Vec<u8, A>,
) -> Result<(), RunError<P::Refusal>>
    ensures ok { OnOk result (PlaysOn P.kind run.old (LINE_FEED ∷ []) run.new (Some out.old.items) (Some out.new.items)) }
    ensures err { IfErr result (λ e. StopsWithin P.kind run.old (LINE_FEED ∷ []) e (Some out.old.items) (Some out.new.items)) }
{
    let number = run.count.saturating_add(1);
    if let Err(error) = play_line(&mut run.player, number, run.line.as_slice(), out) {
        return Err(error);
    }
    run.line.clear();
    run.count = number;
    Ok(())
}

// Takes the next byte of the script.
fn take_byte<P: Player, A: Allocator>(
    run: &mut Run<P>,
    byte: u8,
    out: &mut Vec<u8, A>,
) -> Result<(), RunError<P::Refusal>>
    ensures ok { OnOk result (PlaysOn P.kind run.old (byte ∷ []) run.new (Some out.old.items) (Some out.new.items)) }
    ensures err { IfErr result (λ e. StopsWithin P.kind run.old (byte ∷ []) e (Some out.old.items) (Some out.new.items)) }
{
    if byte == LINE_FEED {
        return end_line(run, out);
    }
    if run.line.len() >= P::longest() {
        return Err(RunError::TooLong {
            line: run.count.saturating_add(1),
        });
    }
    run.line.push(byte);
    Ok(())
}

// Takes the next bytes of the script.
fn take_bytes<P: Player, A: Allocator>(
    run: &mut Run<P>,
    bytes: &[u8],
    out: &mut Vec<u8, A>,
) -> Result<(), RunError<P::Refusal>>
    ensures ok { OnOk result (PlaysOn P.kind run.old bytes.now run.new (Some out.old.items) (Some out.new.items)) }
    ensures err { IfErr result (λ e. StopsWithin P.kind run.old bytes.now e (Some out.old.items) (Some out.new.items)) }
{
    for byte in bytes {
        if let Err(error) = take_byte(run, *byte, out) {
            return Err(error);
        }
    }
    Ok(())
}

// Plays a last line that has no line feed.
fn end_last_line<P: Player, A: Allocator>(
    run: &mut Run<P>,
    out: &mut Vec<u8, A>,
) -> Result<(), RunError<P::Refusal>>
    ensures ok { OnOk result (PlaysLastLine P.kind run.old run.new (Some out.old.items) (Some out.new.items)) }
    ensures err { IfErr result (λ e. StopsAtEnd P.kind run.old e (Some out.old.items) (Some out.new.items)) }
{
    if run.line.is_empty() {
        return Ok(());
    }
    let number = run.count.saturating_add(1);
    if let Err(error) = play_line(&mut run.player, number, run.line.as_slice(), out) {
        return Err(error);
    }
    Ok(())
}

// Plays the end of the script.
fn finish<P: Player, A: Allocator>(
    run: &mut Run<P>,
    out: &mut Vec<u8, A>,
) -> Result<(), RunError<P::Refusal>>
    ensures ok { OnOk result (PlaysToEnd P.kind run.old run.new (Some out.old.items) (Some out.new.items)) }
    ensures err { IfErr result (λ e. StopsAtEnd P.kind run.old e (Some out.old.items) (Some out.new.items)) }
{
    if let Err(error) = end_last_line(run, out) {
        return Err(error);
    }
    if let Err(error) = run.player.end() {
        return Err(error);
    }
    Ok(())
}

// Plays the next bytes of the script, and writes what they say.
fn answer_bytes<P: Player, A: Allocator, W: Write>(
    run: &mut Run<P>,
    bytes: &[u8],
    out: &mut Vec<u8, A>,
    writer: &mut W,
) -> Result<(), RunError<P::Refusal>>
    requires { out.old.items ≡ [] }
    ensures cleared { OnOk result (out.new.items ≡ []) }
    ensures ok { OnOk result (PlaysOn P.kind run.old bytes.now run.new (W.contents writer.old) (W.contents writer.new)) }
    ensures err { IfErr result (λ e. StopsWithin P.kind run.old bytes.now e (W.contents writer.old) (W.contents writer.new)) }
{
    let played = take_bytes(run, bytes, out);
    if write_bytes(writer, out.as_slice()).is_err() {
        return Err(RunError::Output);
    }
    if let Err(error) = played {
        return Err(error);
    }
    out.clear();
    Ok(())
}

// Plays the end of the script, and writes what it says.
fn answer_end<P: Player, A: Allocator, W: Write>(
    run: &mut Run<P>,
    out: &mut Vec<u8, A>,
    writer: &mut W,
) -> Result<(), RunError<P::Refusal>>
    requires { out.old.items ≡ [] }
    ensures ok { OnOk result (PlaysToEnd P.kind run.old run.new (W.contents writer.old) (W.contents writer.new)) }
    ensures err { IfErr result (λ e. StopsAtEnd P.kind run.old e (W.contents writer.old) (W.contents writer.new)) }
{
    let played = finish(run, out);
    if write_bytes(writer, out.as_slice()).is_err() {
        return Err(RunError::Output);
    }
    if let Err(error) = played {
        return Err(error);
    }
    Ok(())
}

/// Plays a whole script, and hands the player back. After each read it plays all whole lines that
/// it has and writes their texts in one piece, before it reads on.
///
/// - `Ok`: the input is at its end, and the texts of all its lines are written.
/// - `Refused` and `TooLong`: the texts of the lines before the refused one are written.
/// - `NoMemory` and `Output`: a beginning of the text is written.
/// - `Input`: the texts of all whole lines that were read are written. More than `u64::MAX` reads
///   are a fault of a read too.
///
/// After an error the reader has given at most `BUFFER` bytes behind those that were accepted.
pub fn play_script<P: Player, A: Allocator, R: Read, W: Write>(
    alloc: A,
    player: P,
    reader: &mut R,
    writer: &mut W,
) -> Result<P, RunError<P::Refusal>>
    ensures { (input : List ℕ) → R.remaining reader.old ≡ Some input
        → (text : List ℕ) × Appends (W.contents writer.old) (W.contents writer.new) text
        × WritesAs P.kind player input (R.remaining reader.new) result text }
{
    let mut buffer = [0; BUFFER];
    let mut out = Vec::new(alloc);
    let mut run = Run {
        player,
        line: ArrayVec::new(),
        count: 0,
    };
    for turn in 0..u64::MAX {
        let Ok(count) = reader.read(&mut buffer) else {
            return Err(RunError::Input);
        };
        if count == 0 {
            if let Err(error) = answer_end(&mut run, &mut out, writer) {
                return Err(error);
            }
            let Run {
                player,
                line: _,
                count: _,
            } = run;
            return Ok(player);
        }
        if let Err(error) = answer_bytes(&mut run, &buffer[..count], &mut out, writer) {
            return Err(error);
        }
    }
    Err(RunError::Input)
}

/// Plays a whole script, as `play_script`, and lets the player go.
pub fn run_script<P: Player, A: Allocator, R: Read, W: Write>(
    alloc: A,
    player: P,
    reader: &mut R,
    writer: &mut W,
) -> Result<(), RunError<P::Refusal>>
    ensures { (input : List ℕ) → R.remaining reader.old ≡ Some input
        → (text : List ℕ) × Appends (W.contents writer.old) (W.contents writer.new) text
        × Writes P.kind player input (R.remaining reader.new) result text }
{
    if let Err(error) = play_script(alloc, player, reader, writer) {
        return Err(error);
    }
    Ok(())
}
