// The whole script, line by line.
ghost use Rattle.std.specs.Prelude.{◌≡◌, ◌≤◌, ◌+◌, map, length, take, IfOk};
ghost use Rattle.cq_inbox.specs.Config.{IsInRange};
ghost use Rattle.cq_grammar.specs.Words.{line_ends};
ghost use Rattle.cq_grammar.specs.Grammar.{clients_in, segment_in, threshold_in, limit_in, is_passed_over, ReadsLines, script_of, read_line, read_lines, nothing_read, at_line, AtLine};
ghost use Rattle.cq_grammar.specs.Scripts.{ReadsScript, IsScript, KeepsLimits};
ghost use Rattle.cq_grammar.specs.Spelling.{ReadsSpelled};

use crate::error::LineError;
use crate::lines::{is_printable, is_spaced, line_ends, script_lines, words};
use crate::reading::Reading;
use crate::{Script, ScriptError, Why};
use cq_inbox::Config;
use std::alloc::Global;

/// How many bytes a script may have.
const MOST_BYTES: usize = 67_108_864;

/// Reads a script: what each client asks, the numbers of the node, and the steps in which all is served. It has at most
/// 67,108,864 bytes, in lines that end with LF, of which the last may lack it. `Bad` exactly where the bytes aren't of
/// this form, with the first bad line and why it is bad; its checks are made in the order in which they stand here.
///
/// Empty lines and lines that begin with `#` say nothing. In other lines every byte is from 0x20 to 0x7e and single
/// spaces separate words. A number is decimal, without a leading zero, and below 2^64.
///
/// `clients N`, `queues N`, `segment N`, `threshold N` and `file N` stand before the first `client` and `schedule`, each
/// at most once, with N in its range. `client N` says whose requests follow. Requests are `publish Q,Q BODY`, `get Q`,
/// `ack D` and `end`, at most 100,000 of a client. A body is `empty`, `text W`, `hex H`, or `fill L B`, which is L bytes
/// of the value B; it is shorter than the threshold, and all of them, counted once for each queue, have at most
/// 268,435,456 bytes.
///
/// `schedule S S` adds steps, at most 1,000,000 in all: `cK`, `tK`, `w` and `m`, each of which may be followed by `*R`
/// with R from 1 to 1,000,000, and at most 1000 of `!N` and `!N/K:S`, where S is `tK`, `w` or `m`.
pub fn read_script(alloc: Global, bytes: &[u8]) -> Result<Script, ScriptError>
    ensures exact { ReadsScript result (script_of bytes.now) }
    ensures limits { IfOk result KeepsLimits }
    ensures spelled { ReadsSpelled result bytes.now }
{
    script_from(alloc, bytes)
}

/// The script that the bytes say.
fn script_from(alloc: Global, bytes: &[u8]) -> Result<Script, ScriptError>
    ensures { ReadsScript result (script_of bytes.now) }
{
    let reading = read(alloc, bytes)?;
    Ok(finished(reading))
}

/// The script that all its lines make.
fn finished(reading: Reading) -> Script
    requires { IsInRange (clients_in reading.settings) (segment_in reading.settings) (threshold_in reading.settings)
        (limit_in reading.settings) }
    ensures { IsScript reading result }
{
    let settings = reading.settings;
    let config = Config::new(
        settings.clients(),
        settings.segment(),
        settings.threshold(),
        settings.limit() as u64,
        0,
    );
    Script {
        config: config.unwrap(),
        streams: reading.streams.into_streams(settings.clients()),
        steps: reading.steps.into_steps(),
        scheduled: reading.scheduled,
    }
}

/// Why a script of too many bytes is refused: in the line of the last byte that it may have.
fn too_long(bytes: &[u8]) -> ScriptError
    requires { 67108864 ≤ length bytes.now }
    ensures { result ≡ ScriptError.Bad (line_ends (take 67108864 bytes.now) + 1) Why.Long }
{
    let front = &bytes[..MOST_BYTES];
    ScriptError::Bad {
        line: line_ends(front) as u64 + 1,
        why: Why::Long,
    }
}

/// What all lines say.
fn read(alloc: Global, bytes: &[u8]) -> Result<Reading, ScriptError>
    ensures { ReadsLines result (script_of bytes.now) }
{
    if bytes.len() > MOST_BYTES {
        return Err(too_long(bytes));
    }
    match script_lines(alloc, bytes) {
        Ok(lines) => read_lines(alloc, &lines),
        Err(_) => Err(ScriptError::Memory),
    }
}

/// What lines say, up to the first bad one.
fn read_lines(alloc: Global, lines: &[&[u8]]) -> Result<Reading, ScriptError>
    ensures { ReadsLines result (read_lines 1 nothing_read (map (λ l. l.now) lines.now)) }
{
    let Ok(mut reading) = Reading::new(alloc) else {
        return Err(ScriptError::Memory);
    };
    for (i, line) in lines.iter().enumerate() {
        if let Err(error) = read_line(alloc, &mut reading, i as u64 + 1, line) {
            return Err(error);
        }
    }
    Ok(reading)
}

/// Whether a line says nothing.
fn is_passed_over(line: &[u8]) -> bool
    ensures { result ≡ is_passed_over line.now }
{
    match line {
        [] | [b'#', ..] => true,
        _ => false,
    }
}

/// Reads the line with this number.
fn read_line(
    alloc: Global,
    reading: &mut Reading,
    number: u64,
    line: &[u8],
) -> Result<(), ScriptError>
    ensures { AtLine result reading.new (at_line number (read_line number reading.old line.now)) }
{
    if is_passed_over(line) {
        return Ok(());
    }
    let Ok(words) = words(alloc, line) else {
        return Err(ScriptError::Memory);
    };
    if !is_printable(line) || !is_spaced(&words) {
        return Err(ScriptError::Bad {
            line: number,
            why: Why::Word,
        });
    }
    match reading.take_words(alloc, number, &words) {
        Ok(()) => Ok(()),
        Err(LineError::Memory) => Err(ScriptError::Memory),
        Err(LineError::Bad(why)) => Err(ScriptError::Bad { line: number, why }),
    }
}
