// The whole script, line by line.
ghost use Rattle.std.specs.Prelude.{◌≡◌, ◌≤◌, ◌+◌, ◌∷◌, [], List, map, length, take, IfOk};
ghost use Rattle.cq_script.specs.Words.{line_ends};
ghost use Rattle.cq_script.specs.Grammar.{Reads, script_of, take_line, take_lines, nothing_read, AtLine};
ghost use Rattle.cq_script.specs.Scripts.{ReadsScript, IsScript, KeepsLimits};
ghost use Rattle.cq_script.specs.Spelling.{ReadsSpelled};

use crate::lines::{is_printable, is_spaced, line_ends, script_lines, words};
use crate::reading::{LineError, Reading};
use crate::{Script, ScriptError, Streams, Why};
use cq_inbox::Config;
use std::alloc::{AllocError, Global};

/// How many bytes a script may have.
const MOST_BYTES: usize = 1_048_576;

/// Reads a script of at most 1,048,576 bytes. It is empty, or lines that end with LF, of which the last may lack it:
/// `client 0`; then lines `publish 0 text W`, where W has 1 to 64 bytes from 0x21 to 0x7e, at most 4096 of them, and
/// `get 0`, at most 64; then at most one line `schedule` with 1 to 10,000 of the words `c0`, `t0`, `w`, `!N` and
/// `!N/K:S`, at most 1000 of them with `!`. N and K are decimal numbers below 2^64 without a leading zero, and S is `t0`
/// or `w`. Single spaces separate words. `Bad` exactly where the bytes aren't of this form, with the first bad line.
pub fn read_script(alloc: Global, bytes: &[u8]) -> Result<Script, ScriptError>
    ensures exact { ReadsScript result (script_of bytes.now) }
    ensures limits { IfOk result KeepsLimits }
    ensures spelled { ReadsSpelled result bytes.now }
{
    script_from(alloc, bytes)
}

/// The same, as the form says it, which the limits and the spelling follow from.
fn script_from(alloc: Global, bytes: &[u8]) -> Result<Script, ScriptError>
    ensures { ReadsScript result (script_of bytes.now) }
{
    let reading = read(alloc, bytes)?;
    match finished(alloc, reading) {
        Ok(script) => Ok(script),
        Err(_) => Err(ScriptError::Memory),
    }
}

/// The script that all its lines make.
fn finished(alloc: Global, reading: Reading) -> Result<Script, AllocError>
    ensures { IfOk result (IsScript reading) }
{
    let mut streams = Vec::new(alloc);
    streams.push(reading.requests.into_vec())?;
    Ok(Script {
        config: Config::new(1, 4096, 4096, 16_777_216, 0).unwrap(),
        streams: Streams::from_vec(streams),
        steps: reading.steps,
        scheduled: reading.scheduled,
    })
}

/// Why a script of too many bytes is refused: in the line of the last byte that it may have.
fn too_long(bytes: &[u8]) -> ScriptError
    requires { 1048576 ≤ length bytes.now }
    ensures { result ≡ ScriptError.Bad (line_ends (take 1048576 bytes.now) + 1) Why.Long }
{
    let front = &bytes[..MOST_BYTES];
    ScriptError::Bad {
        line: line_ends(front) as u64 + 1,
        why: Why::Long,
    }
}

/// What the lines of a script say.
fn read(alloc: Global, bytes: &[u8]) -> Result<Reading, ScriptError>
    ensures { Reads result (script_of bytes.now) }
{
    if bytes.len() > MOST_BYTES {
        return Err(too_long(bytes));
    }
    match script_lines(alloc, bytes) {
        Ok(lines) => read_lines(alloc, &lines),
        Err(_) => Err(ScriptError::Memory),
    }
}

/// Reads one line after another, up to the first bad one.
fn read_lines(alloc: Global, lines: &[&[u8]]) -> Result<Reading, ScriptError>
    ensures { Reads result (take_lines 1 (Ok nothing_read) (map (λ l. l.now) lines.now)) }
{
    let mut reading = Reading::new(alloc);
    for (i, line) in lines.iter().enumerate() {
        if let Err(error) = read_line(alloc, &mut reading, i as u64 + 1, line) {
            return Err(error);
        }
    }
    Ok(reading)
}

/// Reads the line with this number.
fn read_line(
    alloc: Global,
    reading: &mut Reading,
    number: u64,
    line: &[u8],
) -> Result<(), ScriptError>
    ensures { AtLine result reading.new (take_line number line.now (Ok reading.old)) }
{
    let Ok(words) = words(alloc, line) else {
        return Err(ScriptError::Memory);
    };
    if !is_printable(line) || !is_spaced(&words) {
        return Err(ScriptError::Bad {
            line: number,
            why: Why::Word,
        });
    }
    match reading.take_words(alloc, number, &words) {
        Ok(()) => Ok(()),
        Err(LineError::Memory) => Err(ScriptError::Memory),
        Err(LineError::Bad(why)) => Err(ScriptError::Bad { line: number, why }),
    }
}
