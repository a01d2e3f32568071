// The lines of a script and the words of a line.
ghost use Rattle.std.specs.Prelude.{◌≡◌, ◌==◌, ◌<◌, ◌≤◌, ◌+◌, ◌^◌, map, length, IfOk};
ghost use Rattle.std.specs.List.{slice_split, list_all, count_by};
ghost use Rattle.cq_grammar.specs.Words.{without_last_newline, script_lines, words, is_printable, is_spaced, line_ends};

use std::alloc::{AllocError, Global};

/// A text without the LF at its end, if it has one.
fn without_last_newline(bytes: &[u8]) -> &[u8]
    ensures { result.now ≡ without_last_newline bytes.now }
{
    match bytes {
        [front @ .., b'\n'] => front,
        _ => bytes,
    }
}

/// The lines of a script.
pub fn script_lines(alloc: Global, bytes: &[u8]) -> Result<Vec<&[u8]>, AllocError>
    ensures { IfOk result (λ v. map (λ line. line.now) v.items ≡ script_lines bytes.now) }
{
    if bytes.is_empty() {
        return Ok(Vec::new(alloc));
    }
    cut(alloc, without_last_newline(bytes), b'\n')
}

/// The words of a line.
pub fn words(alloc: Global, line: &[u8]) -> Result<Vec<&[u8]>, AllocError>
    ensures { IfOk result (λ v. map (λ word. word.now) v.items ≡ words line.now) }
{
    cut(alloc, line, b' ')
}

/// What stands between commas.
pub fn pieces(alloc: Global, word: &[u8]) -> Result<Vec<&[u8]>, AllocError>
    ensures { IfOk result (λ v. map (λ piece. piece.now) v.items ≡ slice_split (λ b. b == 44) word.now) }
{
    cut(alloc, word, b',')
}

/// The parts round a separator.
fn cut(alloc: Global, text: &[u8], separator: u8) -> Result<Vec<&[u8]>, AllocError>
    ensures { IfOk result (λ v. map (λ part. part.now) v.items ≡ slice_split (λ b. b == separator) text.now) }
{
    text.split(|b| *b == separator).collect(alloc)
}

/// How many LFs stand in a text.
pub fn line_ends(bytes: &[u8]) -> usize
    ensures same { result ≡ line_ends bytes.now }
    ensures few { result ≤ length bytes.now }
{
    bytes.iter().filter(|b| **b == b'\n').count()
}

/// Whether every byte of a line is from 0x20 to 0x7e.
pub fn is_printable(line: &[u8]) -> bool
    ensures { result ≡ list_all is_printable line.now }
{
    line.iter().all(|b| is_printable_byte(*b))
}

/// Whether a byte is from 0x20 to 0x7e.
fn is_printable_byte(byte: u8) -> bool
    ensures { result ≡ is_printable byte }
{
    32 <= byte && byte <= 126
}

/// Whether no word is empty, so that single spaces separate the words of a line.
pub fn is_spaced(words: &[&[u8]]) -> bool
    ensures { result ≡ is_spaced (map (λ w. w.now) words.now) }
{
    words.iter().all(|word| !word.is_empty())
}
