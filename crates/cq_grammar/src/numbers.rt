// Numbers in words of a script.
ghost use Rattle.std.specs.Prelude.{◌≡◌, ◌==◌, ◌<◌, length, IfSome};
ghost use Rattle.std.specs.List.{list_all, position};
ghost use Rattle.std.specs.Option.{option_map};
ghost use Rattle.std.specs.Char.{is_ascii_digit};
ghost use Rattle.cq_grammar.specs.Words.{is_decimal, number_of, halves};

use std::str;

/// Whether a word is `0`, or decimal digits of which the first isn't 0.
fn is_decimal(word: &[u8]) -> bool
    ensures { result ≡ is_decimal word.now }
{
    let Some((first, rest)) = word.split_first() else {
        return false;
    };
    if *first == b'0' {
        rest.is_empty()
    } else {
        are_digits(word)
    }
}

/// Whether every byte of a word is a decimal digit.
fn are_digits(word: &[u8]) -> bool
    ensures { result ≡ list_all is_ascii_digit word.now }
{
    word.iter().all(|b| b.is_ascii_digit())
}

/// The number that a word spells in decimal digits, with no sign and no leading zero. `None` where it spells none, or one
/// that isn't below 2^64.
pub fn number_of(word: &[u8]) -> Option<u64>
    ensures { result ≡ number_of word.now }
{
    if !is_decimal(word) {
        return None;
    }
    let Ok(digits) = str::from_utf8(word) else {
        return None;
    };
    match digits.parse::<u64>() {
        Ok(number) => Some(number),
        Err(_) => None,
    }
}

/// What stands in a word before a byte and what stands after it, where the byte first stands there.
pub fn halves(word: &[u8], byte: u8) -> Option<(&[u8], &[u8])>
    ensures { option_map (λ parts. (parts.0.now, parts.1.now)) result ≡ halves byte word.now }
{
    let place = place_of(word, byte)?;
    Some((&word[..place], &word[place + 1..]))
}

/// Where a byte first stands in a word.
fn place_of(word: &[u8], byte: u8) -> Option<usize>
    ensures first { result ≡ position (λ b. b == byte) word.now }
    ensures within { IfSome result (λ place. place < length word.now) }
{
    word.iter().position(|b| *b == byte)
}
