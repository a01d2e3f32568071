// Short texts.
ghost use Rattle.std.specs.Prelude.{◌≡◌};
ghost use Rattle.std.specs.List.{list_all};
ghost use Rattle.cq_bytes.specs.Texts.{is_text, is_visible};

/// How many bytes a text may have.
const MOST_TEXT: usize = 64;

/// Whether the bytes are a text that is shown as it is: 1 to 64 bytes from 0x21 to 0x7e.
pub fn is_text(bytes: &[u8]) -> bool
    ensures { result ≡ is_text bytes.now }
{
    if bytes.is_empty() || bytes.len() > MOST_TEXT {
        return false;
    }
    all_visible(bytes)
}

/// Whether each byte is a visible one.
fn all_visible(bytes: &[u8]) -> bool
    ensures { result ≡ list_all is_visible bytes.now }
{
    bytes.iter().all(|b| is_visible(*b))
}

/// Whether a byte is from 0x21 to 0x7e.
fn is_visible(byte: u8) -> bool
    ensures { result ≡ is_visible byte }
{
    33 <= byte && byte <= 126
}
