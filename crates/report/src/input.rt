//! The parts of the input: Q, line feed, T, line feed, the deck.
ghost use Rattle.std.specs.Prelude.{◌≡◌, position};
ghost use Rattle.report.specs.Input.{read_bytes, ahead, behind};
ghost use Rattle.report.specs.inner.Steps.{is_feed};

/// Only the first 8,192 bytes count.
pub fn read_bytes(input: &[u8]) -> &[u8]
    ensures { result.now ≡ read_bytes input.now }
{
    let end = input.len().min(8192);
    &input[..end]
}

fn first_feed(s: &[u8]) -> Option<usize>
    ensures { result ≡ position is_feed s.now }
{
    s.iter().position(|&byte| byte == b'\n')
}

/// What stands before the first line feed, and what stands behind it: all and nothing, if there is none.
pub fn cut(s: &[u8]) -> (&[u8], &[u8])
    ensures front { result.0.now ≡ ahead s.now }
    ensures back { result.1.now ≡ behind s.now }
{
    match first_feed(s) {
        Some(at) => (&s[..at], &s[at + 1..]),
        None => (s, &[]),
    }
}
