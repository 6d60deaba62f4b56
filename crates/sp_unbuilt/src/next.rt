// The next token of a text.
ghost use Rattle.std.specs.Prelude.{◌≡◌, ◌≤◌, ◌+◌, ◌-◌, ◌^◌, length};
ghost use Rattle.sp_unbuilt.specs.Next.{is_white, is_blank, goes_on, next_token, saturated, two_bytes};

use sp_base::Span;

fn is_white(byte: u8) -> bool
    ensures { result ≡ is_white byte }
{
    byte == b' ' || byte == b'\t' || byte == b'\r' || byte == b'\n'
}

/// Whether a byte belongs to white space or to a comment, inside a comment or not.
fn is_blank(comment: bool, byte: u8) -> bool
    ensures { result ≡ is_blank comment byte }
{
    comment || (is_white(byte) || byte == b'#')
}

/// Whether a comment goes on behind the byte.
fn goes_on(comment: bool, byte: u8) -> bool
    ensures { result ≡ goes_on comment byte }
{
    if comment { byte != b'\n' } else { byte == b'#' }
}

/// Where the next token begins, from a place between tokens on.
#[tactic(auto, using(crate::proofs::Blanks::pass_blank, crate::proofs::Blanks::stop_here, crate::proofs::Blanks::at_text_end))]
pub(crate) fn next_token(text: &[u8], from: usize) -> usize
    ensures is { result ≡ next_token text.now from }
    ensures within { result ≤ from + (length text.now - from) }
{
    let mut place = from;
    let mut comment = false;
    while place < text.len() {
        let byte = text[place];
        if !is_blank(comment, byte) {
            return place;
        }
        comment = goes_on(comment, byte);
        place += 1;
    }
    place
}

/// A number as 32 bits hold it: the greatest that they hold where it is larger.
pub(crate) fn saturated(n: usize) -> u32
    ensures { result ≡ saturated n }
{
    if n <= u32::MAX as usize {
        n as u32
    } else {
        u32::MAX
    }
}

/// The next token from a place on, where it has two bytes.
pub(crate) fn next_two(text: &[u8], from: usize) -> Span
    requires { from ≤ length text.now + 2 ^ 33 }
    ensures { result ≡ two_bytes (next_token text.now from) }
{
    let place = next_token(text, from);
    Span {
        from: saturated(place),
        to: saturated(place + 2),
    }
}
