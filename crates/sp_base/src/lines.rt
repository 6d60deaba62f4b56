// Where a byte of a text stands, as line and column.
ghost use Rattle.std.specs.Prelude.{◌≡◌, ◌≤◌, ◌<◌, ◌-◌, ◌^◌, length, reverse};
ghost use Rattle.std.specs.List.{position_or_len};
ghost use Rattle.sp_base.specs.Places.{is_line_feed, line_at, column_at};

use crate::Place;

/// How many bytes stand behind the last line feed, or in all where there is none.
fn since_line_feed(text: &[u8]) -> usize
    ensures value { result ≡ position_or_len is_line_feed (reverse text.now) }
    ensures within { result ≤ length text.now }
{
    let mut since = 0;
    for byte in text {
        since = if *byte == b'\n' { 0 } else { since + 1 };
    }
    since
}

/// The place of the byte `at` of the text, or of its end: the line counts the line feeds before it, the
/// column the bytes since the last of them, both from 1. Takes no memory.
pub fn place_of(source: &[u8], at: u32) -> Place
    requires inside { at ≤ length source.now }
    requires fits { at < 2 ^ 32 - 1 }
    ensures line { result.line ≡ line_at source.now at }
    ensures column { result.col ≡ column_at source.now at }
{
    let before = &source[..at as usize];
    let line_feeds = before.iter().filter(|byte| **byte == b'\n').count();
    let since = since_line_feed(before);
    Place {
        line: line_feeds as u32 + 1,
        col: since as u32 + 1,
    }
}
