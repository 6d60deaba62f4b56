// Texts of regular expressions, their counts of positions, and the places of faults.
ghost use Rattle.std.specs.Prelude.{◌<◌, ◌^◌};

use sp_regex::{RegexFault, parse};
use std::alloc::Global;
use std::test::Fail;

// The count of positions, or the place of the fault.
const CASES: [(&[u8], Result<u64, u64>); 79] = [
    (b"", Err(0)),
    (b"a", Ok(1)),
    (b"\x00\n\xc3\xa9*", Ok(4)),
    (b"a|", Err(2)),
    (b"|a", Err(0)),
    (b"a||b", Err(2)),
    (b"a|b", Ok(2)),
    (b"()", Err(1)),
    (b"(a", Err(2)),
    (b"a)", Err(1)),
    (b"(a|b)c", Ok(3)),
    (b"a**", Err(2)),
    (b"*a", Err(0)),
    (b"a*b+c?", Ok(3)),
    (b".", Ok(1)),
    (b"a]", Err(1)),
    (b"a}", Err(1)),
    (b"a/", Err(1)),
    (b"^a", Err(0)),
    (b"a$", Err(1)),
    (b"-\"", Ok(2)),
    (b"\\", Err(1)),
    (b"\\q", Err(1)),
    (
        b"\\n\\r\\t\\.\\[\\]\\(\\)\\{\\}\\|\\*\\+\\?\\\\\\/\\^\\$\\\"\\-",
        Ok(20),
    ),
    (b"\\x", Err(2)),
    (b"\\x4", Err(3)),
    (b"\\xg0", Err(2)),
    (b"\\x4g", Err(3)),
    (b"\\xaF", Ok(1)),
    (b"a{", Err(2)),
    (b"a{}", Err(2)),
    (b"a{,3}", Err(2)),
    (b"a{3", Err(3)),
    (b"a{3}", Ok(3)),
    (b"a{0}", Ok(0)),
    (b"a{0,0}", Ok(0)),
    (b"a{003}", Ok(3)),
    (b"a{0,}", Ok(1)),
    (b"a{4,}", Ok(4)),
    (b"a{2,5}", Ok(5)),
    (b"a{255}", Ok(255)),
    (b"a{256}", Err(4)),
    (b"a{1000}", Err(5)),
    (b"a{0255}", Ok(255)),
    (b"a{5,3}", Err(5)),
    (b"a{5,30}", Ok(30)),
    (b"a{255,3", Err(6)),
    (b"a{255,2", Err(7)),
    (b"a{255,254}", Err(8)),
    (b"a{255,0255}", Ok(255)),
    (b"a{200,199}", Err(6)),
    (b"a{1,256}", Err(6)),
    (b"a{2}{3}", Err(4)),
    (b"(ab{3}){2}", Ok(8)),
    (
        b"((((((((a{255}){255}){255}){255}){255}){255}){255}){255}){255}",
        Ok(u64::MAX),
    ),
    (b"[]", Err(1)),
    (b"[", Err(1)),
    (b"[^]", Err(2)),
    (b"[^^]", Ok(1)),
    (b"[a^]", Ok(1)),
    (b"[a", Err(2)),
    (b"[-a]", Err(1)),
    (b"[a-]", Err(3)),
    (b"[a-z0-9]", Ok(1)),
    (b"[a-c-e]", Err(4)),
    (b"[b-a]", Err(3)),
    (b"[a-a]", Ok(1)),
    (b"[b-\\n]", Err(4)),
    (b"[b-\\x5", Err(5)),
    (b"[b-\\x6", Err(6)),
    (b"[a/]", Err(2)),
    (b"[.(){}|*+?$\"[]", Ok(1)),
    (b"[\\]\\\\\\-\\/\\^]", Ok(1)),
    (b"[\xc3]", Err(1)),
    (b"[^\\x00-\\xff]", Err(10)),
    (b"[^\\x00-\\xfe]", Ok(1)),
    (b"[^\\xf0-\\xff\\x00-\\xf", Err(18)),
    (b"[^\\x01-\\xff\\x00]", Err(14)),
    (b"[\\x00-\\xff]", Ok(1)),
];

/// The count of positions, or the place of the fault.
fn told(alloc: Global, text: &[u8]) -> Result<u64, u64> {
    match parse(alloc, text) {
        Ok(regex) => {
            let count = regex.positions();
            drop(regex);
            Ok(count)
        }
        Err(RegexFault::Bad(at)) => Err(at),
        Err(RegexFault::NoMemory) => Err(u64::MAX),
    }
}

#[test]
fn tells_texts_and_faults(rt: HostRuntime) {
    for (text, want) in &CASES {
        let found = told(rt.alloc(), text);
        assert_eq!(rt; found, *want, "{text:?}");
    }
}

/// What is told of a byte in so many groups.
fn in_groups(alloc: Global, groups: usize) -> Result<Result<u64, u64>, Fail>
    requires { groups < 2 ^ 16 }
{
    let mut text = Vec::new(alloc);
    text.resize(groups, b'(')?;
    text.push(b'a')?;
    text.resize(2 * groups + 1, b')')?;
    Ok(told(alloc, &text))
}

#[test]
fn counts_groups(rt: HostRuntime) -> Result<(), Fail> {
    let told = [in_groups(rt.alloc(), 64)?, in_groups(rt.alloc(), 65)?];
    assert_eq!(rt; told, [Ok(1), Err(64)]);
    Ok(())
}
