// The lines of events: the number of an event, `report`, or `all`. The answer is the line of the event, or that of a report on a
// flow's bytes. Of `all` it is whether one buffer has the lines of all events one behind another, and how many bytes it has when
// it was cleared.
use crate::texts::put;
use sp_base::{ByteList, NoMemory, PKind, ParseError, Text, or_drop};
use sp_events::{Event, Node, Path, Tree, Trees, What};
use sp_json::{Lines, line, report};
use std::alloc::{AllocError, Global};

/// A value of each kind without members.
fn leaves(alloc: Global) -> Result<Vec<Tree>, NoMemory> {
    let bytes = ByteList::from_slice(alloc, b"A\"\x00\xff")?;
    let text = or_drop!(Text::new(alloc, "B\\\u{e9}"); bytes);
    let label = or_drop!(Text::new(alloc, "E::A"); bytes, text);
    let nodes = [
        Node::Void,
        Node::Bool(true),
        Node::Uint(18_446_744_073_709_551_615),
        Node::Int(-9_223_372_036_854_775_808),
        Node::Bytes(bytes),
        Node::Str(text),
        Node::Label(label),
        Node::Unlisted(3),
        Node::Place(9),
    ];
    let mut trees = Vec::new(alloc);
    for node in nodes {
        trees.push(Tree { node })?;
    }
    Ok(trees)
}

/// The numbers from 1 to this one.
fn numbers(alloc: Global, last: u64) -> Result<Vec<Tree>, NoMemory> {
    let mut trees = Vec::new(alloc);
    for n in 1..=last {
        trees.push(Tree {
            node: Node::Uint(n),
        })?;
    }
    Ok(trees)
}

/// A map with one entry.
fn entry(alloc: Global) -> Result<Tree, NoMemory> {
    let mut entries = Vec::new(alloc);
    let key = Tree {
        node: Node::Str(Text::new(alloc, "k")?),
    };
    let value = Tree {
        node: Node::Vector(numbers(alloc, 2)?),
    };
    entries.push((key, value))?;
    Ok(Tree {
        node: Node::Map(entries),
    })
}

/// A bitfield with two ranges.
fn bits(alloc: Global) -> Result<Tree, NoMemory> {
    let mut ranges = Vec::new(alloc);
    ranges.push((Text::new(alloc, "low")?, 2))?;
    ranges.push((Text::new(alloc, "high")?, 1))?;
    Ok(Tree {
        node: Node::Bits(ranges),
    })
}

/// One more field.
fn add_field(
    alloc: Global,
    fields: &mut Vec<(Text, Tree)>,
    name: &str,
    tree: Tree,
) -> Result<(), NoMemory> {
    let name = or_drop!(Text::new(alloc, name); tree);
    fields.push((name, tree))?;
    Ok(())
}

/// A unit with a field of each kind that has members.
fn unit(alloc: Global) -> Result<Tree, NoMemory> {
    let mut fields = Vec::new(alloc);
    let tuple = Tree {
        node: Node::Tuple(numbers(alloc, 3)?),
    };
    or_drop!(add_field(alloc, &mut fields, "t", tuple); fields);
    let set = Tree {
        node: Node::Set(or_drop!(numbers(alloc, 0); fields)),
    };
    or_drop!(add_field(alloc, &mut fields, "s", set); fields);
    let map = or_drop!(entry(alloc); fields);
    or_drop!(add_field(alloc, &mut fields, "m", map); fields);
    let bits = or_drop!(bits(alloc); fields);
    or_drop!(add_field(alloc, &mut fields, "b", bits); fields);
    Ok(Tree::unit(fields))
}

/// The least and the greatest numbers.
fn bounds(alloc: Global) -> Result<Vec<Tree>, NoMemory> {
    let nodes = [
        Node::Bool(false),
        Node::Uint(0),
        Node::Int(0),
        Node::Int(9_223_372_036_854_775_807),
        Node::Unlisted(0),
        Node::Unlisted(18_446_744_073_709_551_615),
        Node::Place(0),
        Node::Place(18_446_744_073_709_551_615),
    ];
    let mut trees = Vec::new(alloc);
    for node in nodes {
        trees.push(Tree { node })?;
    }
    Ok(trees)
}

/// What has no bytes and no members.
fn empty(alloc: Global) -> Result<Vec<Tree>, NoMemory> {
    let nodes = [
        Node::Bytes(ByteList::new(alloc)),
        Node::Str(Text::new(alloc, "")?),
        Node::Bits(Vec::new(alloc)),
        Node::Tuple(Vec::new(alloc)),
        Node::Vector(Vec::new(alloc)),
        Node::Map(Vec::new(alloc)),
        Node::Unit(Vec::new(alloc)),
    ];
    let mut trees = Vec::new(alloc);
    for node in nodes {
        trees.push(Tree { node })?;
    }
    Ok(trees)
}

/// A text of all characters of ASCII, and of some of two, three and four bytes.
fn characters(alloc: Global) -> Result<Tree, NoMemory> {
    let mut text = String::new(alloc);
    for byte in 0..128_u8 {
        text.push(char::from(byte))?;
    }
    text.push_str("\u{e9}\u{20ac}\u{1f600}")?;
    Ok(Tree {
        node: Node::Str(Text::from_string(text)?),
    })
}

/// All bytes.
fn bytes(alloc: Global) -> Result<Tree, NoMemory> {
    let mut bytes = ByteList::new(alloc);
    for byte in 0..=255_u8 {
        bytes.push(byte)?;
    }
    Ok(Tree {
        node: Node::Bytes(bytes),
    })
}

/// A unit whose fields have these names, and are numbered from 0.
fn fields(alloc: Global, names: &[&str]) -> Result<Tree, NoMemory> {
    let mut fields = Vec::new(alloc);
    let mut n = 0_u64;
    for name in names {
        let tree = Tree {
            node: Node::Uint(n),
        };
        fields.push((Text::new(alloc, name)?, tree))?;
        n = n.wrapping_add(1);
    }
    Ok(Tree::unit(fields))
}

/// A bitfield whose ranges have these names, and are numbered from 0.
fn ranges(alloc: Global, names: &[&str]) -> Result<Tree, NoMemory> {
    let mut ranges = Vec::new(alloc);
    let mut n = 0_u64;
    for name in names {
        ranges.push((Text::new(alloc, name)?, n))?;
        n = n.wrapping_add(1);
    }
    Ok(Tree {
        node: Node::Bits(ranges),
    })
}

/// Two trees.
fn both(alloc: Global, first: Tree, second: Tree) -> Result<Trees, NoMemory> {
    let mut trees = Vec::new(alloc);
    trees.push(first)?;
    trees.push(second)?;
    Ok(Trees::new(trees))
}

/// Names of members in the order of their bytes, out of it, and some twice.
const RISING: [&str; 4] = ["A", "a", "a_", "b"];

const MIXED: [&str; 7] = ["b", "ab", "a", "\u{e9}\"", "b", "B", "a"];

/// What happens, by its number.
fn happening(alloc: Global, number: u32) -> Result<What, NoMemory> {
    match number {
        0 => Ok(What::Print(Trees::new(leaves(alloc)?))),
        1 => Ok(What::Done(unit(alloc)?)),
        2 => Ok(What::Done(unit(alloc)?.copy()?)),
        3 => Ok(What::Hook {
            name: Text::new(alloc, "M::U::x foreach")?,
            args: Trees::alone(Tree {
                node: Node::Uint(1),
            }),
        }),
        4 => Ok(What::Write {
            sink: Text::new(alloc, "s")?,
            seq: 7,
            bytes: ByteList::from_slice(alloc, b"AB")?,
        }),
        5 => Ok(What::Forward(ByteList::from_slice(alloc, b"C\n")?)),
        6 => Ok(What::ForwardEod),
        7 => Ok(What::Failed(ParseError {
            kind: PKind::Short,
            offset: 1,
            text: None,
        })),
        8 => Ok(What::Failed(ParseError {
            kind: PKind::Throw,
            offset: 30,
            text: Some(Text::new(alloc, "no")?),
        })),
        9 => Ok(What::Print(Trees::new(bounds(alloc)?))),
        10 => Ok(What::Print(Trees::new(empty(alloc)?))),
        _ => longer(alloc, number),
    }
}

/// A text of many characters, and bytes of all kinds.
fn characters_and_bytes(alloc: Global) -> Result<What, NoMemory> {
    let characters = characters(alloc)?;
    let bytes = or_drop!(bytes(alloc); characters);
    Ok(What::Print(both(alloc, characters, bytes)?))
}

/// Ranges whose names rise, and ranges whose names don't.
fn both_ranges(alloc: Global) -> Result<What, NoMemory> {
    let rising = ranges(alloc, &RISING)?;
    let mixed = or_drop!(ranges(alloc, &MIXED); rising);
    Ok(What::Print(both(alloc, rising, mixed)?))
}

/// What happens, by its number, where values have many characters or members, or none.
fn longer(alloc: Global, number: u32) -> Result<What, NoMemory> {
    match number {
        11 => characters_and_bytes(alloc),
        12 => Ok(What::Done(fields(alloc, &RISING)?)),
        13 => Ok(What::Done(fields(alloc, &MIXED)?)),
        14 => both_ranges(alloc),
        15 => Ok(What::Hook {
            name: Text::new(alloc, "")?,
            args: Trees::new(Vec::new(alloc)),
        }),
        16 => Ok(What::Write {
            sink: Text::new(alloc, "\t")?,
            seq: 18_446_744_073_709_551_615,
            bytes: ByteList::new(alloc),
        }),
        17 => Ok(What::Forward(ByteList::new(alloc))),
        _ => Ok(What::Failed(ParseError {
            kind: PKind::Assert,
            offset: 18_446_744_073_709_551_615,
            text: Some(Text::new(alloc, "\u{1f}\u{7f}\\")?),
        })),
    }
}

/// What happens, by its number, in the flow itself.
fn event(alloc: Global, number: u32) -> Result<Event, NoMemory> {
    Ok(Event {
        at: Path::new(alloc),
        what: happening(alloc, number)?,
    })
}

/// The name of the flow, which needs escapes in later events.
fn flow(number: u32) -> &'static str {
    if number < 9 { "f" } else { "\u{e9}\n" }
}

/// How many events there are.
const EVENTS: u32 = 19;

/// Puts a line behind those that are there, without the end of its line.
fn put_line(line: &ByteList, got: &mut String) -> Result<(), AllocError> {
    let text = std::str::from_utf8(line.as_slice()).unwrap_or("?\n");
    got.push_str(text.strip_suffix("\n").unwrap_or("?"))
}

/// The line of what happens, by its number.
fn line_of(alloc: Global, number: u32) -> Result<ByteList, NoMemory> {
    let event = event(alloc, number)?;
    let line = line(alloc, flow(number), &event);
    drop(event);
    line
}

/// Puts the line of what happens into both lists of lines.
fn add(alloc: Global, number: u32, lines: &mut Lines, all: &mut ByteList) -> Result<(), NoMemory> {
    let event = event(alloc, number)?;
    let pushed = lines.push(flow(number), &event);
    drop(event);
    pushed?;
    let line = line_of(alloc, number)?;
    let added = all.append(line.as_slice());
    drop(line);
    added
}

/// Puts the lines of all events into both.
fn add_all(alloc: Global, lines: &mut Lines, all: &mut ByteList) -> Result<(), NoMemory> {
    for number in 0..EVENTS {
        add(alloc, number, lines, all)?;
    }
    Ok(())
}

/// Whether a buffer has all lines, and its length when it was cleared.
fn put_all(alloc: Global, got: &mut String) -> Result<(), AllocError> {
    let mut lines = Lines::new(alloc);
    let mut all = ByteList::new(alloc);
    let added = add_all(alloc, &mut lines, &mut all);
    let same = lines.as_slice() == all.as_slice();
    lines.clear();
    let left = lines.as_slice().len();
    drop(lines);
    drop(all);
    match added {
        Ok(()) => put(
            got,
            format!(in alloc; "the same: {same}, and then {left} bytes"),
        ),
        Err(_) => Err(AllocError),
    }
}

pub fn answer(alloc: Global, question: &str, got: &mut String) -> Result<(), AllocError> {
    let made = match question {
        "all" => return put_all(alloc, got),
        "report" => report(alloc, "f", 2, 4),
        number => line_of(alloc, number.parse::<u32>().unwrap_or(0)),
    };
    match made {
        Ok(line) => {
            let said = put_line(&line, got);
            drop(line);
            said
        }
        Err(_) => Err(AllocError),
    }
}
