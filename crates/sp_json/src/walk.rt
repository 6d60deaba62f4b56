// A told value as JSON (RFC 8259), written token by token: by a list of what is left to write, so that no value is too
// deep for the machine's stack.
ghost use Rattle.std.specs.Prelude.{◌≡◌, ◌≤◌, ◌<◌, ◌+◌, ◌*◌, ◌++◌, OnOk};
ghost use Rattle.serde_json.specs.Data.{array, object, no_members};
ghost use Rattle.sp_events.specs.Tree.{trees_of, pairs_of, fields_of};
ghost use Rattle.sp_events.specs.TreeSizes.{tree_size, trees_size, pairs_size, fields_size};
ghost use Rattle.sp_json.specs.Values.{tree_json, trees_json, pairs_json, with_fields};
ghost use Rattle.sp_json.specs.inside.Tokens.{value_tokens, lent, total};
ghost use Rattle.sp_json.specs.inside.Writing.{tree_tokens, pair_tokens, field_tokens, each_tokens, task_tokens, unit_tokens, pending, steps, work};

use crate::order::{are_rising, sorted};
use crate::trees::{write_bits, write_bytes, write_integer};
use json::Writer;
use sp_base::Text;
use sp_events::{Node, Tree};
use std::alloc::{AllocError, Global};
use std::collections::BTreeMap;

/// What is left to write.
#[derive(Clone, Copy)]
pub(crate) enum Task<'a> {
    Tree(&'a Tree),
    /// an entry of a map: its key and its value
    Pair(&'a Tree, &'a Tree),
    /// a field of a unit: its name and its value
    Field(&'a str, &'a Tree),
    /// the closing bracket of an array, and that of an object
    EndArray,
    EndObject,
}

/// Puts trees on a list of what is left to write, the first one on top.
fn push_trees<'a>(tasks: &mut Vec<Task<'a>>, trees: &'a [Tree]) -> Result<(), AllocError>
    ensures tokens { OnOk result (pending tasks.new.items
        ≡ each_tokens tree_tokens trees.now ++ pending tasks.old.items) }
    ensures work { OnOk result (work tasks.new.items
        ≤ 3 * trees_size (trees_of trees.now) + work tasks.old.items) }
{
    let mut i = trees.len();
    while i > 0 {
        i -= 1;
        tasks.push(Task::Tree(&trees[i]))?;
    }
    Ok(())
}

/// The entries of a map likewise.
fn push_pairs<'a>(tasks: &mut Vec<Task<'a>>, pairs: &'a [(Tree, Tree)]) -> Result<(), AllocError>
    ensures tokens { OnOk result (pending tasks.new.items
        ≡ each_tokens pair_tokens pairs.now ++ pending tasks.old.items) }
    ensures work { OnOk result (work tasks.new.items
        ≤ 3 * pairs_size (pairs_of pairs.now) + work tasks.old.items) }
{
    let mut i = pairs.len();
    while i > 0 {
        i -= 1;
        let pair = &pairs[i];
        tasks.push(Task::Pair(&pair.0, &pair.1))?;
    }
    Ok(())
}

/// Fields likewise, as they stand.
fn push_fields<'a>(tasks: &mut Vec<Task<'a>>, fields: &'a [(Text, Tree)]) -> Result<(), AllocError>
    ensures tokens { OnOk result (pending tasks.new.items
        ≡ each_tokens field_tokens fields.now ++ pending tasks.old.items) }
    ensures work { OnOk result (work tasks.new.items
        ≤ 3 * fields_size (fields_of fields.now) + work tasks.old.items) }
{
    let mut i = fields.len();
    while i > 0 {
        i -= 1;
        let field = &fields[i];
        tasks.push(Task::Field(field.0.as_str(), &field.1))?;
    }
    Ok(())
}

/// Fields of a table likewise.
fn push_table<'a>(
    tasks: &mut Vec<Task<'a>>,
    mut table: BTreeMap<&'a str, &'a Tree>,
) -> Result<(), AllocError>
    ensures tokens { OnOk result (pending tasks.new.items
        ≡ each_tokens field_tokens (lent table.entry.entries) ++ pending tasks.old.items) }
    ensures work { OnOk result (work tasks.new.items
        ≤ 3 * total (λ t. tree_size t + 1) (lent table.entry.entries) + work tasks.old.items) }
{
    while let Some((name, tree)) = table.pop_last() {
        tasks.push(Task::Field(name, tree))?;
    }
    Ok(())
}

/// The fields of a unit in the order of their names.
fn push_unit<'a>(
    alloc: Global,
    tasks: &mut Vec<Task<'a>>,
    fields: &'a [(Text, Tree)],
) -> Result<(), AllocError>
    ensures tokens { OnOk result (pending tasks.new.items
        ≡ unit_tokens fields.now ++ pending tasks.old.items) }
    ensures work { OnOk result (work tasks.new.items
        ≤ 3 * fields_size (fields_of fields.now) + work tasks.old.items) }
{
    if are_rising(fields) {
        return push_fields(tasks, fields);
    }
    let table = sorted(alloc, fields)?;
    push_table(tasks, table)
}

/// Begins an array of trees.
fn begin_row<'a>(
    trees: &'a [Tree],
    tasks: &mut Vec<Task<'a>>,
    out: &mut Writer,
) -> Result<(), AllocError>
    ensures tokens { OnOk result (out.new.tokens ++ pending tasks.new.items ≡ out.old.tokens
        ++ (value_tokens (array (trees_json (trees_of trees.now))) ++ pending tasks.old.items)) }
    ensures work { OnOk result (work tasks.new.items
        < 3 * trees_size (trees_of trees.now) + 2 + work tasks.old.items) }
    ensures before { out.new.before ≡ out.old.before }
{
    out.begin_array()?;
    tasks.push(Task::EndArray)?;
    push_trees(tasks, trees)
}

/// Begins a map.
fn begin_map<'a>(
    pairs: &'a [(Tree, Tree)],
    tasks: &mut Vec<Task<'a>>,
    out: &mut Writer,
) -> Result<(), AllocError>
    ensures tokens { OnOk result (out.new.tokens ++ pending tasks.new.items ≡ out.old.tokens
        ++ (value_tokens (array (pairs_json (pairs_of pairs.now))) ++ pending tasks.old.items)) }
    ensures work { OnOk result (work tasks.new.items
        < 3 * pairs_size (pairs_of pairs.now) + 2 + work tasks.old.items) }
    ensures before { out.new.before ≡ out.old.before }
{
    out.begin_array()?;
    tasks.push(Task::EndArray)?;
    push_pairs(tasks, pairs)
}

/// Begins a unit.
fn begin_unit<'a>(
    alloc: Global,
    fields: &'a [(Text, Tree)],
    tasks: &mut Vec<Task<'a>>,
    out: &mut Writer,
) -> Result<(), AllocError>
    ensures tokens { OnOk result (out.new.tokens ++ pending tasks.new.items ≡ out.old.tokens
        ++ (value_tokens (object (with_fields (fields_of fields.now) no_members))
        ++ pending tasks.old.items)) }
    ensures work { OnOk result (work tasks.new.items
        < 3 * fields_size (fields_of fields.now) + 2 + work tasks.old.items) }
    ensures before { out.new.before ≡ out.old.before }
{
    out.begin_object()?;
    tasks.push(Task::EndObject)?;
    push_unit(alloc, tasks, fields)
}

/// Writes a tree, or its opening bracket where it has members.
fn enter<'a>(
    alloc: Global,
    tree: &'a Tree,
    tasks: &mut Vec<Task<'a>>,
    out: &mut Writer,
) -> Result<(), AllocError>
    ensures tokens { OnOk result (out.new.tokens ++ pending tasks.new.items
        ≡ out.old.tokens ++ (tree_tokens tree.now ++ pending tasks.old.items)) }
    ensures work { OnOk result (work tasks.new.items
        < 3 * tree_size tree.now + 2 + work tasks.old.items) }
    ensures before { out.new.before ≡ out.old.before }
{
    match &tree.node {
        Node::Void => out.null(),
        Node::Bool(b) => out.boolean(*b),
        Node::Uint(n) => out.u64(*n),
        Node::Int(n) => write_integer(*n, out),
        Node::Bytes(bytes) => write_bytes(alloc, bytes.as_slice(), out),
        Node::Str(text) => out.string(text.as_str()),
        Node::Label(name) => out.string(name.as_str()),
        Node::Unlisted(n) => out.u64(*n),
        Node::Bits(ranges) => write_bits(alloc, ranges.as_slice(), out),
        Node::Tuple(members) => begin_row(members.as_slice(), tasks, out),
        Node::Vector(items) => begin_row(items.as_slice(), tasks, out),
        Node::Set(members) => begin_row(members.as_slice(), tasks, out),
        Node::Map(pairs) => begin_map(pairs.as_slice(), tasks, out),
        Node::Unit(fields) => begin_unit(alloc, fields.as_slice(), tasks, out),
        Node::Place(at) => out.u64(*at),
    }
}

/// Begins an entry of a map.
fn begin_pair<'a>(
    key: &'a Tree,
    value: &'a Tree,
    tasks: &mut Vec<Task<'a>>,
    out: &mut Writer,
) -> Result<(), AllocError>
    ensures tokens { OnOk result (out.new.tokens ++ pending tasks.new.items
        ≡ out.old.tokens ++ (pair_tokens (key.now, value.now) ++ pending tasks.old.items)) }
    ensures work { OnOk result (work tasks.new.items
        < 3 * (tree_size key.now + tree_size value.now) + 6 + work tasks.old.items) }
    ensures before { out.new.before ≡ out.old.before }
{
    out.begin_array()?;
    tasks.push(Task::EndArray)?;
    tasks.push(Task::Tree(value))?;
    tasks.push(Task::Tree(key))?;
    Ok(())
}

/// Does what is next.
fn step<'a>(
    alloc: Global,
    task: Task<'a>,
    tasks: &mut Vec<Task<'a>>,
    out: &mut Writer,
) -> Result<(), AllocError>
    ensures tokens { OnOk result (out.new.tokens ++ pending tasks.new.items
        ≡ out.old.tokens ++ (task_tokens task.entry ++ pending tasks.old.items)) }
    ensures work { OnOk result (work tasks.new.items < steps task.entry + work tasks.old.items) }
    ensures before { out.new.before ≡ out.old.before }
{
    match task {
        Task::Tree(tree) => enter(alloc, tree, tasks, out),
        Task::Pair(key, value) => begin_pair(key, value, tasks, out),
        Task::Field(name, tree) => {
            out.key(name)?;
            enter(alloc, tree, tasks, out)
        }
        Task::EndArray => out.end_array(),
        Task::EndObject => out.end_object(),
    }
}

/// Writes all that is left.
fn write_all(alloc: Global, mut tasks: Vec<Task<'_>>, out: &mut Writer) -> Result<(), AllocError>
    ensures tokens { OnOk result (out.new.tokens ≡ out.old.tokens ++ pending tasks.entry.items) }
    ensures before { out.new.before ≡ out.old.before }
{
    while let Some(task) = tasks.pop() {
        step(alloc, task, &mut tasks, out)?;
    }
    Ok(())
}

/// Writes a value. It takes no more of the machine's stack for one that nests deeper.
pub(crate) fn write_tree(alloc: Global, tree: &Tree, out: &mut Writer) -> Result<(), AllocError>
    ensures tokens { OnOk result (out.new.tokens
        ≡ out.old.tokens ++ value_tokens (tree_json tree.now)) }
    ensures before { out.new.before ≡ out.old.before }
{
    let mut tasks = Vec::new(alloc);
    tasks.push(Task::Tree(tree))?;
    write_all(alloc, tasks, out)
}

/// Writes values as an array.
pub(crate) fn write_trees(alloc: Global, trees: &[Tree], out: &mut Writer) -> Result<(), AllocError>
    ensures tokens { OnOk result (out.new.tokens ≡ out.old.tokens
        ++ value_tokens (array (trees_json (trees_of trees.now)))) }
    ensures before { out.new.before ≡ out.old.before }
{
    let mut tasks = Vec::new(alloc);
    begin_row(trees, &mut tasks, out)?;
    write_all(alloc, tasks, out)
}
