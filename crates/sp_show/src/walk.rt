// The walk into a value, and into the units in it: by a list of what is left to do, so that no value is too deep for the
// machine's stack.
ghost use Rattle.std.specs.Prelude.{◌≡◌, ◌<◌, ◌++◌, ◌∷◌, [], ℕ, drop, take, length, reverse, slice_get, IfOk, OnOk, IsTrue, MatchOption, option_copied};
ghost use Rattle.sp_code.specs.Programs.{names_of};
ghost use Rattle.sp_events.specs.Tree.{TreeData};
ghost use Rattle.sp_events.specs.TreeView.{tree_of};
ghost use Rattle.sp_meaning_states.specs.Scopes.{is_among};
ghost use Rattle.sp_meaning_states.specs.States.{flat};
ghost use Rattle.sp_meaning_states.specs.Telling.{tree_with, value_tree};
ghost use Rattle.sp_value.specs.Val.{unit};
ghost use Rattle.sp_value.specs.Pieces.{all_in};
ghost use Rattle.sp_show.specs.Inside.{AreOpen, has_members, told_member};
ghost use Rattle.sp_show.specs.Plans.{tell, plan, plans, tells, shape_of, made, left_behind, halves, in_pairs, members_told, with_names, run, work};

use crate::names::{label_node, labels_of, member_names, named_ranges, range_names};
use sp_base::{ByteList, NoMemory, Text};
use sp_code::Program;
use sp_events::{Node, Tree};
use sp_frames::Instance;
use sp_value::{Level, Value};
use std::alloc::Global;
use std::rc::Rc;

/// What is made of the trees of members.
#[derive(Clone, Copy)]
pub(crate) enum Shape<'a> {
    Tuple,
    Vector,
    Set,
    Map,
    /// the unit with this instance
    Unit(&'a Instance),
}

/// What is left to do of a walk.
#[derive(Clone, Copy)]
pub(crate) enum Task<'a> {
    /// tell a value
    Tell(&'a Value),
    /// make this of the trees from a place on
    End(Shape<'a>, usize),
}

/// A value of a kind without members.
fn leaf(alloc: Global, p: &Program, v: &Value) -> Result<Option<Node>, NoMemory>
    ensures { IfOk result (λ leaf. MatchOption leaf (IsTrue (has_members v.now))
        (λ node. (unit_tree : ℕ → TreeData) → tree_of node
        ≡ tree_with (names_of p.now) unit_tree v.now)) }
{
    let node = match v.level() {
        Level::Void => Node::Void,
        Level::Bool(b) => Node::Bool(b),
        Level::Uint(_, n) => Node::Uint(n),
        Level::Int(_, n) => Node::Int(n),
        Level::Bytes(bytes) => Node::Bytes(ByteList::from_slice(alloc, bytes)?),
        Level::Str(text) => Node::Str(Text::new(alloc, text)?),
        Level::Enum(kind, n) => label_node(labels_of(p, kind), n)?,
        Level::Bits(kind, numbers) => {
            Node::Bits(named_ranges(alloc, range_names(p, kind), numbers)?)
        }
        Level::Place(at) => Node::Place(at),
        Level::Tuple(_) | Level::Vector(_) | Level::Set(_) | Level::Map(_) | Level::Unit(_) => {
            return Ok(None);
        }
    };
    Ok(Some(node))
}

/// Puts values on a list of what is left to do, the first one on top.
#[tactic(auto, using(crate::proofs::Moves::one_more, crate::proofs::Moves::from_item))]
fn push_row<'a>(tasks: &mut Vec<Task<'a>>, values: &'a [Value]) -> Result<(), NoMemory>
    ensures { OnOk result (plans tasks.new.items ≡ tells values.now ++ plans tasks.old.items) }
{
    let mut i = values.len();
    while i > 0 {
        i -= 1;
        tasks.push(Task::Tell(&values[i]))?;
    }
    Ok(())
}

/// The members of a set likewise.
fn push_pieces<'a>(tasks: &mut Vec<Task<'a>>, pieces: &'a [Rc<Vec<Value>>]) -> Result<(), NoMemory>
    ensures { OnOk result (plans tasks.new.items
        ≡ tells (all_in pieces.now) ++ plans tasks.old.items) }
{
    let mut i = pieces.len();
    while i > 0 {
        i -= 1;
        push_row(tasks, pieces[i].as_slice())?;
    }
    Ok(())
}

/// Keys and values likewise, each key before its value.
fn push_pairs<'a>(tasks: &mut Vec<Task<'a>>, entries: &'a [(Value, Value)]) -> Result<(), NoMemory>
    ensures { OnOk result (plans tasks.new.items
        ≡ tells (halves entries.now) ++ plans tasks.old.items) }
{
    let mut i = entries.len();
    while i > 0 {
        i -= 1;
        let entry = &entries[i];
        tasks.push(Task::Tell(&entry.1))?;
        tasks.push(Task::Tell(&entry.0))?;
    }
    Ok(())
}

/// The entries of a map likewise.
fn push_entries<'a>(
    tasks: &mut Vec<Task<'a>>,
    pieces: &'a [Rc<Vec<(Value, Value)>>],
) -> Result<(), NoMemory>
    ensures { OnOk result (plans tasks.new.items
        ≡ tells (halves (all_in pieces.now)) ++ plans tasks.old.items) }
{
    let mut i = pieces.len();
    while i > 0 {
        i -= 1;
        push_pairs(tasks, pieces[i].as_slice())?;
    }
    Ok(())
}

/// What a member holds, where it is set and isn't void.
fn told_member(instance: &Instance, m: usize) -> Option<&Value>
    requires { m < length instance.now.members }
    ensures { option_copied result ≡ told_member (flat (slice_get instance.now.members m)) }
{
    match instance.member(m) {
        None => None,
        Some(v) => match v.level() {
            Level::Void => None,
            _ => Some(v),
        },
    }
}

/// The members of an instance that have names, are set and aren't void, likewise.
fn push_members<'a>(
    tasks: &mut Vec<Task<'a>>,
    names: &[Text],
    instance: &'a Instance,
) -> Result<(), NoMemory>
    ensures { OnOk result (plans tasks.new.items
        ≡ tells (members_told names.now instance.now.members) ++ plans tasks.old.items) }
{
    let mut m = names.len().min(instance.member_count());
    while m > 0 {
        m -= 1;
        if let Some(v) = told_member(instance, m) {
            tasks.push(Task::Tell(v))?;
        }
    }
    Ok(())
}

/// The trees from a place on, taken off a list; none where the list ends before it.
fn behind(done: &mut Vec<Tree>, n: usize) -> Result<Vec<Tree>, NoMemory>
    ensures taken { IfOk result (λ trees. trees.items ≡ drop n done.old.items) }
    ensures left { OnOk result (done.new.items ≡ take n done.old.items) }
{
    let n = n.min(done.len());
    Ok(done.split_off(n)?)
}

/// Trees two by two, as keys and values.
fn pairs_from(alloc: Global, mut trees: Vec<Tree>) -> Result<Vec<(Tree, Tree)>, NoMemory>
    ensures { IfOk result (λ pairs. pairs.items ≡ in_pairs trees.items) }
{
    let mut pairs = Vec::with_capacity(alloc, trees.len() / 2)?;
    trees.reverse();
    while let Some(key) = trees.pop() {
        if let Some(value) = trees.pop() {
            pairs.push((key, value))?;
        }
    }
    Ok(pairs)
}

/// Trees of the members that are told, under their names.
fn fields_from(
    alloc: Global,
    names: &[Text],
    instance: &Instance,
    mut trees: Vec<Tree>,
) -> Result<Vec<(Text, Tree)>, NoMemory>
    ensures { IfOk result (λ fields. fields.items
        ≡ with_names names.now instance.now.members trees.items) }
{
    let mut fields = Vec::with_capacity(alloc, trees.len())?;
    trees.reverse();
    for m in 0..names.len().min(instance.member_count()) {
        if told_member(instance, m).is_some() {
            let name = names[m].copy()?;
            if let Some(tree) = trees.pop() {
                fields.push((name, tree))?;
            }
        }
    }
    Ok(fields)
}

/// Puts a tree behind those that are told.
fn put(done: &mut Vec<Tree>, node: Node) -> Result<(), NoMemory>
    ensures { OnOk result (done.new.items ≡ done.old.items ++ tree_of node ∷ []) }
{
    done.push(Tree { node })?;
    Ok(())
}

/// Whether an instance is among those that are open.
fn is_open(outer: &[usize], n: usize) -> bool
    ensures { result ≡ is_among n (reverse outer.now) }
{
    outer.contains(&n)
}

/// Begins a unit. One that is met again inside itself has no fields there, so that no more units stand inside one
/// another than there are instances.
fn begin_unit<'a>(
    p: &Program,
    instances: &'a [Instance],
    n: usize,
    tasks: &mut Vec<Task<'a>>,
    outer: &mut Vec<usize>,
    done: &mut Vec<Tree>,
) -> Result<(), NoMemory>
    requires { AreOpen instances.now (reverse outer.old.items) }
    ensures told { OnOk result (run (names_of p.now) instances.now (plans tasks.new.items)
        (reverse outer.new.items) done.new.items
        ≡ run (names_of p.now) instances.now (tell (unit n) ∷ plans tasks.old.items)
        (reverse outer.old.items) done.old.items) }
    ensures falls { OnOk result (work (names_of p.now) instances.now (plans tasks.new.items)
        (reverse outer.new.items) < work (names_of p.now) instances.now
        (tell (unit n) ∷ plans tasks.old.items) (reverse outer.old.items)) }
    ensures open { OnOk result (AreOpen instances.now (reverse outer.new.items)) }
{
    if is_open(outer.as_slice(), n) {
        return put(done, Node::Unit(Vec::new(*done.allocator())));
    }
    match instances.get(n) {
        Some(instance) => {
            outer.push(n)?;
            tasks.push(Task::End(Shape::Unit(instance), done.len()))?;
            push_members(tasks, member_names(p, instance.unit()), instance)
        }
        None => put(done, Node::Unit(Vec::new(*done.allocator()))),
    }
}

/// Begins a value that may have members.
fn begin<'a>(
    p: &Program,
    instances: &'a [Instance],
    v: &'a Value,
    tasks: &mut Vec<Task<'a>>,
    outer: &mut Vec<usize>,
    done: &mut Vec<Tree>,
) -> Result<(), NoMemory>
    requires members { IsTrue (has_members v.now) }
    requires open { AreOpen instances.now (reverse outer.old.items) }
    ensures told { OnOk result (run (names_of p.now) instances.now (plans tasks.new.items)
        (reverse outer.new.items) done.new.items
        ≡ run (names_of p.now) instances.now (tell v.now ∷ plans tasks.old.items)
        (reverse outer.old.items) done.old.items) }
    ensures falls { OnOk result (work (names_of p.now) instances.now (plans tasks.new.items)
        (reverse outer.new.items) < work (names_of p.now) instances.now
        (tell v.now ∷ plans tasks.old.items) (reverse outer.old.items)) }
    ensures open { OnOk result (AreOpen instances.now (reverse outer.new.items)) }
{
    let n = done.len();
    match v.level() {
        Level::Tuple(members) => {
            tasks.push(Task::End(Shape::Tuple, n))?;
            push_row(tasks, members)
        }
        Level::Vector(items) => {
            tasks.push(Task::End(Shape::Vector, n))?;
            push_row(tasks, items)
        }
        Level::Set(pieces) => {
            tasks.push(Task::End(Shape::Set, n))?;
            push_pieces(tasks, pieces)
        }
        Level::Map(pieces) => {
            tasks.push(Task::End(Shape::Map, n))?;
            push_entries(tasks, pieces)
        }
        Level::Unit(n) => begin_unit(p, instances, n, tasks, outer, done),
        _ => unreachable!(),
    }
}

/// Tells a value, or begins it where it may have members.
fn enter<'a>(
    alloc: Global,
    p: &Program,
    instances: &'a [Instance],
    v: &'a Value,
    tasks: &mut Vec<Task<'a>>,
    outer: &mut Vec<usize>,
    done: &mut Vec<Tree>,
) -> Result<(), NoMemory>
    requires { AreOpen instances.now (reverse outer.old.items) }
    ensures told { OnOk result (run (names_of p.now) instances.now (plans tasks.new.items)
        (reverse outer.new.items) done.new.items
        ≡ run (names_of p.now) instances.now (tell v.now ∷ plans tasks.old.items)
        (reverse outer.old.items) done.old.items) }
    ensures falls { OnOk result (work (names_of p.now) instances.now (plans tasks.new.items)
        (reverse outer.new.items) < work (names_of p.now) instances.now
        (tell v.now ∷ plans tasks.old.items) (reverse outer.old.items)) }
    ensures open { OnOk result (AreOpen instances.now (reverse outer.new.items)) }
{
    match leaf(alloc, p, v)? {
        Some(node) => put(done, node),
        None => begin(p, instances, v, tasks, outer, done),
    }
}

/// A container or a unit of the trees of its members.
fn made(alloc: Global, p: &Program, shape: Shape<'_>, trees: Vec<Tree>) -> Result<Node, NoMemory>
    ensures { IfOk result (λ node. tree_of node ≡ made (names_of p.now) (shape_of shape.entry) trees.items) }
{
    let node = match shape {
        Shape::Tuple => Node::Tuple(trees),
        Shape::Vector => Node::Vector(trees),
        Shape::Set => Node::Set(trees),
        Shape::Map => Node::Map(pairs_from(alloc, trees)?),
        Shape::Unit(instance) => {
            let names = member_names(p, instance.unit());
            Node::Unit(fields_from(alloc, names, instance, trees)?)
        }
    };
    Ok(node)
}

/// Makes a container or a unit of the trees from a place on, in their place.
fn end(
    alloc: Global,
    p: &Program,
    shape: Shape<'_>,
    n: usize,
    done: &mut Vec<Tree>,
) -> Result<(), NoMemory>
    ensures { OnOk result (done.new.items ≡ take n done.old.items
        ++ made (names_of p.now) (shape_of shape.entry) (drop n done.old.items) ∷ []) }
{
    let trees = behind(done, n)?;
    let node = made(alloc, p, shape, trees)?;
    put(done, node)
}

/// Closes the innermost unit that is open, where this is a unit.
fn leave(shape: Shape<'_>, outer: &mut Vec<usize>)
    ensures { reverse outer.new.items ≡ left_behind (shape_of shape.entry) (reverse outer.old.items) }
{
    if let Shape::Unit(_) = shape {
        outer.pop();
    }
}

/// Does what is next.
fn step<'a>(
    alloc: Global,
    p: &Program,
    instances: &'a [Instance],
    task: Task<'a>,
    tasks: &mut Vec<Task<'a>>,
    outer: &mut Vec<usize>,
    done: &mut Vec<Tree>,
) -> Result<(), NoMemory>
    requires { AreOpen instances.now (reverse outer.old.items) }
    ensures told { OnOk result (run (names_of p.now) instances.now (plans tasks.new.items)
        (reverse outer.new.items) done.new.items
        ≡ run (names_of p.now) instances.now (plan task.entry ∷ plans tasks.old.items)
        (reverse outer.old.items) done.old.items) }
    ensures falls { OnOk result (work (names_of p.now) instances.now (plans tasks.new.items)
        (reverse outer.new.items) < work (names_of p.now) instances.now
        (plan task.entry ∷ plans tasks.old.items) (reverse outer.old.items)) }
    ensures open { OnOk result (AreOpen instances.now (reverse outer.new.items)) }
{
    match task {
        Task::Tell(v) => enter(alloc, p, instances, v, tasks, outer, done),
        Task::End(shape, n) => {
            end(alloc, p, shape, n, done)?;
            leave(shape, outer);
            Ok(())
        }
    }
}

/// A value as it is told.
pub(crate) fn walk_value(
    alloc: Global,
    p: &Program,
    instances: &[Instance],
    v: &Value,
) -> Result<Tree, NoMemory>
    ensures { IfOk result (λ tree. tree ≡ value_tree (names_of p.now) instances.now v.now) }
{
    if let Some(node) = leaf(alloc, p, v)? {
        return Ok(Tree { node });
    }
    let mut tasks = Vec::new(alloc);
    let mut outer = Vec::new(alloc);
    let mut done = Vec::new(alloc);
    tasks.push(Task::Tell(v))?;
    while let Some(task) = tasks.pop() {
        step(alloc, p, instances, task, &mut tasks, &mut outer, &mut done)?;
    }
    Ok(done.swap_remove(0))
}
