// What stands at the roots of trees. Most trees are of few alternatives and names: each is kept once, where it was met
// lately.
ghost use Rattle.std.specs.Prelude.{◌≡◌, ◌<◌, ◌++◌, List, [], length, true, IfOk, IfSome};
ghost use Rattle.std.proofs.Common.{get_or};
ghost use Rattle.sp_ast.specs.declared.heads.Head.{Head};
ghost use Rattle.sp_ast.specs.declared.heads.Head.TheVariants as head_is;

use crate::forms::{
    BaseForm, BodyForm, DeclForm, ExprForm, Form, GuardForm, ItemForm, PartForm, StmtForm,
    TargetForm, TypeForm,
};
use sp_base::NoMemory;
use std::alloc::Global;
use std::marker::Model;

/// What stands at the root of a tree.
#[derive(Drop)]
pub(crate) enum Head {
    /// Parts in a row.
    Row,
    /// The alternative that the tree is of.
    Of(Form),
}

/// How many of them are looked up.
const RECENT: usize = 256;

/// What stands at roots, seen as its list.
#[derive(Drop)]
pub(crate) struct Heads {
    items: Vec<Head>,
    /// Where one of each kind was put last. It need not be there.
    recent: [u32; RECENT],
}

impl Model for Heads {
    ghost use Rattle.std.specs.Prelude.{List};
    ghost use Rattle.sp_ast.specs.declared.heads.Head.{Head};

    ghost Value = { List Head };

    ghost view = { λ h. h.items.items };
}

// Below, whether two are the same. Where they are and the answer is no, room is lost, and nothing else.

fn same_expr(a: &ExprForm, b: &ExprForm) -> bool
    ensures { result ≡ true → a.now ≡ b.now }
{
    match (a, b) {
        (ExprForm::Path, ExprForm::Path) => true,
        (ExprForm::Itself, ExprForm::Itself) => true,
        (ExprForm::Current, ExprForm::Current) => true,
        (ExprForm::True, ExprForm::True) => true,
        (ExprForm::False, ExprForm::False) => true,
        (ExprForm::Number(a), ExprForm::Number(b)) => *a == *b,
        (ExprForm::String(a), ExprForm::String(b)) => a.as_str() == b.as_str(),
        (ExprForm::Bytes(a), ExprForm::Bytes(b)) => a.as_slice() == b.as_slice(),
        (ExprForm::Regex(a), ExprForm::Regex(b)) => a.as_str() == b.as_str(),
        (ExprForm::Tuple, ExprForm::Tuple) => true,
        (ExprForm::Vector, ExprForm::Vector) => true,
        (ExprForm::Set, ExprForm::Set) => true,
        (ExprForm::Map, ExprForm::Map) => true,
        (ExprForm::EmptyVector, ExprForm::EmptyVector) => true,
        (ExprForm::EmptySet, ExprForm::EmptySet) => true,
        (ExprForm::EmptyMap, ExprForm::EmptyMap) => true,
        (ExprForm::TypedNumber(a), ExprForm::TypedNumber(b)) => *a == *b,
        (ExprForm::Cast, ExprForm::Cast) => true,
        (ExprForm::New, ExprForm::New) => true,
        (ExprForm::Size, ExprForm::Size) => true,
        (ExprForm::Choice, ExprForm::Choice) => true,
        (ExprForm::Member, ExprForm::Member) => true,
        (ExprForm::SetMember, ExprForm::SetMember) => true,
        (ExprForm::Index, ExprForm::Index) => true,
        (ExprForm::Call, ExprForm::Call) => true,
        (ExprForm::Unary(a), ExprForm::Unary(b)) => *a == *b,
        (ExprForm::Binary(a), ExprForm::Binary(b)) => *a == *b,
        _ => false,
    }
}

fn same_base(a: &BaseForm, b: &BaseForm) -> bool
    ensures { result ≡ true → a.now ≡ b.now }
{
    match (a, b) {
        (BaseForm::Type, BaseForm::Type) => true,
        (BaseForm::Unit, BaseForm::Unit) => true,
        (BaseForm::Group, BaseForm::Group) => true,
        (BaseForm::Bytes(a), BaseForm::Bytes(b)) => a.as_slice() == b.as_slice(),
        (BaseForm::Regex(a), BaseForm::Regex(b)) => a.as_str() == b.as_str(),
        (BaseForm::Number(a), BaseForm::Number(b)) => *a == *b,
        _ => false,
    }
}

fn same_target(a: &TargetForm, b: &TargetForm) -> bool
    ensures { result ≡ true → a.now ≡ b.now }
{
    match (a, b) {
        (TargetForm::Name(a), TargetForm::Name(b)) => a.as_str() == b.as_str(),
        (TargetForm::Hook(a), TargetForm::Hook(b)) => *a == *b,
        _ => false,
    }
}

fn same_form(a: &Form, b: &Form) -> bool
    ensures { result ≡ true → a.now ≡ b.now }
{
    match (a, b) {
        (Form::Name(a), Form::Name(b)) => a.as_str() == b.as_str(),
        (Form::String(a), Form::String(b)) => a.as_str() == b.as_str(),
        (Form::Number(a), Form::Number(b)) => *a == *b,
        (Form::HookName(a), Form::HookName(b)) => *a == *b,
        (Form::Path, Form::Path) => true,
        (Form::Expr(a), Form::Expr(b)) => same_expr(a, b),
        (Form::Pair, Form::Pair) => true,
        (Form::Type(a), Form::Type(b)) => *a == *b,
        (Form::Label, Form::Label) => true,
        (Form::Bits, Form::Bits) => true,
        (Form::Parameter { inout: a }, Form::Parameter { inout: b }) => *a == *b,
        (Form::Stmt(a), Form::Stmt(b)) => *a == *b,
        (Form::Block, Form::Block) => true,
        (Form::Branch, Form::Branch) => true,
        (Form::Case, Form::Case) => true,
        (Form::Item(a), Form::Item(b)) => *a == *b,
        (Form::Target(a), Form::Target(b)) => same_target(a, b),
        (Form::Part(a), Form::Part(b)) => *a == *b,
        (Form::Arm, Form::Arm) => true,
        (Form::Guard(a), Form::Guard(b)) => *a == *b,
        (Form::Body(a), Form::Body(b)) => *a == *b,
        (Form::Base(a), Form::Base(b)) => same_base(a, b),
        (Form::Count, Form::Count) => true,
        (Form::Attribute(a), Form::Attribute(b)) => *a == *b,
        (Form::Hook, Form::Hook) => true,
        (Form::HookBody { each: a }, Form::HookBody { each: b }) => *a == *b,
        (Form::Unit, Form::Unit) => true,
        (Form::Field, Form::Field) => true,
        (Form::Decl(a), Form::Decl(b)) => *a == *b,
        (Form::Module, Form::Module) => true,
        _ => false,
    }
}

fn same_head(a: &Head, b: &Head) -> bool
    ensures { result ≡ true → a.now ≡ b.now }
{
    match (a, b) {
        (Head::Row, Head::Row) => true,
        (Head::Of(a), Head::Of(b)) => same_form(a, b),
        _ => false,
    }
}

// Below, where one is looked up: numbers that keep the common ones apart.

fn near_bytes(bytes: &[u8]) -> u8 {
    let mut sum: u32 = 0;
    for byte in bytes {
        sum = sum.wrapping_mul(31).wrapping_add(u32::from(*byte));
    }
    (sum % 128) as u8 + 128
}

fn near_number(number: u64) -> u8 {
    (number % 128) as u8 + 128
}

fn near_type(form: TypeForm) -> u8 {
    match form {
        TypeForm::Path => 20,
        TypeForm::Bool => 21,
        TypeForm::Bytes => 22,
        TypeForm::String => 23,
        TypeForm::Void => 24,
        TypeForm::Int(word) => 24 + word.width() / 8,
        TypeForm::Tuple => 33,
        TypeForm::Vector => 34,
        TypeForm::Set => 35,
        TypeForm::Map => 36,
        TypeForm::Enum => 37,
        TypeForm::Bitfield => 38,
        TypeForm::Unit => 39,
    }
}

fn near_stmt(form: StmtForm) -> u8 {
    match form {
        StmtForm::Block => 40,
        StmtForm::Local => 41,
        StmtForm::If => 42,
        StmtForm::While => 43,
        StmtForm::For => 44,
        StmtForm::Switch => 45,
        StmtForm::Return => 46,
        StmtForm::Break => 47,
        StmtForm::Continue => 48,
        StmtForm::Stop => 49,
        StmtForm::Confirm => 50,
        StmtForm::Reject => 51,
        StmtForm::Print => 52,
        StmtForm::Throw => 53,
        StmtForm::Assert => 54,
        StmtForm::Add => 55,
        StmtForm::Delete => 56,
        StmtForm::Expr => 57,
        StmtForm::Assign(_) => 58,
    }
}

fn near_expr(form: &ExprForm) -> u8 {
    match form {
        ExprForm::Path => 60,
        ExprForm::Itself => 61,
        ExprForm::Current => 62,
        ExprForm::True => 63,
        ExprForm::False => 64,
        ExprForm::Number(number) => near_number(*number),
        ExprForm::String(text) | ExprForm::Regex(text) => near_bytes(text.as_str().as_bytes()),
        ExprForm::Bytes(bytes) => near_bytes(bytes.as_slice()),
        ExprForm::Tuple => 65,
        ExprForm::Vector => 66,
        ExprForm::Set => 67,
        ExprForm::Map => 68,
        ExprForm::EmptyVector => 69,
        ExprForm::EmptySet => 70,
        ExprForm::EmptyMap => 71,
        ExprForm::TypedNumber(_) => 72,
        ExprForm::Cast => 73,
        ExprForm::New => 74,
        ExprForm::Size => 75,
        ExprForm::Choice => 76,
        ExprForm::Member => 77,
        ExprForm::SetMember => 78,
        ExprForm::Index => 79,
        ExprForm::Call => 80,
        ExprForm::Unary(_) => 81,
        ExprForm::Binary(op) => 82 + op.level(),
    }
}

fn near_item(form: ItemForm) -> u8 {
    match form {
        ItemForm::Part => 100,
        ItemForm::Variable => 101,
        ItemForm::On => 102,
        _ => 103,
    }
}

fn near_base(form: &BaseForm) -> u8 {
    match form {
        BaseForm::Type => 104,
        BaseForm::Unit => 105,
        BaseForm::Group => 106,
        BaseForm::Number(_) => 107,
        BaseForm::Bytes(bytes) => near_bytes(bytes.as_slice()),
        BaseForm::Regex(text) => near_bytes(text.as_str().as_bytes()),
    }
}

fn near_form(form: &Form) -> u8 {
    match form {
        Form::Name(text) | Form::String(text) => near_bytes(text.as_str().as_bytes()),
        Form::Number(number) => near_number(*number),
        Form::HookName(_) | Form::Target(_) => 1,
        Form::Path => 2,
        Form::Expr(form) => near_expr(form),
        Form::Pair => 3,
        Form::Type(form) => near_type(*form),
        Form::Label => 4,
        Form::Bits => 5,
        Form::Parameter { .. } => 6,
        Form::Stmt(form) => near_stmt(*form),
        Form::Block => 7,
        Form::Branch => 8,
        Form::Case => 9,
        Form::Item(form) => near_item(*form),
        Form::Part(_) => 10,
        Form::Arm => 11,
        Form::Guard(_) => 12,
        Form::Body(_) => 13,
        Form::Base(form) => near_base(form),
        Form::Count => 14,
        Form::Attribute(_) => 15,
        Form::Hook => 16,
        Form::HookBody { .. } => 17,
        Form::Unit => 18,
        Form::Field => 19,
        Form::Decl(_) => 108,
        Form::Module => 109,
    }
}

fn near(head: &Head) -> u8 {
    match head {
        Head::Row => 0,
        Head::Of(form) => near_form(form),
    }
}

impl Heads {
    /// None. Takes no memory.
    pub(crate) fn new(alloc: Global) -> Heads
        ensures { result ≡ [] }
    {
        Heads {
            items: Vec::new(alloc),
            recent: [0; RECENT],
        }
    }

    /// The one at a place.
    pub(crate) fn get(&self, at: u32) -> &Head
        requires { at < length self.now }
        ensures { result.now ≡ get_or self.now at head_is.Row }
    {
        &self.items[at as usize]
    }

    /// Where one stands already, if it is found.
    fn found(&self, near: u8, head: &Head) -> Option<u32>
        ensures { IfSome result (λ at. (at < length self.now)
            × (get_or self.now at head_is.Row ≡ head.now)) }
    {
        let at = self.recent[usize::from(near)];
        let there = self.items.get(at as usize)?;
        if same_head(there, head) {
            return Some(at);
        }
        None
    }

    /// Keeps one, and answers where.
    pub(crate) fn keep(&mut self, head: Head) -> Result<u32, NoMemory>
        ensures at { IfOk result (λ at. (at < length self.new)
            × (get_or self.new at head_is.Row ≡ head)) }
        ensures stay { (more : List Head) × (self.new ≡ self.old ++ more) }
    {
        let near = near(&head);
        if let Some(at) = self.found(near, &head) {
            drop(head);
            return Ok(at);
        }
        let Ok(at) = u32::try_from(self.items.len()) else {
            drop(head);
            return Err(NoMemory);
        };
        self.items.push(head)?;
        self.recent[usize::from(near)] = at;
        Ok(at)
    }
}
