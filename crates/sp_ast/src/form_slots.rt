// What the parts of a tree of each alternative are, in the order of the text.
ghost use Rattle.std.specs.Prelude.{◌≡◌};
ghost use Rattle.sp_ast.specs.Slots.{slots, expr_slots, type_slots, stmt_slots, item_slots, part_slots, guard_slots, body_slots, base_slots, decl_slots};

use crate::forms::{
    BaseForm, BodyForm, DeclForm, ExprForm, Form, GuardForm, ItemForm, PartForm, StmtForm, TypeForm,
};
use crate::groups::{Group, Slot, Sort};

const NAME: Slot = Slot::Part(Sort::One(Group::Names));

const TEXT: Slot = Slot::Part(Sort::One(Group::Strings));

const NUMBER: Slot = Slot::Part(Sort::One(Group::Numbers));

const PATH: Slot = Slot::Part(Sort::One(Group::Paths));

const EXPR: Slot = Slot::Part(Sort::One(Group::Expressions));

const TYPE: Slot = Slot::Part(Sort::One(Group::Types));

const STMT: Slot = Slot::Part(Sort::One(Group::Statements));

const BLOCK: Slot = Slot::Part(Sort::One(Group::Blocks));

const PART: Slot = Slot::Part(Sort::One(Group::Parts));

const BASE: Slot = Slot::Part(Sort::One(Group::Bases));

const HOOK: Slot = Slot::Part(Sort::One(Group::Hooks));

const HOOK_BODY: Slot = Slot::Part(Sort::One(Group::HookBodies));

const MAYBE_NAME: Slot = Slot::Part(Sort::Optional(Group::Names));

const MAYBE_TEXT: Slot = Slot::Part(Sort::Optional(Group::Strings));

const MAYBE_NUMBER: Slot = Slot::Part(Sort::Optional(Group::Numbers));

const MAYBE_EVENT: Slot = Slot::Part(Sort::Optional(Group::HookNames));

const MAYBE_EXPR: Slot = Slot::Part(Sort::Optional(Group::Expressions));

const MAYBE_TYPE: Slot = Slot::Part(Sort::Optional(Group::Types));

const MAYBE_STMT: Slot = Slot::Part(Sort::Optional(Group::Statements));

const ROW_OF_EXPRS: Slot = Slot::Part(Sort::Rows(Group::Expressions));

const ROW_OF_RANGES: Slot = Slot::Part(Sort::Rows(Group::Ranges));

const ROW_OF_PARAMETERS: Slot = Slot::Part(Sort::Rows(Group::Parameters));

const ROW_OF_BRANCHES: Slot = Slot::Part(Sort::Rows(Group::Branches));

const ROW_OF_CASES: Slot = Slot::Part(Sort::Rows(Group::Cases));

const ROW_OF_ITEMS: Slot = Slot::Part(Sort::Rows(Group::Items));

const ROW_OF_ARMS: Slot = Slot::Part(Sort::Rows(Group::Arms));

const ROW_OF_COUNTS: Slot = Slot::Part(Sort::Rows(Group::Counts));

const ROW_OF_ATTRIBUTES: Slot = Slot::Part(Sort::Rows(Group::Attributes));

const ROW_OF_HOOK_BODIES: Slot = Slot::Part(Sort::Rows(Group::HookBodies));

const ROW_OF_DECLS: Slot = Slot::Part(Sort::Rows(Group::Declarations));

static NOTHING: [Slot; 0] = [];

static A_NAME: [Slot; 1] = [NAME];

static A_TEXT: [Slot; 1] = [TEXT];

static A_NUMBER: [Slot; 1] = [NUMBER];

static A_PATH: [Slot; 1] = [PATH];

static A_TYPE: [Slot; 1] = [TYPE];

static A_BLOCK: [Slot; 1] = [BLOCK];

static A_PART: [Slot; 1] = [PART];

static A_FIELD: [Slot; 1] = [Slot::Part(Sort::One(Group::Fields))];

static A_UNIT: [Slot; 1] = [Slot::Part(Sort::One(Group::Units))];

static OPERAND: [Slot; 1] = [EXPR];

static OPERANDS: [Slot; 2] = [EXPR, EXPR];

static MAYBE_VALUE: [Slot; 1] = [MAYBE_EXPR];

static KEY_AND_VALUE: [Slot; 2] = [TYPE, TYPE];

static PATH_AND_ARGUMENTS: [Slot; 2] = [PATH, ROW_OF_EXPRS];

static ALL_NAMES: [Slot; 1] = [Slot::Several(Group::Names)];

static ALL_EXPRS: [Slot; 1] = [Slot::Several(Group::Expressions)];

static ALL_PAIRS: [Slot; 1] = [Slot::Several(Group::Pairs)];

static ALL_TYPES: [Slot; 1] = [Slot::Several(Group::Types)];

static ALL_LABELS: [Slot; 1] = [Slot::Several(Group::Labels)];

static ALL_STMTS: [Slot; 1] = [Slot::Several(Group::Statements)];

static ALL_PARTS: [Slot; 1] = [Slot::Several(Group::Parts)];

static CAST: [Slot; 2] = [TYPE, EXPR];

static CHOICE: [Slot; 3] = [EXPR, EXPR, EXPR];

static MEMBER: [Slot; 2] = [EXPR, NAME];

static CALL: [Slot; 2] = [EXPR, ROW_OF_EXPRS];

static LABEL: [Slot; 2] = [NAME, MAYBE_EXPR];

static BITS: [Slot; 3] = [NAME, NUMBER, MAYBE_NUMBER];

static BITFIELD: [Slot; 2] = [NUMBER, ROW_OF_RANGES];

static TYPED_NAME: [Slot; 2] = [NAME, TYPE];

static LOCAL: [Slot; 3] = [NAME, MAYBE_TYPE, MAYBE_EXPR];

static IF: [Slot; 2] = [ROW_OF_BRANCHES, MAYBE_STMT];

static GUARDED: [Slot; 2] = [EXPR, STMT];

static FOR: [Slot; 3] = [NAME, EXPR, STMT];

static SWITCH: [Slot; 3] = [EXPR, ROW_OF_CASES, MAYBE_STMT];

static ASSERT: [Slot; 2] = [EXPR, MAYBE_TEXT];

static CASE: [Slot; 2] = [ROW_OF_EXPRS, STMT];

static UNIT: [Slot; 2] = [ROW_OF_PARAMETERS, ROW_OF_ITEMS];

static VARIABLE: [Slot; 3] = [NAME, TYPE, MAYBE_EXPR];

static ON_TARGET: [Slot; 2] = [Slot::Part(Sort::One(Group::Targets)), HOOK];

static SWITCH_PART: [Slot; 2] = [MAYBE_EXPR, ROW_OF_ARMS];

static ARM: [Slot; 2] = [
    Slot::Part(Sort::One(Group::Guards)),
    Slot::Part(Sort::One(Group::Bodies)),
];

static FIELD: [Slot; 7] = [
    MAYBE_NAME,
    BASE,
    ROW_OF_COUNTS,
    ROW_OF_ATTRIBUTES,
    MAYBE_EXPR,
    MAYBE_EXPR,
    ROW_OF_HOOK_BODIES,
];

static GROUP: [Slot; 3] = [BASE, ROW_OF_COUNTS, ROW_OF_ATTRIBUTES];

static HOOK_PARTS: [Slot; 2] = [ROW_OF_PARAMETERS, HOOK_BODY];

static HOOK_BODY_PARTS: [Slot; 2] = [MAYBE_EXPR, BLOCK];

static ON_PATH: [Slot; 3] = [PATH, MAYBE_EVENT, HOOK];

static CONST: [Slot; 3] = [NAME, MAYBE_TYPE, EXPR];

static FUNCTION: [Slot; 4] = [NAME, ROW_OF_PARAMETERS, MAYBE_TYPE, BLOCK];

static MODULE: [Slot; 2] = [NAME, ROW_OF_DECLS];

fn expr_slots(form: &ExprForm) -> &'static [Slot]
    ensures { result.now ≡ expr_slots form.now }
{
    match form {
        ExprForm::Path => &A_PATH,
        ExprForm::Itself | ExprForm::Current | ExprForm::True | ExprForm::False => &NOTHING,
        ExprForm::Number(_) | ExprForm::String(_) | ExprForm::Bytes(_) | ExprForm::Regex(_) =>
            &NOTHING,
        ExprForm::Tuple | ExprForm::Vector | ExprForm::Set => &ALL_EXPRS,
        ExprForm::Map => &ALL_PAIRS,
        ExprForm::EmptyVector | ExprForm::EmptySet => &A_TYPE,
        ExprForm::EmptyMap => &KEY_AND_VALUE,
        ExprForm::TypedNumber(_) => &A_NUMBER,
        ExprForm::Cast => &CAST,
        ExprForm::New => &PATH_AND_ARGUMENTS,
        ExprForm::Size | ExprForm::Unary(_) => &OPERAND,
        ExprForm::Choice => &CHOICE,
        ExprForm::Member | ExprForm::SetMember => &MEMBER,
        ExprForm::Index | ExprForm::Binary(_) => &OPERANDS,
        ExprForm::Call => &CALL,
    }
}

fn type_slots(form: &TypeForm) -> &'static [Slot]
    ensures { result.now ≡ type_slots form.now }
{
    match form {
        TypeForm::Path => &A_PATH,
        TypeForm::Bool | TypeForm::Bytes | TypeForm::String | TypeForm::Void => &NOTHING,
        TypeForm::Int(_) => &NOTHING,
        TypeForm::Tuple => &ALL_TYPES,
        TypeForm::Vector | TypeForm::Set => &A_TYPE,
        TypeForm::Map => &KEY_AND_VALUE,
        TypeForm::Enum => &ALL_LABELS,
        TypeForm::Bitfield => &BITFIELD,
        TypeForm::Unit => &A_UNIT,
    }
}

fn stmt_slots(form: &StmtForm) -> &'static [Slot]
    ensures { result.now ≡ stmt_slots form.now }
{
    match form {
        StmtForm::Block => &A_BLOCK,
        StmtForm::Local => &LOCAL,
        StmtForm::If => &IF,
        StmtForm::While => &GUARDED,
        StmtForm::For => &FOR,
        StmtForm::Switch => &SWITCH,
        StmtForm::Return => &MAYBE_VALUE,
        StmtForm::Break | StmtForm::Continue | StmtForm::Stop => &NOTHING,
        StmtForm::Confirm | StmtForm::Reject => &NOTHING,
        StmtForm::Print => &ALL_EXPRS,
        StmtForm::Throw | StmtForm::Add | StmtForm::Delete | StmtForm::Expr => &OPERAND,
        StmtForm::Assert => &ASSERT,
        StmtForm::Assign(_) => &OPERANDS,
    }
}

fn item_slots(form: &ItemForm) -> &'static [Slot]
    ensures { result.now ≡ item_slots form.now }
{
    match form {
        ItemForm::Filter => &NOTHING,
        ItemForm::ByteOrder => &A_PATH,
        ItemForm::MimeType | ItemForm::Description => &A_TEXT,
        ItemForm::Variable => &VARIABLE,
        ItemForm::Sink => &A_NAME,
        ItemForm::On => &ON_TARGET,
        ItemForm::Part => &A_PART,
    }
}

fn part_slots(form: &PartForm) -> &'static [Slot]
    ensures { result.now ≡ part_slots form.now }
{
    match form {
        PartForm::Field => &A_FIELD,
        PartForm::Switch => &SWITCH_PART,
    }
}

fn guard_slots(form: &GuardForm) -> &'static [Slot]
    ensures { result.now ≡ guard_slots form.now }
{
    match form {
        GuardForm::Otherwise | GuardForm::LookAhead => &NOTHING,
        GuardForm::Values => &ALL_EXPRS,
    }
}

fn body_slots(form: &BodyForm) -> &'static [Slot]
    ensures { result.now ≡ body_slots form.now }
{
    match form {
        BodyForm::Nothing => &NOTHING,
        BodyForm::One => &A_PART,
        BodyForm::Many => &ALL_PARTS,
    }
}

fn base_slots(form: &BaseForm) -> &'static [Slot]
    ensures { result.now ≡ base_slots form.now }
{
    match form {
        BaseForm::Type => &A_TYPE,
        BaseForm::Unit => &PATH_AND_ARGUMENTS,
        BaseForm::Group => &GROUP,
        BaseForm::Bytes(_) | BaseForm::Regex(_) => &NOTHING,
        BaseForm::Number(_) => &A_NUMBER,
    }
}

fn decl_slots(form: &DeclForm) -> &'static [Slot]
    ensures { result.now ≡ decl_slots form.now }
{
    match form {
        DeclForm::Import => &A_NAME,
        DeclForm::ByteOrder => &A_PATH,
        DeclForm::Version => &A_TEXT,
        DeclForm::On => &ON_PATH,
        DeclForm::Type { .. } => &TYPED_NAME,
        DeclForm::Const { .. } => &CONST,
        DeclForm::Function { .. } => &FUNCTION,
    }
}

/// What the parts of a tree of this alternative are, in the order of the text.
pub fn slots(form: &Form) -> &'static [Slot]
    ensures { result.now ≡ slots form.now }
{
    match form {
        Form::Name(_) | Form::String(_) | Form::Number(_) | Form::HookName(_) => &NOTHING,
        Form::Target(_) => &NOTHING,
        Form::Path => &ALL_NAMES,
        Form::Expr(expr) => expr_slots(expr),
        Form::Pair => &OPERANDS,
        Form::Type(type_form) => type_slots(type_form),
        Form::Label => &LABEL,
        Form::Bits => &BITS,
        Form::Parameter { .. } => &TYPED_NAME,
        Form::Stmt(stmt) => stmt_slots(stmt),
        Form::Block => &ALL_STMTS,
        Form::Branch => &GUARDED,
        Form::Case => &CASE,
        Form::Unit => &UNIT,
        Form::Item(item) => item_slots(item),
        Form::Part(part) => part_slots(part),
        Form::Arm => &ARM,
        Form::Guard(guard) => guard_slots(guard),
        Form::Body(body) => body_slots(body),
        Form::Base(base) => base_slots(base),
        Form::Field => &FIELD,
        Form::Count | Form::Attribute(_) => &MAYBE_VALUE,
        Form::Hook => &HOOK_PARTS,
        Form::HookBody { .. } => &HOOK_BODY_PARTS,
        Form::Decl(decl) => decl_slots(decl),
        Form::Module => &MODULE,
    }
}
