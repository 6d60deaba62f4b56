// What each action builds of the trees before it.
ghost use Rattle.std.specs.Prelude.{◌≡◌};
ghost use Rattle.sp_build.specs.Rules.{rule, operation, prefixed};
ghost use Rattle.sp_build.specs.inside.RuleViews.{rule_view};

use sp_ast::{
    BaseForm, BodyForm, DeclForm, ExprForm, Form, Group, GuardForm, ItemForm, PartForm, StmtForm,
    TypeForm,
};
use sp_grammar::Action;
use sp_words::{BinaryOp, UnaryOp};

/// What a token is built as.
#[derive(Drop)]
pub(crate) enum Leaf {
    /// Always the same.
    Always(Form),
    Name,
    NameTarget,
    String,
    StringExpr,
    BytesExpr,
    BytesBase,
    RegexExpr,
    RegexBase,
    Number,
    NumberExpr,
    IntType,
    HookName,
    HookTarget,
}

/// What is built by the integer type at which it began.
#[derive(Clone, Copy, PartialEq, Eq)]
pub(crate) enum Worded {
    TypedNumber,
    NumberBase,
    IntType,
}

/// What an action does.
#[derive(Drop)]
pub(crate) enum Rule {
    /// A tree begins at the next token.
    Begins,
    /// A part is left out.
    LeavesOut,
    /// A tree of the next token.
    Takes(Leaf),
    /// All trees since one began, in a row.
    Gathers,
    /// A tree with the parts of its alternative, since it began.
    Closes(Form),
    /// The same, by the integer type at which it began.
    ClosesInteger(Worded),
    /// The same, an attribute, by the word at which it began.
    ClosesAttribute,
    /// An expression in parentheses.
    Encloses,
    /// A tree of the last parts.
    Joins(Form),
    /// A tree of one tree, on the same text.
    Wraps(Group, Form),
}

fn operation(op: BinaryOp) -> Rule
    ensures { rule_view result ≡ operation op }
{
    Rule::Joins(Form::Expr(ExprForm::Binary(op)))
}

fn prefixed(op: UnaryOp) -> Rule
    ensures { rule_view result ≡ prefixed op }
{
    Rule::Closes(Form::Expr(ExprForm::Unary(op)))
}

/// What an action does.
pub(crate) fn rule_of(action: Action) -> Rule
    ensures { rule_view result ≡ rule action }
{
    match action {
        Action::Begin => Rule::Begins,
        Action::Absent => Rule::LeavesOut,
        Action::Row => Rule::Gathers,
        Action::Name => Rule::Takes(Leaf::Name),
        Action::String => Rule::Takes(Leaf::String),
        Action::Number => Rule::Takes(Leaf::Number),
        Action::HookName => Rule::Takes(Leaf::HookName),
        Action::Path => Rule::Closes(Form::Path),
        Action::ModuleDecl => Rule::Closes(Form::Module),
        Action::ImportDecl => Rule::Closes(Form::Decl(DeclForm::Import)),
        Action::ByteOrderDecl => Rule::Closes(Form::Decl(DeclForm::ByteOrder)),
        Action::VersionDecl => Rule::Closes(Form::Decl(DeclForm::Version)),
        Action::TypeDecl => Rule::Closes(Form::Decl(DeclForm::Type { public: false })),
        Action::PublicTypeDecl => Rule::Closes(Form::Decl(DeclForm::Type { public: true })),
        Action::ConstDecl => Rule::Closes(Form::Decl(DeclForm::Const { public: false })),
        Action::PublicConstDecl => Rule::Closes(Form::Decl(DeclForm::Const { public: true })),
        Action::FunctionDecl => Rule::Closes(Form::Decl(DeclForm::Function { public: false })),
        Action::PublicFunctionDecl => Rule::Closes(Form::Decl(DeclForm::Function { public: true })),
        Action::OnDecl => Rule::Closes(Form::Decl(DeclForm::On)),
        Action::Hook => Rule::Closes(Form::Hook),
        Action::EachBody => Rule::Closes(Form::HookBody { each: true }),
        Action::HookBody => Rule::Closes(Form::HookBody { each: false }),
        Action::InoutParameter => Rule::Closes(Form::Parameter { inout: true }),
        Action::Parameter => Rule::Closes(Form::Parameter { inout: false }),
        Action::PathType => Rule::Wraps(Group::Paths, Form::Type(TypeForm::Path)),
        Action::IntType => Rule::Takes(Leaf::IntType),
        Action::BoolType => Rule::Takes(Leaf::Always(Form::Type(TypeForm::Bool))),
        Action::BytesType => Rule::Takes(Leaf::Always(Form::Type(TypeForm::Bytes))),
        Action::StringType => Rule::Takes(Leaf::Always(Form::Type(TypeForm::String))),
        Action::VoidType => Rule::Takes(Leaf::Always(Form::Type(TypeForm::Void))),
        Action::TupleType => Rule::Closes(Form::Type(TypeForm::Tuple)),
        Action::VectorType => Rule::Closes(Form::Type(TypeForm::Vector)),
        Action::SetType => Rule::Closes(Form::Type(TypeForm::Set)),
        Action::MapType => Rule::Closes(Form::Type(TypeForm::Map)),
        Action::EnumType => Rule::Closes(Form::Type(TypeForm::Enum)),
        Action::BitfieldType => Rule::Closes(Form::Type(TypeForm::Bitfield)),
        Action::Unit => Rule::Closes(Form::Unit),
        Action::UnitType => Rule::Wraps(Group::Units, Form::Type(TypeForm::Unit)),
        Action::Label => Rule::Closes(Form::Label),
        Action::Bits => Rule::Closes(Form::Bits),
        Action::FilterItem => Rule::Closes(Form::Item(ItemForm::Filter)),
        Action::ByteOrderItem => Rule::Closes(Form::Item(ItemForm::ByteOrder)),
        Action::MimeTypeItem => Rule::Closes(Form::Item(ItemForm::MimeType)),
        Action::DescriptionItem => Rule::Closes(Form::Item(ItemForm::Description)),
        Action::VariableItem => Rule::Closes(Form::Item(ItemForm::Variable)),
        Action::SinkItem => Rule::Closes(Form::Item(ItemForm::Sink)),
        Action::OnItem => Rule::Closes(Form::Item(ItemForm::On)),
        Action::NameTarget => Rule::Takes(Leaf::NameTarget),
        Action::HookTarget => Rule::Takes(Leaf::HookTarget),
        Action::PartItem => Rule::Wraps(Group::Parts, Form::Item(ItemForm::Part)),
        Action::SwitchPart => Rule::Closes(Form::Part(PartForm::Switch)),
        Action::Arm => Rule::Closes(Form::Arm),
        Action::OtherwiseGuard => Rule::Takes(Leaf::Always(Form::Guard(GuardForm::Otherwise))),
        Action::ValuesGuard => Rule::Closes(Form::Guard(GuardForm::Values)),
        Action::LookAheadGuard => Rule::Takes(Leaf::Always(Form::Guard(GuardForm::LookAhead))),
        Action::NothingBody => Rule::Takes(Leaf::Always(Form::Body(BodyForm::Nothing))),
        Action::OneBody => Rule::Closes(Form::Body(BodyForm::One)),
        Action::ManyBody => Rule::Closes(Form::Body(BodyForm::Many)),
        Action::Field => Rule::Closes(Form::Field),
        Action::FieldPart => Rule::Wraps(Group::Fields, Form::Part(PartForm::Field)),
        Action::Count => Rule::Closes(Form::Count),
        Action::Attribute => Rule::ClosesAttribute,
        Action::TypeBase => Rule::Wraps(Group::Types, Form::Base(BaseForm::Type)),
        Action::UnitBase => Rule::Joins(Form::Base(BaseForm::Unit)),
        Action::BytesBase => Rule::Takes(Leaf::BytesBase),
        Action::RegexBase => Rule::Takes(Leaf::RegexBase),
        Action::NumberBase => Rule::ClosesInteger(Worded::NumberBase),
        Action::IntBase => Rule::ClosesInteger(Worded::IntType),
        Action::GroupBase => Rule::Closes(Form::Base(BaseForm::Group)),
        Action::Block => Rule::Closes(Form::Block),
        Action::BlockStmt => Rule::Wraps(Group::Blocks, Form::Stmt(StmtForm::Block)),
        Action::LocalStmt => Rule::Closes(Form::Stmt(StmtForm::Local)),
        Action::IfStmt => Rule::Closes(Form::Stmt(StmtForm::If)),
        Action::Branch => Rule::Closes(Form::Branch),
        Action::WhileStmt => Rule::Closes(Form::Stmt(StmtForm::While)),
        Action::ForStmt => Rule::Closes(Form::Stmt(StmtForm::For)),
        Action::SwitchStmt => Rule::Closes(Form::Stmt(StmtForm::Switch)),
        Action::Case => Rule::Closes(Form::Case),
        Action::ReturnStmt => Rule::Closes(Form::Stmt(StmtForm::Return)),
        Action::BreakStmt => Rule::Closes(Form::Stmt(StmtForm::Break)),
        Action::ContinueStmt => Rule::Closes(Form::Stmt(StmtForm::Continue)),
        Action::StopStmt => Rule::Closes(Form::Stmt(StmtForm::Stop)),
        Action::ConfirmStmt => Rule::Closes(Form::Stmt(StmtForm::Confirm)),
        Action::RejectStmt => Rule::Closes(Form::Stmt(StmtForm::Reject)),
        Action::PrintStmt => Rule::Closes(Form::Stmt(StmtForm::Print)),
        Action::ThrowStmt => Rule::Closes(Form::Stmt(StmtForm::Throw)),
        Action::AssertStmt => Rule::Closes(Form::Stmt(StmtForm::Assert)),
        Action::AddStmt => Rule::Closes(Form::Stmt(StmtForm::Add)),
        Action::DeleteStmt => Rule::Closes(Form::Stmt(StmtForm::Delete)),
        Action::ExprStmt => Rule::Closes(Form::Stmt(StmtForm::Expr)),
        Action::Assign(op) => Rule::Closes(Form::Stmt(StmtForm::Assign(op))),
        Action::Choice => Rule::Joins(Form::Expr(ExprForm::Choice)),
        Action::Binary(op) => operation(op),
        Action::Unary(op) => prefixed(op),
        Action::Member => Rule::Joins(Form::Expr(ExprForm::Member)),
        Action::SetMember => Rule::Joins(Form::Expr(ExprForm::SetMember)),
        Action::Index => Rule::Joins(Form::Expr(ExprForm::Index)),
        Action::Call => Rule::Joins(Form::Expr(ExprForm::Call)),
        Action::PathExpr => Rule::Wraps(Group::Paths, Form::Expr(ExprForm::Path)),
        Action::SelfExpr => Rule::Takes(Leaf::Always(Form::Expr(ExprForm::Itself))),
        Action::CurrentExpr => Rule::Takes(Leaf::Always(Form::Expr(ExprForm::Current))),
        Action::NumberExpr => Rule::Takes(Leaf::NumberExpr),
        Action::StringExpr => Rule::Takes(Leaf::StringExpr),
        Action::BytesExpr => Rule::Takes(Leaf::BytesExpr),
        Action::RegexExpr => Rule::Takes(Leaf::RegexExpr),
        Action::TrueExpr => Rule::Takes(Leaf::Always(Form::Expr(ExprForm::True))),
        Action::FalseExpr => Rule::Takes(Leaf::Always(Form::Expr(ExprForm::False))),
        Action::Paren => Rule::Encloses,
        Action::TupleExpr => Rule::Closes(Form::Expr(ExprForm::Tuple)),
        Action::VectorExpr => Rule::Closes(Form::Expr(ExprForm::Vector)),
        Action::SetExpr => Rule::Closes(Form::Expr(ExprForm::Set)),
        Action::MapExpr => Rule::Closes(Form::Expr(ExprForm::Map)),
        Action::Pair => Rule::Closes(Form::Pair),
        Action::EmptyVectorExpr => Rule::Closes(Form::Expr(ExprForm::EmptyVector)),
        Action::EmptySetExpr => Rule::Closes(Form::Expr(ExprForm::EmptySet)),
        Action::EmptyMapExpr => Rule::Closes(Form::Expr(ExprForm::EmptyMap)),
        Action::TypedNumberExpr => Rule::ClosesInteger(Worded::TypedNumber),
        Action::CastExpr => Rule::Closes(Form::Expr(ExprForm::Cast)),
        Action::NewExpr => Rule::Closes(Form::Expr(ExprForm::New)),
        Action::SizeExpr => Rule::Closes(Form::Expr(ExprForm::Size)),
    }
}
