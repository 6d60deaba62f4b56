// The table of layouts: one for each alternative of the grammar.
ghost use Rattle.std.specs.Prelude.{◌≡◌, ◌<◌, length};
ghost use Rattle.sp_print.specs.Layouts.{layout};

use crate::layouts::{Frame, PartLayout, Piece, Place, Separator};
use sp_ast::{
    BaseForm, BodyForm, DeclForm, ExprForm, Form, GuardForm, ItemForm, PartForm, StmtForm, TypeForm,
};
use sp_lex::TokenKind;
use sp_words::{Keyword, Property, Punctuation};

const ALL_BY_COMMA: Piece = Piece::All(Separator::Comma);

const ALL: Piece = Piece::All(Separator::Nothing);

const ALL_BY_SCOPE: Piece = Piece::All(Separator::Scope);

const ARGUMENTS: Piece = Piece::Part(PartLayout::Arguments);

const HOOKS: Piece = Piece::Part(PartLayout::Hooks);

const PART: Piece = Piece::Part(PartLayout::One(Place::Anywhere));

const PART_CALLEE: Piece = Piece::Part(PartLayout::One(Place::Callee));

const PART_CONDITION: Piece = Piece::Part(PartLayout::One(Place::Condition));

const PART_LEFT: Piece = Piece::Part(PartLayout::One(Place::Left));

const PART_OBJECT: Piece = Piece::Part(PartLayout::One(Place::Object));

const PART_OPERAND: Piece = Piece::Part(PartLayout::One(Place::Operand));

const PART_RIGHT: Piece = Piece::Part(PartLayout::One(Place::Right));

const PART_SIZED: Piece = Piece::Part(PartLayout::One(Place::Sized));

const MAYBE_ARROW: Piece = Piece::Part(PartLayout::Optional(Frame::Arrow));

const MAYBE: Piece = Piece::Part(PartLayout::Optional(Frame::Bare));

const MAYBE_COLON: Piece = Piece::Part(PartLayout::Optional(Frame::Colon));

const MAYBE_DEFAULT: Piece = Piece::Part(PartLayout::Optional(Frame::Default));

const MAYBE_ELSE: Piece = Piece::Part(PartLayout::Optional(Frame::Else));

const MAYBE_EQUAL: Piece = Piece::Part(PartLayout::Optional(Frame::Equal));

const MAYBE_IF: Piece = Piece::Part(PartLayout::Optional(Frame::If));

const MAYBE_PARENTHESES: Piece = Piece::Part(PartLayout::Optional(Frame::Parentheses));

const MAYBE_PRIORITY: Piece = Piece::Part(PartLayout::Optional(Frame::Priority));

const MAYBE_SCOPE: Piece = Piece::Part(PartLayout::Optional(Frame::Scope));

const MAYBE_UP_TO: Piece = Piece::Part(PartLayout::Optional(Frame::UpTo));

const OWN: Piece = Piece::Own;

const ROW_BY_COMMA: Piece = Piece::Part(PartLayout::Row(Separator::Comma));

const ROW_BY_ELSE_IF: Piece = Piece::Part(PartLayout::Row(Separator::ElseIf));

const ROW: Piece = Piece::Part(PartLayout::Row(Separator::Nothing));

const ADD: Piece = Piece::Word(TokenKind::Keyword(Keyword::Add));

const ASSERT: Piece = Piece::Word(TokenKind::Keyword(Keyword::Assert));

const BITFIELD: Piece = Piece::Word(TokenKind::Keyword(Keyword::Bitfield));

const BOOL: Piece = Piece::Word(TokenKind::Keyword(Keyword::Bool));

const BREAK: Piece = Piece::Word(TokenKind::Keyword(Keyword::Break));

const BYTES: Piece = Piece::Word(TokenKind::Keyword(Keyword::Bytes));

const CASE: Piece = Piece::Word(TokenKind::Keyword(Keyword::Case));

const CAST: Piece = Piece::Word(TokenKind::Keyword(Keyword::Cast));

const CONFIRM: Piece = Piece::Word(TokenKind::Keyword(Keyword::Confirm));

const CONST: Piece = Piece::Word(TokenKind::Keyword(Keyword::Const));

const CONTINUE: Piece = Piece::Word(TokenKind::Keyword(Keyword::Continue));

const DELETE: Piece = Piece::Word(TokenKind::Keyword(Keyword::Delete));

const ENUM: Piece = Piece::Word(TokenKind::Keyword(Keyword::Enum));

const FALSE: Piece = Piece::Word(TokenKind::Keyword(Keyword::False));

const FOR: Piece = Piece::Word(TokenKind::Keyword(Keyword::For));

const FOREACH: Piece = Piece::Word(TokenKind::Keyword(Keyword::Foreach));

const FUNCTION: Piece = Piece::Word(TokenKind::Keyword(Keyword::Function));

const IF: Piece = Piece::Word(TokenKind::Keyword(Keyword::If));

const IMPORT: Piece = Piece::Word(TokenKind::Keyword(Keyword::Import));

const IN: Piece = Piece::Word(TokenKind::Keyword(Keyword::In));

const INOUT: Piece = Piece::Word(TokenKind::Keyword(Keyword::Inout));

const ITSELF: Piece = Piece::Word(TokenKind::Keyword(Keyword::Itself));

const LOCAL: Piece = Piece::Word(TokenKind::Keyword(Keyword::Local));

const MAP: Piece = Piece::Word(TokenKind::Keyword(Keyword::Map));

const MODULE: Piece = Piece::Word(TokenKind::Keyword(Keyword::Module));

const NEW: Piece = Piece::Word(TokenKind::Keyword(Keyword::New));

const ON: Piece = Piece::Word(TokenKind::Keyword(Keyword::On));

const PRINT: Piece = Piece::Word(TokenKind::Keyword(Keyword::Print));

const PUBLIC: Piece = Piece::Word(TokenKind::Keyword(Keyword::Public));

const REJECT: Piece = Piece::Word(TokenKind::Keyword(Keyword::Reject));

const RETURN: Piece = Piece::Word(TokenKind::Keyword(Keyword::Return));

const SET: Piece = Piece::Word(TokenKind::Keyword(Keyword::Set));

const SINK: Piece = Piece::Word(TokenKind::Keyword(Keyword::Sink));

const STOP: Piece = Piece::Word(TokenKind::Keyword(Keyword::Stop));

const STRING: Piece = Piece::Word(TokenKind::Keyword(Keyword::String));

const SWITCH: Piece = Piece::Word(TokenKind::Keyword(Keyword::Switch));

const THROW: Piece = Piece::Word(TokenKind::Keyword(Keyword::Throw));

const TRUE: Piece = Piece::Word(TokenKind::Keyword(Keyword::True));

const TUPLE: Piece = Piece::Word(TokenKind::Keyword(Keyword::Tuple));

const TYPE: Piece = Piece::Word(TokenKind::Keyword(Keyword::Type));

const UNIT: Piece = Piece::Word(TokenKind::Keyword(Keyword::Unit));

const VAR: Piece = Piece::Word(TokenKind::Keyword(Keyword::Var));

const VECTOR: Piece = Piece::Word(TokenKind::Keyword(Keyword::Vector));

const VOID: Piece = Piece::Word(TokenKind::Keyword(Keyword::Void));

const WHILE: Piece = Piece::Word(TokenKind::Keyword(Keyword::While));

const ARROW: Piece = Piece::Word(TokenKind::Punctuation(Punctuation::Arrow));

const BAR: Piece = Piece::Word(TokenKind::Punctuation(Punctuation::Bar));

const COLON: Piece = Piece::Word(TokenKind::Punctuation(Punctuation::Colon));

const COMMA: Piece = Piece::Word(TokenKind::Punctuation(Punctuation::Comma));

const DOLLAR_DOLLAR: Piece = Piece::Word(TokenKind::Punctuation(Punctuation::DollarDollar));

const DOT: Piece = Piece::Word(TokenKind::Punctuation(Punctuation::Dot));

const EQUAL: Piece = Piece::Word(TokenKind::Punctuation(Punctuation::Equal));

const GREATER: Piece = Piece::Word(TokenKind::Punctuation(Punctuation::Greater));

const LEFT_BRACE: Piece = Piece::Word(TokenKind::Punctuation(Punctuation::LeftBrace));

const LEFT_BRACKET: Piece = Piece::Word(TokenKind::Punctuation(Punctuation::LeftBracket));

const LEFT_PAREN: Piece = Piece::Word(TokenKind::Punctuation(Punctuation::LeftParen));

const LESS: Piece = Piece::Word(TokenKind::Punctuation(Punctuation::Less));

const QUESTION: Piece = Piece::Word(TokenKind::Punctuation(Punctuation::Question));

const QUESTION_DOT: Piece = Piece::Word(TokenKind::Punctuation(Punctuation::QuestionDot));

const RIGHT_BRACE: Piece = Piece::Word(TokenKind::Punctuation(Punctuation::RightBrace));

const RIGHT_BRACKET: Piece = Piece::Word(TokenKind::Punctuation(Punctuation::RightBracket));

const RIGHT_PAREN: Piece = Piece::Word(TokenKind::Punctuation(Punctuation::RightParen));

const SEMICOLON: Piece = Piece::Word(TokenKind::Punctuation(Punctuation::Semicolon));

const STAR: Piece = Piece::Word(TokenKind::Punctuation(Punctuation::Star));

const PERCENT_BYTE_ORDER: Piece = Piece::Word(TokenKind::Property(Property::ByteOrder));

const PERCENT_DESCRIPTION: Piece = Piece::Word(TokenKind::Property(Property::Description));

const PERCENT_FILTER: Piece = Piece::Word(TokenKind::Property(Property::Filter));

const PERCENT_MIME_TYPE: Piece = Piece::Word(TokenKind::Property(Property::MimeType));

const PERCENT_SPICY_VERSION: Piece = Piece::Word(TokenKind::Property(Property::SpicyVersion));

static OWN_LAYOUT: [Piece; 1] = [OWN];

static PATH_LAYOUT: [Piece; 1] = [ALL_BY_SCOPE];

static EXPR_PATH_LAYOUT: [Piece; 1] = [PART];

static EXPR_ITSELF_LAYOUT: [Piece; 1] = [ITSELF];

static EXPR_CURRENT_LAYOUT: [Piece; 1] = [DOLLAR_DOLLAR];

static EXPR_TRUE_LAYOUT: [Piece; 1] = [TRUE];

static EXPR_FALSE_LAYOUT: [Piece; 1] = [FALSE];

static EXPR_TUPLE_LAYOUT: [Piece; 3] = [LEFT_PAREN, ALL_BY_COMMA, RIGHT_PAREN];

static EXPR_VECTOR_LAYOUT: [Piece; 3] = [LEFT_BRACKET, ALL_BY_COMMA, RIGHT_BRACKET];

static EXPR_SET_LAYOUT: [Piece; 4] = [SET, LEFT_PAREN, ALL_BY_COMMA, RIGHT_PAREN];

static EXPR_MAP_LAYOUT: [Piece; 4] = [MAP, LEFT_PAREN, ALL_BY_COMMA, RIGHT_PAREN];

static EXPR_EMPTY_VECTOR_LAYOUT: [Piece; 6] = [
    VECTOR,
    LESS,
    PART,
    GREATER,
    LEFT_PAREN,
    RIGHT_PAREN,
];

static EXPR_EMPTY_SET_LAYOUT: [Piece; 6] = [SET, LESS, PART, GREATER, LEFT_PAREN, RIGHT_PAREN];

static EXPR_EMPTY_MAP_LAYOUT: [Piece; 8] = [
    MAP,
    LESS,
    PART,
    COMMA,
    PART,
    GREATER,
    LEFT_PAREN,
    RIGHT_PAREN,
];

static EXPR_TYPED_NUMBER_LAYOUT: [Piece; 4] = [OWN, LEFT_PAREN, PART, RIGHT_PAREN];

static EXPR_CAST_LAYOUT: [Piece; 7] = [CAST, LESS, PART, GREATER, LEFT_PAREN, PART, RIGHT_PAREN];

static EXPR_NEW_LAYOUT: [Piece; 3] = [NEW, PART, ARGUMENTS];

static EXPR_SIZE_LAYOUT: [Piece; 3] = [BAR, PART_SIZED, BAR];

static EXPR_CHOICE_LAYOUT: [Piece; 5] = [PART_CONDITION, QUESTION, PART, COLON, PART];

static EXPR_MEMBER_LAYOUT: [Piece; 3] = [PART_OBJECT, DOT, PART];

static EXPR_SET_MEMBER_LAYOUT: [Piece; 3] = [PART_OBJECT, QUESTION_DOT, PART];

static EXPR_INDEX_LAYOUT: [Piece; 4] = [PART_OBJECT, LEFT_BRACKET, PART, RIGHT_BRACKET];

static EXPR_CALL_LAYOUT: [Piece; 4] = [PART_CALLEE, LEFT_PAREN, ROW_BY_COMMA, RIGHT_PAREN];

static EXPR_UNARY_LAYOUT: [Piece; 2] = [OWN, PART_OPERAND];

static EXPR_BINARY_LAYOUT: [Piece; 3] = [PART_LEFT, OWN, PART_RIGHT];

static PAIR_LAYOUT: [Piece; 3] = [PART, COLON, PART];

static TYPE_BOOL_LAYOUT: [Piece; 1] = [BOOL];

static TYPE_BYTES_LAYOUT: [Piece; 1] = [BYTES];

static TYPE_STRING_LAYOUT: [Piece; 1] = [STRING];

static TYPE_VOID_LAYOUT: [Piece; 1] = [VOID];

static TYPE_TUPLE_LAYOUT: [Piece; 4] = [TUPLE, LESS, ALL_BY_COMMA, GREATER];

static TYPE_VECTOR_LAYOUT: [Piece; 4] = [VECTOR, LESS, PART, GREATER];

static TYPE_SET_LAYOUT: [Piece; 4] = [SET, LESS, PART, GREATER];

static TYPE_MAP_LAYOUT: [Piece; 6] = [MAP, LESS, PART, COMMA, PART, GREATER];

static TYPE_ENUM_LAYOUT: [Piece; 4] = [ENUM, LEFT_BRACE, ALL_BY_COMMA, RIGHT_BRACE];

static TYPE_BITFIELD_LAYOUT: [Piece; 7] = [
    BITFIELD,
    LEFT_PAREN,
    PART,
    RIGHT_PAREN,
    LEFT_BRACE,
    ROW,
    RIGHT_BRACE,
];

static LABEL_LAYOUT: [Piece; 2] = [PART, MAYBE_EQUAL];

static BITS_LAYOUT: [Piece; 5] = [PART, COLON, PART, MAYBE_UP_TO, SEMICOLON];

static PARAMETER_INOUT_LAYOUT: [Piece; 4] = [INOUT, PART, COLON, PART];

static STMT_LOCAL_LAYOUT: [Piece; 5] = [LOCAL, PART, MAYBE_COLON, MAYBE_EQUAL, SEMICOLON];

static STMT_IF_LAYOUT: [Piece; 3] = [IF, ROW_BY_ELSE_IF, MAYBE_ELSE];

static STMT_WHILE_LAYOUT: [Piece; 5] = [WHILE, LEFT_PAREN, PART, RIGHT_PAREN, PART];

static STMT_FOR_LAYOUT: [Piece; 7] = [FOR, LEFT_PAREN, PART, IN, PART, RIGHT_PAREN, PART];

static STMT_SWITCH_LAYOUT: [Piece; 8] = [
    SWITCH,
    LEFT_PAREN,
    PART,
    RIGHT_PAREN,
    LEFT_BRACE,
    ROW,
    MAYBE_DEFAULT,
    RIGHT_BRACE,
];

static STMT_RETURN_LAYOUT: [Piece; 3] = [RETURN, MAYBE, SEMICOLON];

static STMT_BREAK_LAYOUT: [Piece; 2] = [BREAK, SEMICOLON];

static STMT_CONTINUE_LAYOUT: [Piece; 2] = [CONTINUE, SEMICOLON];

static STMT_STOP_LAYOUT: [Piece; 2] = [STOP, SEMICOLON];

static STMT_CONFIRM_LAYOUT: [Piece; 2] = [CONFIRM, SEMICOLON];

static STMT_REJECT_LAYOUT: [Piece; 2] = [REJECT, SEMICOLON];

static STMT_PRINT_LAYOUT: [Piece; 3] = [PRINT, ALL_BY_COMMA, SEMICOLON];

static STMT_THROW_LAYOUT: [Piece; 3] = [THROW, PART, SEMICOLON];

static STMT_ASSERT_LAYOUT: [Piece; 4] = [ASSERT, PART, MAYBE_COLON, SEMICOLON];

static STMT_ADD_LAYOUT: [Piece; 3] = [ADD, PART, SEMICOLON];

static STMT_DELETE_LAYOUT: [Piece; 3] = [DELETE, PART, SEMICOLON];

static STMT_EXPR_LAYOUT: [Piece; 2] = [PART, SEMICOLON];

static STMT_ASSIGN_LAYOUT: [Piece; 4] = [PART, OWN, PART, SEMICOLON];

static BLOCK_LAYOUT: [Piece; 3] = [LEFT_BRACE, ALL, RIGHT_BRACE];

static BRANCH_LAYOUT: [Piece; 4] = [LEFT_PAREN, PART, RIGHT_PAREN, PART];

static CASE_LAYOUT: [Piece; 4] = [CASE, ROW_BY_COMMA, COLON, PART];

static ITEM_FILTER_LAYOUT: [Piece; 2] = [PERCENT_FILTER, SEMICOLON];

static ITEM_BYTE_ORDER_LAYOUT: [Piece; 4] = [PERCENT_BYTE_ORDER, EQUAL, PART, SEMICOLON];

static ITEM_MIME_TYPE_LAYOUT: [Piece; 4] = [PERCENT_MIME_TYPE, EQUAL, PART, SEMICOLON];

static ITEM_DESCRIPTION_LAYOUT: [Piece; 4] = [PERCENT_DESCRIPTION, EQUAL, PART, SEMICOLON];

static ITEM_VARIABLE_LAYOUT: [Piece; 6] = [VAR, PART, COLON, PART, MAYBE_EQUAL, SEMICOLON];

static ITEM_SINK_LAYOUT: [Piece; 3] = [SINK, PART, SEMICOLON];

static ITEM_ON_LAYOUT: [Piece; 3] = [ON, PART, PART];

static PART_SWITCH_LAYOUT: [Piece; 5] = [SWITCH, MAYBE_PARENTHESES, LEFT_BRACE, ROW, RIGHT_BRACE];

static ARM_LAYOUT: [Piece; 3] = [PART, ARROW, PART];

static GUARD_OTHERWISE_LAYOUT: [Piece; 1] = [STAR];

static GUARD_VALUES_LAYOUT: [Piece; 1] = [ALL_BY_COMMA];

static GUARD_LOOK_AHEAD_LAYOUT: [Piece; 0] = [];

static BODY_NOTHING_LAYOUT: [Piece; 1] = [SEMICOLON];

static BASE_UNIT_LAYOUT: [Piece; 4] = [PART, LEFT_PAREN, ROW_BY_COMMA, RIGHT_PAREN];

static BASE_GROUP_LAYOUT: [Piece; 5] = [LEFT_PAREN, PART, ROW, ROW, RIGHT_PAREN];

static COUNT_LAYOUT: [Piece; 3] = [LEFT_BRACKET, MAYBE, RIGHT_BRACKET];

static ATTRIBUTE_LAYOUT: [Piece; 2] = [OWN, MAYBE_EQUAL];

static HOOK_LAYOUT: [Piece; 2] = [ARGUMENTS, PART];

static HOOK_BODY_EACH_LAYOUT: [Piece; 3] = [FOREACH, MAYBE_PRIORITY, PART];

static HOOK_BODY_LAYOUT: [Piece; 2] = [MAYBE_PRIORITY, PART];

static UNIT_LAYOUT: [Piece; 5] = [UNIT, ARGUMENTS, LEFT_BRACE, ROW, RIGHT_BRACE];

static FIELD_LAYOUT: [Piece; 8] = [MAYBE, COLON, PART, ROW, ROW, MAYBE_IF, MAYBE_ARROW, HOOKS];

static DECL_IMPORT_LAYOUT: [Piece; 3] = [IMPORT, PART, SEMICOLON];

static DECL_VERSION_LAYOUT: [Piece; 4] = [PERCENT_SPICY_VERSION, EQUAL, PART, SEMICOLON];

static DECL_ON_LAYOUT: [Piece; 4] = [ON, PART, MAYBE_SCOPE, PART];

static DECL_TYPE_PUBLIC_LAYOUT: [Piece; 6] = [PUBLIC, TYPE, PART, EQUAL, PART, SEMICOLON];

static DECL_TYPE_LAYOUT: [Piece; 5] = [TYPE, PART, EQUAL, PART, SEMICOLON];

static DECL_CONST_PUBLIC_LAYOUT: [Piece; 7] = [
    PUBLIC,
    CONST,
    PART,
    MAYBE_COLON,
    EQUAL,
    PART,
    SEMICOLON,
];

static DECL_CONST_LAYOUT: [Piece; 6] = [CONST, PART, MAYBE_COLON, EQUAL, PART, SEMICOLON];

static DECL_FUNCTION_PUBLIC_LAYOUT: [Piece; 8] = [
    PUBLIC,
    FUNCTION,
    PART,
    LEFT_PAREN,
    ROW_BY_COMMA,
    RIGHT_PAREN,
    MAYBE_COLON,
    PART,
];

static DECL_FUNCTION_LAYOUT: [Piece; 7] = [
    FUNCTION,
    PART,
    LEFT_PAREN,
    ROW_BY_COMMA,
    RIGHT_PAREN,
    MAYBE_COLON,
    PART,
];

static MODULE_LAYOUT: [Piece; 3] = [MODULE, PART, SEMICOLON];

/// How a tree of this alternative is written.
pub(crate) fn layout(form: &Form) -> &'static [Piece]
    ensures layout { result.now ≡ layout form.now }
    ensures short { length result.now < 16 }
{
    match form {
        Form::Name(_) => &OWN_LAYOUT,
        Form::String(_) => &OWN_LAYOUT,
        Form::Number(_) => &OWN_LAYOUT,
        Form::HookName(_) => &OWN_LAYOUT,
        Form::Path => &PATH_LAYOUT,
        Form::Expr(ExprForm::Path) => &EXPR_PATH_LAYOUT,
        Form::Expr(ExprForm::Itself) => &EXPR_ITSELF_LAYOUT,
        Form::Expr(ExprForm::Current) => &EXPR_CURRENT_LAYOUT,
        Form::Expr(ExprForm::True) => &EXPR_TRUE_LAYOUT,
        Form::Expr(ExprForm::False) => &EXPR_FALSE_LAYOUT,
        Form::Expr(ExprForm::Number(_)) => &OWN_LAYOUT,
        Form::Expr(ExprForm::String(_)) => &OWN_LAYOUT,
        Form::Expr(ExprForm::Bytes(_)) => &OWN_LAYOUT,
        Form::Expr(ExprForm::Regex(_)) => &OWN_LAYOUT,
        Form::Expr(ExprForm::Tuple) => &EXPR_TUPLE_LAYOUT,
        Form::Expr(ExprForm::Vector) => &EXPR_VECTOR_LAYOUT,
        Form::Expr(ExprForm::Set) => &EXPR_SET_LAYOUT,
        Form::Expr(ExprForm::Map) => &EXPR_MAP_LAYOUT,
        Form::Expr(ExprForm::EmptyVector) => &EXPR_EMPTY_VECTOR_LAYOUT,
        Form::Expr(ExprForm::EmptySet) => &EXPR_EMPTY_SET_LAYOUT,
        Form::Expr(ExprForm::EmptyMap) => &EXPR_EMPTY_MAP_LAYOUT,
        Form::Expr(ExprForm::TypedNumber(_)) => &EXPR_TYPED_NUMBER_LAYOUT,
        Form::Expr(ExprForm::Cast) => &EXPR_CAST_LAYOUT,
        Form::Expr(ExprForm::New) => &EXPR_NEW_LAYOUT,
        Form::Expr(ExprForm::Size) => &EXPR_SIZE_LAYOUT,
        Form::Expr(ExprForm::Choice) => &EXPR_CHOICE_LAYOUT,
        Form::Expr(ExprForm::Member) => &EXPR_MEMBER_LAYOUT,
        Form::Expr(ExprForm::SetMember) => &EXPR_SET_MEMBER_LAYOUT,
        Form::Expr(ExprForm::Index) => &EXPR_INDEX_LAYOUT,
        Form::Expr(ExprForm::Call) => &EXPR_CALL_LAYOUT,
        Form::Expr(ExprForm::Unary(_)) => &EXPR_UNARY_LAYOUT,
        Form::Expr(ExprForm::Binary(_)) => &EXPR_BINARY_LAYOUT,
        Form::Pair => &PAIR_LAYOUT,
        Form::Type(TypeForm::Path) => &EXPR_PATH_LAYOUT,
        Form::Type(TypeForm::Bool) => &TYPE_BOOL_LAYOUT,
        Form::Type(TypeForm::Bytes) => &TYPE_BYTES_LAYOUT,
        Form::Type(TypeForm::String) => &TYPE_STRING_LAYOUT,
        Form::Type(TypeForm::Void) => &TYPE_VOID_LAYOUT,
        Form::Type(TypeForm::Int(_)) => &OWN_LAYOUT,
        Form::Type(TypeForm::Tuple) => &TYPE_TUPLE_LAYOUT,
        Form::Type(TypeForm::Vector) => &TYPE_VECTOR_LAYOUT,
        Form::Type(TypeForm::Set) => &TYPE_SET_LAYOUT,
        Form::Type(TypeForm::Map) => &TYPE_MAP_LAYOUT,
        Form::Type(TypeForm::Enum) => &TYPE_ENUM_LAYOUT,
        Form::Type(TypeForm::Bitfield) => &TYPE_BITFIELD_LAYOUT,
        Form::Type(TypeForm::Unit) => &EXPR_PATH_LAYOUT,
        Form::Label => &LABEL_LAYOUT,
        Form::Bits => &BITS_LAYOUT,
        Form::Parameter { inout: true } => &PARAMETER_INOUT_LAYOUT,
        Form::Parameter { inout: false } => &PAIR_LAYOUT,
        Form::Stmt(StmtForm::Block) => &EXPR_PATH_LAYOUT,
        Form::Stmt(StmtForm::Local) => &STMT_LOCAL_LAYOUT,
        Form::Stmt(StmtForm::If) => &STMT_IF_LAYOUT,
        Form::Stmt(StmtForm::While) => &STMT_WHILE_LAYOUT,
        Form::Stmt(StmtForm::For) => &STMT_FOR_LAYOUT,
        Form::Stmt(StmtForm::Switch) => &STMT_SWITCH_LAYOUT,
        Form::Stmt(StmtForm::Return) => &STMT_RETURN_LAYOUT,
        Form::Stmt(StmtForm::Break) => &STMT_BREAK_LAYOUT,
        Form::Stmt(StmtForm::Continue) => &STMT_CONTINUE_LAYOUT,
        Form::Stmt(StmtForm::Stop) => &STMT_STOP_LAYOUT,
        Form::Stmt(StmtForm::Confirm) => &STMT_CONFIRM_LAYOUT,
        Form::Stmt(StmtForm::Reject) => &STMT_REJECT_LAYOUT,
        Form::Stmt(StmtForm::Print) => &STMT_PRINT_LAYOUT,
        Form::Stmt(StmtForm::Throw) => &STMT_THROW_LAYOUT,
        Form::Stmt(StmtForm::Assert) => &STMT_ASSERT_LAYOUT,
        Form::Stmt(StmtForm::Add) => &STMT_ADD_LAYOUT,
        Form::Stmt(StmtForm::Delete) => &STMT_DELETE_LAYOUT,
        Form::Stmt(StmtForm::Expr) => &STMT_EXPR_LAYOUT,
        Form::Stmt(StmtForm::Assign(_)) => &STMT_ASSIGN_LAYOUT,
        Form::Block => &BLOCK_LAYOUT,
        Form::Branch => &BRANCH_LAYOUT,
        Form::Case => &CASE_LAYOUT,
        Form::Item(ItemForm::Filter) => &ITEM_FILTER_LAYOUT,
        Form::Item(ItemForm::ByteOrder) => &ITEM_BYTE_ORDER_LAYOUT,
        Form::Item(ItemForm::MimeType) => &ITEM_MIME_TYPE_LAYOUT,
        Form::Item(ItemForm::Description) => &ITEM_DESCRIPTION_LAYOUT,
        Form::Item(ItemForm::Variable) => &ITEM_VARIABLE_LAYOUT,
        Form::Item(ItemForm::Sink) => &ITEM_SINK_LAYOUT,
        Form::Item(ItemForm::On) => &ITEM_ON_LAYOUT,
        Form::Item(ItemForm::Part) => &EXPR_PATH_LAYOUT,
        Form::Target(_) => &OWN_LAYOUT,
        Form::Part(PartForm::Field) => &EXPR_PATH_LAYOUT,
        Form::Part(PartForm::Switch) => &PART_SWITCH_LAYOUT,
        Form::Arm => &ARM_LAYOUT,
        Form::Guard(GuardForm::Otherwise) => &GUARD_OTHERWISE_LAYOUT,
        Form::Guard(GuardForm::Values) => &GUARD_VALUES_LAYOUT,
        Form::Guard(GuardForm::LookAhead) => &GUARD_LOOK_AHEAD_LAYOUT,
        Form::Body(BodyForm::Nothing) => &BODY_NOTHING_LAYOUT,
        Form::Body(BodyForm::One) => &EXPR_PATH_LAYOUT,
        Form::Body(BodyForm::Many) => &BLOCK_LAYOUT,
        Form::Base(BaseForm::Type) => &EXPR_PATH_LAYOUT,
        Form::Base(BaseForm::Unit) => &BASE_UNIT_LAYOUT,
        Form::Base(BaseForm::Group) => &BASE_GROUP_LAYOUT,
        Form::Base(BaseForm::Bytes(_)) => &OWN_LAYOUT,
        Form::Base(BaseForm::Regex(_)) => &OWN_LAYOUT,
        Form::Base(BaseForm::Number(_)) => &EXPR_TYPED_NUMBER_LAYOUT,
        Form::Count => &COUNT_LAYOUT,
        Form::Attribute(_) => &ATTRIBUTE_LAYOUT,
        Form::Hook => &HOOK_LAYOUT,
        Form::HookBody { each: true } => &HOOK_BODY_EACH_LAYOUT,
        Form::HookBody { each: false } => &HOOK_BODY_LAYOUT,
        Form::Unit => &UNIT_LAYOUT,
        Form::Field => &FIELD_LAYOUT,
        Form::Decl(DeclForm::Import) => &DECL_IMPORT_LAYOUT,
        Form::Decl(DeclForm::ByteOrder) => &ITEM_BYTE_ORDER_LAYOUT,
        Form::Decl(DeclForm::Version) => &DECL_VERSION_LAYOUT,
        Form::Decl(DeclForm::On) => &DECL_ON_LAYOUT,
        Form::Decl(DeclForm::Type { public: true }) => &DECL_TYPE_PUBLIC_LAYOUT,
        Form::Decl(DeclForm::Type { public: false }) => &DECL_TYPE_LAYOUT,
        Form::Decl(DeclForm::Const { public: true }) => &DECL_CONST_PUBLIC_LAYOUT,
        Form::Decl(DeclForm::Const { public: false }) => &DECL_CONST_LAYOUT,
        Form::Decl(DeclForm::Function { public: true }) => &DECL_FUNCTION_PUBLIC_LAYOUT,
        Form::Decl(DeclForm::Function { public: false }) => &DECL_FUNCTION_LAYOUT,
        Form::Module => &MODULE_LAYOUT,
    }
}
