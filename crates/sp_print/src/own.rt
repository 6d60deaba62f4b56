// The words that the alternatives themselves tell.
ghost use Rattle.std.specs.Prelude.{◌≡◌, OnOk};
ghost use Rattle.sp_print.specs.Page.{puts};
ghost use Rattle.sp_print.specs.Own.{own_words, binary_token, unary_token, assign_token};

use crate::writer::Writer;
use sp_ast::{BaseForm, ExprForm, Form, StmtForm, TargetForm, TypeForm};
use sp_base::NoMemory;
use sp_lex::TokenKind;
use sp_words::{AssignOp, BinaryOp, Keyword, Punctuation, UnaryOp};

/// The token as which an operator between operands is written.
fn binary_token(operator: BinaryOp) -> TokenKind
    ensures { result ≡ binary_token operator }
{
    match operator {
        BinaryOp::Or => TokenKind::Punctuation(Punctuation::OrOr),
        BinaryOp::And => TokenKind::Punctuation(Punctuation::AndAnd),
        BinaryOp::In => TokenKind::Keyword(Keyword::In),
        BinaryOp::NotIn => TokenKind::Punctuation(Punctuation::NotIn),
        BinaryOp::Equal => TokenKind::Punctuation(Punctuation::EqualEqual),
        BinaryOp::NotEqual => TokenKind::Punctuation(Punctuation::NotEqual),
        BinaryOp::Less => TokenKind::Punctuation(Punctuation::Less),
        BinaryOp::LessEqual => TokenKind::Punctuation(Punctuation::LessEqual),
        BinaryOp::Greater => TokenKind::Punctuation(Punctuation::Greater),
        BinaryOp::GreaterEqual => TokenKind::Punctuation(Punctuation::GreaterEqual),
        BinaryOp::BitOr => TokenKind::Punctuation(Punctuation::Bar),
        BinaryOp::BitXor => TokenKind::Punctuation(Punctuation::Caret),
        BinaryOp::BitAnd => TokenKind::Punctuation(Punctuation::Ampersand),
        BinaryOp::ShiftLeft => TokenKind::Punctuation(Punctuation::ShiftLeft),
        BinaryOp::ShiftRight => TokenKind::Punctuation(Punctuation::ShiftRight),
        BinaryOp::Add => TokenKind::Punctuation(Punctuation::Plus),
        BinaryOp::Subtract => TokenKind::Punctuation(Punctuation::Minus),
        BinaryOp::Multiply => TokenKind::Punctuation(Punctuation::Star),
        BinaryOp::Divide => TokenKind::Punctuation(Punctuation::Slash),
        BinaryOp::Remainder => TokenKind::Punctuation(Punctuation::Percent),
    }
}

/// The token as which an operator before its operand is written.
fn unary_token(operator: UnaryOp) -> TokenKind
    ensures { result ≡ unary_token operator }
{
    match operator {
        UnaryOp::Not => TokenKind::Punctuation(Punctuation::Bang),
        UnaryOp::Negate => TokenKind::Punctuation(Punctuation::Minus),
        UnaryOp::Complement => TokenKind::Punctuation(Punctuation::Tilde),
    }
}

/// The token as which an operator of an assignment is written.
fn assign_token(operator: AssignOp) -> TokenKind
    ensures { result ≡ assign_token operator }
{
    match operator {
        AssignOp::Set => TokenKind::Punctuation(Punctuation::Equal),
        AssignOp::Add => TokenKind::Punctuation(Punctuation::PlusEqual),
        AssignOp::Subtract => TokenKind::Punctuation(Punctuation::MinusEqual),
    }
}

/// Puts the word of an alternative that has a name, a number, a literal, an operator or a word of its own.
pub(crate) fn put_own(writer: &mut Writer, form: &Form) -> Result<(), NoMemory>
    ensures { OnOk result (writer.new ≡ puts (own_words form.now) writer.old) }
{
    match form {
        Form::Name(x) | Form::Target(TargetForm::Name(x)) => writer.put_name(x.as_str()),
        Form::String(x) | Form::Expr(ExprForm::String(x)) => writer.put_text(x.as_str()),
        Form::Number(n) | Form::Expr(ExprForm::Number(n)) => writer.put_number(*n),
        Form::HookName(h) | Form::Target(TargetForm::Hook(h)) => {
            writer.put_kind(TokenKind::Hook(*h))
        }
        Form::Expr(ExprForm::Bytes(x)) | Form::Base(BaseForm::Bytes(x)) => {
            writer.put_bytes(x.as_slice())
        }
        Form::Expr(ExprForm::Regex(x)) | Form::Base(BaseForm::Regex(x)) => {
            writer.put_regex(x.as_str())
        }
        Form::Expr(ExprForm::TypedNumber(w))
        | Form::Type(TypeForm::Int(w))
        | Form::Base(BaseForm::Number(w)) => { writer.put_kind(TokenKind::Integer(*w)) }
        Form::Expr(ExprForm::Unary(operator)) => writer.put_kind(unary_token(*operator)),
        Form::Expr(ExprForm::Binary(operator)) => writer.put_kind(binary_token(*operator)),
        Form::Stmt(StmtForm::Assign(operator)) => writer.put_kind(assign_token(*operator)),
        Form::Attribute(name) => writer.put_kind(TokenKind::Attribute(*name)),
        _ => Ok(()),
    }
}
