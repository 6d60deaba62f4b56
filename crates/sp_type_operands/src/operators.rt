// What types operators take, and of what type their results are.
ghost use Rattle.std.specs.Prelude.{◌≡◌, ◌&&◌, IfOk};
ghost use Rattle.sp_types.specs.Types.{tys};
ghost use Rattle.sp_type_operands.specs.declared.operators.OperatorSort.TheVariants as takes;
ghost use Rattle.sp_type_operands.specs.Operands.{sort_of, stands_before, stands_behind, agree, result_type, stands_alone, unary_type, has_size, can_cast, of_one_sign, is_valueless, is_unsigned, is_signed, is_integer, is_boolean, is_bytes, is_text, is_iterator, is_enum, has_keys, key_of, first_type, wider_type, sum_type, second_type};

use sp_base::NoMemory;
use sp_types::{Level, Maker, Type, Word, wider};
use sp_words::{BinaryOp, UnaryOp};

/// Operators by what they take.
#[derive(Clone, Copy)]
pub enum OperatorSort {
    /// Two truths.
    Truths,
    /// A key and a set or a map, or two bytes.
    Member,
    /// Two values of one plain type, integers of one signedness, two iterators.
    Alike,
    /// Integers of one signedness, two bytes, two texts, two iterators.
    Ordered,
    /// Unsigned integers; the result has the wider type.
    Bits,
    /// Unsigned integers; the result has the left type.
    Shifted,
    /// Integers of one signedness, two bytes, two texts, or an iterator and an unsigned integer.
    Added,
    /// Integers of one signedness.
    Integers,
}

/// Whether a type is that of what is no value.
pub fn is_valueless(t: &Type) -> bool
    ensures { result ≡ is_valueless t.now }
{
    matches!(
        t.level(),
        Level::Word(Word::Void | Word::Regex | Word::Sink | Word::New)
    )
}

/// Whether a type is that of unsigned integers.
pub fn is_unsigned(t: &Type) -> bool
    ensures { result ≡ is_unsigned t.now }
{
    matches!(t.level(), Level::Word(Word::Uint(_)))
}

/// Whether a type is that of signed integers.
pub fn is_signed(t: &Type) -> bool
    ensures { result ≡ is_signed t.now }
{
    matches!(t.level(), Level::Word(Word::Int(_)))
}

/// Whether it is an integer type.
pub fn is_integer(t: &Type) -> bool
    ensures { result ≡ is_integer t.now }
{
    is_unsigned(t) || is_signed(t)
}

/// Whether a type is that of truth values.
pub fn is_boolean(t: &Type) -> bool
    ensures { result ≡ is_boolean t.now }
{
    matches!(t.level(), Level::Word(Word::Bool))
}

/// Whether a type is that of bytes.
pub fn is_bytes(t: &Type) -> bool
    ensures { result ≡ is_bytes t.now }
{
    matches!(t.level(), Level::Word(Word::Bytes))
}

/// Whether a type is that of text.
pub fn is_text(t: &Type) -> bool
    ensures { result ≡ is_text t.now }
{
    matches!(t.level(), Level::Word(Word::String))
}

fn is_iterator(t: &Type) -> bool
    ensures { result ≡ is_iterator t.now }
{
    matches!(t.level(), Level::Word(Word::Iterator))
}

/// Whether a type is that of an enum.
pub fn is_enum(t: &Type) -> bool
    ensures { result ≡ is_enum t.now }
{
    matches!(t.level(), Level::Word(Word::Enum(_)))
}

fn are_unsigned(s: &Type, t: &Type) -> bool
    ensures { result ≡ (is_unsigned s.now && is_unsigned t.now) }
{
    is_unsigned(s) && is_unsigned(t)
}

fn of_one_sign(s: &Type, t: &Type) -> bool
    ensures { result ≡ of_one_sign s.now t.now }
{
    (is_unsigned(s) && is_unsigned(t)) || (is_signed(s) && is_signed(t))
}

/// Which operands an operator takes.
pub fn sort_of(op: BinaryOp) -> OperatorSort
    ensures { result ≡ sort_of op }
{
    match op {
        BinaryOp::Or | BinaryOp::And => OperatorSort::Truths,
        BinaryOp::In | BinaryOp::NotIn => OperatorSort::Member,
        BinaryOp::Equal | BinaryOp::NotEqual => OperatorSort::Alike,
        BinaryOp::Less | BinaryOp::LessEqual | BinaryOp::Greater | BinaryOp::GreaterEqual => {
            OperatorSort::Ordered
        }
        BinaryOp::BitOr | BinaryOp::BitXor | BinaryOp::BitAnd => OperatorSort::Bits,
        BinaryOp::ShiftLeft | BinaryOp::ShiftRight => OperatorSort::Shifted,
        BinaryOp::Add => OperatorSort::Added,
        BinaryOp::Subtract | BinaryOp::Multiply | BinaryOp::Divide | BinaryOp::Remainder => {
            OperatorSort::Integers
        }
    }
}

/// Whether a key goes to the type of the keys of a container, or bytes stand before bytes.
fn is_key_of(s: &Type, t: &Type) -> Result<bool, NoMemory>
    ensures { IfOk result (λ b. b ≡ agree takes.Member s.now t.now) }
{
    if is_bytes(t) {
        return Ok(is_bytes(s));
    }
    let key = key_of(t)?;
    let goes = s.goes(&key);
    drop(key);
    Ok(goes)
}

impl OperatorSort {
    /// Whether a type can stand before such an operator at all.
    pub fn stands_before(self, t: &Type) -> bool
        ensures { result ≡ stands_before self t.now }
    {
        match self {
            OperatorSort::Truths => is_boolean(t),
            OperatorSort::Member => t.is_key(),
            OperatorSort::Alike => t.is_plain() || is_iterator(t),
            OperatorSort::Ordered | OperatorSort::Added => {
                is_integer(t) || is_bytes(t) || is_text(t) || is_iterator(t)
            }
            OperatorSort::Bits | OperatorSort::Shifted => is_unsigned(t),
            OperatorSort::Integers => is_integer(t),
        }
    }

    /// Whether a type can stand behind such an operator at all.
    pub fn stands_behind(self, t: &Type) -> bool
        ensures { result ≡ stands_behind self t.now }
    {
        match self {
            OperatorSort::Member => has_keys(t) || is_bytes(t),
            OperatorSort::Added => is_integer(t) || is_bytes(t) || is_text(t),
            _ => self.stands_before(t),
        }
    }

    /// Whether two types that can stand before and behind such an operator agree.
    pub fn agree(self, s: &Type, t: &Type) -> Result<bool, NoMemory>
        ensures { IfOk result (λ b. b ≡ agree self s.now t.now) }
    {
        match self {
            OperatorSort::Truths | OperatorSort::Bits | OperatorSort::Shifted => Ok(true),
            OperatorSort::Member => is_key_of(s, t),
            OperatorSort::Alike | OperatorSort::Ordered => Ok(of_one_sign(s, t) || s.same(t)),
            OperatorSort::Added if is_iterator(s) => Ok(is_unsigned(t)),
            OperatorSort::Added => Ok(of_one_sign(s, t) || s.same(t)),
            OperatorSort::Integers => Ok(of_one_sign(s, t)),
        }
    }

    /// The type of the result of such an operator: `Unknown` where it gives none between these.
    pub fn result(self, s: &Type, t: &Type) -> Result<Type, NoMemory>
        ensures { IfOk result (λ r. r ≡ result_type self s.now t.now) }
    {
        match self {
            OperatorSort::Truths
            | OperatorSort::Member
            | OperatorSort::Alike
            | OperatorSort::Ordered => Ok(Type::word(Word::Bool)),
            OperatorSort::Bits if are_unsigned(s, t) => Ok(wider_type(s, t)),
            OperatorSort::Shifted if are_unsigned(s, t) => s.copy(),
            OperatorSort::Bits | OperatorSort::Shifted => Ok(Type::word(Word::Unknown)),
            OperatorSort::Added => sum_type(s, t),
            OperatorSort::Integers => Ok(wider_type(s, t)),
        }
    }
}

/// Whether it is a set or a map.
fn has_keys(t: &Type) -> bool
    ensures { result ≡ has_keys t.now }
{
    matches!(t.level(), Level::Made(Maker::Set | Maker::Map, _))
}

/// The first of some types.
pub fn first_type(parts: &[Type]) -> Result<Type, NoMemory>
    ensures { IfOk result (λ t. t ≡ first_type (tys parts.now)) }
{
    match parts.first() {
        Some(first) => first.copy(),
        None => Ok(Type::word(Word::Unknown)),
    }
}

/// The second of some types.
pub fn second_type(parts: &[Type]) -> Result<Type, NoMemory>
    ensures { IfOk result (λ t. t ≡ second_type (tys parts.now)) }
{
    match parts.split_first() {
        Some((_, others)) => first_type(others),
        None => Ok(Type::word(Word::Unknown)),
    }
}

/// The type of the keys of a set or a map; `Unknown` where it is neither.
pub fn key_of(t: &Type) -> Result<Type, NoMemory>
    ensures { IfOk result (λ k. k ≡ key_of t.now) }
{
    match t.level() {
        Level::Made(Maker::Set | Maker::Map, parts) => first_type(parts),
        _ => Ok(Type::word(Word::Unknown)),
    }
}

/// The wider of two integer types of one signedness; `Unknown` of other types.
fn wider_type(s: &Type, t: &Type) -> Type
    ensures { result ≡ wider_type s.now t.now }
{
    match (s.level(), t.level()) {
        (Level::Word(v), Level::Word(w)) => Type::word(wider(v, w)),
        _ => Type::word(Word::Unknown),
    }
}

fn sum_type(s: &Type, t: &Type) -> Result<Type, NoMemory>
    ensures { IfOk result (λ r. r ≡ sum_type s.now t.now) }
{
    if is_iterator(s) && is_unsigned(t) {
        return s.copy();
    }
    if (is_bytes(s) && is_bytes(t)) || (is_text(s) && is_text(t)) {
        return s.copy();
    }
    Ok(wider_type(s, t))
}

/// Whether a type can stand at an operator on one value.
pub fn stands_alone(op: UnaryOp, t: &Type) -> bool
    ensures { result ≡ stands_alone op t.now }
{
    match op {
        UnaryOp::Not => is_boolean(t),
        UnaryOp::Negate => is_signed(t),
        UnaryOp::Complement => is_unsigned(t),
    }
}

/// The type of the result of an operator on one value: `Unknown` where it gives none.
pub fn unary_type(op: UnaryOp, t: &Type) -> Result<Type, NoMemory>
    ensures { IfOk result (λ r. r ≡ unary_type op t.now) }
{
    match op {
        UnaryOp::Not => Ok(Type::word(Word::Bool)),
        UnaryOp::Negate => if is_signed(t) {
            t.copy()
        } else {
            Ok(Type::word(Word::Unknown))
        },
        UnaryOp::Complement => if is_unsigned(t) {
            t.copy()
        } else {
            Ok(Type::word(Word::Unknown))
        },
    }
}

/// Whether values of a type have a size.
pub fn has_size(t: &Type) -> bool
    ensures { result ≡ has_size t.now }
{
    match t.level() {
        Level::Word(Word::Bytes | Word::String) => true,
        Level::Made(Maker::Vector | Maker::Set | Maker::Map, _) => true,
        _ => false,
    }
}

/// Whether a value of a type can be cast to another.
pub fn can_cast(s: &Type, t: &Type) -> bool
    ensures { result ≡ can_cast s.now t.now }
{
    (is_integer(s) && is_integer(t)) || (is_enum(s) && is_unsigned(t))
}
