// Where each attribute can stand, and what it is for.
ghost use Rattle.std.specs.Prelude.{◌≡◌};
ghost use Rattle.sp_type_fields.specs.Roles.{has_view, has_byte_order, has_bit_order, is_bytes_or_open, is_open, is_named, is_group, may_stand, delimiting, role_of, grouped};

use sp_words::AttributeName;

/// What is read, by the attributes that can stand on it.
#[derive(Clone, Copy)]
pub enum Kind {
    Integer,
    Bitfield,
    Bytes,
    /// A unit, or anything but a literal and void in parentheses.
    Unit,
    /// Bytes, a regular expression, or a constant of one of these.
    Literal,
    /// `uint8(1)`
    TypedLiteral,
    Void,
    /// A container whose end the input tells.
    Open,
    /// `T[n]`
    Counted,
    /// What can't be read.
    Broken,
}

/// What attributes stand behind.
#[derive(Clone, Copy)]
pub enum Holder {
    NamedField,
    AnonymousField,
    /// What stands in parentheses.
    Group,
}

/// What an attribute is for.
#[derive(Clone, Copy)]
pub enum Role {
    /// It says how something ends that has no such end, so no type is asked of its value.
    Unasked,
    /// It takes no value.
    Alone,
    /// How many bytes.
    Amount,
    /// The bytes that end a bytes field.
    Delimiter,
    /// Whether a container goes on, for each element.
    Test,
    /// What the value becomes.
    Conversion,
    /// What has to hold of the value.
    Requirement,
    /// The value of a field that isn't set.
    Default,
    /// An order of bytes or of bits.
    Order,
    /// The bytes from which it is read.
    Source,
    /// The place at which it is read.
    Place,
}

fn has_view(kind: Kind) -> bool
    ensures { result ≡ has_view kind }
{
    !matches!(kind, Kind::Literal | Kind::TypedLiteral | Kind::Void)
}

fn has_byte_order(kind: Kind) -> bool
    ensures { result ≡ has_byte_order kind }
{
    matches!(
        kind,
        Kind::Integer | Kind::Bitfield | Kind::TypedLiteral | Kind::Broken
    )
}

fn has_bit_order(kind: Kind) -> bool
    ensures { result ≡ has_bit_order kind }
{
    matches!(kind, Kind::Bitfield | Kind::Broken)
}

fn is_bytes_or_open(kind: Kind) -> bool
    ensures { result ≡ is_bytes_or_open kind }
{
    matches!(kind, Kind::Bytes | Kind::Open | Kind::Broken)
}

fn is_open(kind: Kind) -> bool
    ensures { result ≡ is_open kind }
{
    matches!(kind, Kind::Open | Kind::Broken)
}

fn is_named(holder: Holder) -> bool
    ensures { result ≡ is_named holder }
{
    matches!(holder, Holder::NamedField)
}

fn is_group(holder: Holder) -> bool
    ensures { result ≡ is_group holder }
{
    matches!(holder, Holder::Group)
}

/// Whether an attribute can stand behind what holds it, on what is read.
pub fn may_stand(holder: Holder, kind: Kind, name: AttributeName) -> bool
    ensures { result ≡ may_stand holder kind name }
{
    match name {
        AttributeName::Size | AttributeName::MaxSize => has_view(kind),
        AttributeName::Eod | AttributeName::Until | AttributeName::UntilIncluding => {
            is_bytes_or_open(kind)
        }
        AttributeName::While => is_open(kind),
        AttributeName::Convert | AttributeName::Requires | AttributeName::Synchronize => true,
        AttributeName::Default => is_named(holder),
        AttributeName::ByteOrder => has_byte_order(kind),
        AttributeName::BitOrder => has_bit_order(kind),
        AttributeName::ParseFrom | AttributeName::ParseAt => !is_group(holder) && has_view(kind),
        AttributeName::Try => !is_group(holder),
    }
}

fn delimiting(kind: Kind) -> Role
    ensures { result ≡ delimiting kind }
{
    match kind {
        Kind::Bytes => Role::Delimiter,
        Kind::Open | Kind::Counted => Role::Test,
        _ => Role::Unasked,
    }
}

/// What an attribute is for, on what is read.
pub fn role_of(kind: Kind, name: AttributeName) -> Role
    ensures { result ≡ role_of kind name }
{
    match name {
        AttributeName::Size | AttributeName::MaxSize => Role::Amount,
        AttributeName::Until | AttributeName::UntilIncluding => delimiting(kind),
        AttributeName::While => Role::Test,
        AttributeName::Convert => Role::Conversion,
        AttributeName::Requires => Role::Requirement,
        AttributeName::Default => Role::Default,
        AttributeName::ByteOrder | AttributeName::BitOrder => Role::Order,
        AttributeName::ParseFrom => Role::Source,
        AttributeName::ParseAt => Role::Place,
        AttributeName::Eod | AttributeName::Try | AttributeName::Synchronize => Role::Alone,
    }
}

/// What stands in parentheses, by what is inside.
pub fn grouped(kind: Kind) -> Kind
    ensures { result ≡ grouped kind }
{
    match kind {
        Kind::Literal | Kind::TypedLiteral => Kind::Literal,
        Kind::Void => Kind::Void,
        Kind::Broken => Kind::Broken,
        _ => Kind::Unit,
    }
}
