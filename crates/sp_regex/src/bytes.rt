// What a byte of a text stands for, outside classes, inside them, and behind a backslash.
ghost use Rattle.std.specs.Prelude.{◌≡◌, ◌<◌, IfSome};
ghost use Rattle.sp_regex.specs.Bytes.{is_within, role_of, class_role_of, escaped_of, hex_value, hex_value_of_two, decimal_value};

/// The bytes from `from` up to `to`, both of them included.
#[derive(Clone, Copy)]
pub struct ByteRange {
    pub from: u8,
    pub to: u8,
}

impl ByteRange {
    pub fn contains(self, byte: u8) -> bool
        ensures { result ≡ is_within byte self }
    {
        self.from <= byte && byte <= self.to
    }
}

/// What a byte stands for outside classes.
#[derive(Clone, Copy)]
pub enum ByteRole {
    /// Itself.
    Plain,
    /// Any byte.
    Dot,
    /// The start of a class.
    ClassOpen,
    /// The start of a group.
    GroupOpen,
    /// The end of a group.
    GroupClose,
    /// What comes between two alternatives.
    Bar,
    /// Any number of times.
    Star,
    /// Once or more.
    Plus,
    /// At most once.
    Question,
    /// The start of bounds.
    BoundsOpen,
    /// The start of an escape.
    Backslash,
    /// A metacharacter that stands nowhere unescaped outside classes and bounds.
    Misplaced,
}

impl ByteRole {
    pub fn of(byte: u8) -> ByteRole
        ensures { result ≡ role_of byte }
    {
        match byte {
            b'.' => ByteRole::Dot,
            b'[' => ByteRole::ClassOpen,
            b'(' => ByteRole::GroupOpen,
            b')' => ByteRole::GroupClose,
            b'|' => ByteRole::Bar,
            b'*' => ByteRole::Star,
            b'+' => ByteRole::Plus,
            b'?' => ByteRole::Question,
            b'{' => ByteRole::BoundsOpen,
            b'\\' => ByteRole::Backslash,
            b']' | b'}' | b'/' | b'^' | b'$' => ByteRole::Misplaced,
            _ => ByteRole::Plain,
        }
    }
}

/// What a byte stands for in a class.
#[derive(Clone, Copy)]
pub enum ClassByteRole {
    /// Itself.
    Plain,
    /// Itself, or right behind the opening bracket the sign of all other bytes.
    Caret,
    /// What comes between the ends of a range.
    Dash,
    /// The end of the class.
    Close,
    /// The start of an escape.
    Backslash,
    /// Nothing: it has to be escaped.
    Misplaced,
}

impl ClassByteRole {
    pub fn of(byte: u8) -> ClassByteRole
        ensures { result ≡ class_role_of byte }
    {
        match byte {
            b'^' => ClassByteRole::Caret,
            b'-' => ClassByteRole::Dash,
            b']' => ClassByteRole::Close,
            b'\\' => ClassByteRole::Backslash,
            b'/' => ClassByteRole::Misplaced,
            0..=127 => ClassByteRole::Plain,
            _ => ClassByteRole::Misplaced,
        }
    }
}

/// What a byte behind a backslash makes.
#[derive(Clone, Copy)]
pub enum Escaped {
    /// This byte.
    Byte(u8),
    /// The byte that two hexadecimal digits name.
    Hex,
    /// Nothing.
    Misplaced,
}

impl Escaped {
    pub fn of(byte: u8) -> Escaped
        ensures { result ≡ escaped_of byte }
    {
        match byte {
            b'n' => Escaped::Byte(b'\n'),
            b'r' => Escaped::Byte(b'\r'),
            b't' => Escaped::Byte(b'\t'),
            b'x' => Escaped::Hex,
            b'"' | b'-' => Escaped::Byte(byte),
            _ => match ByteRole::of(byte) {
                ByteRole::Plain => Escaped::Misplaced,
                _ => Escaped::Byte(byte),
            },
        }
    }
}

/// The value of a hexadecimal digit, in either case.
pub fn hex_digit(byte: u8) -> Option<u8>
    ensures value { result ≡ hex_value byte }
    ensures range { IfSome result (λ digit. digit < 16) }
{
    match byte {
        b'0'..=b'9' => Some(byte - b'0'),
        b'a'..=b'f' => Some(byte - b'a' + 10),
        b'A'..=b'F' => Some(byte - b'A' + 10),
        _ => None,
    }
}

/// The byte that two hexadecimal digits name.
pub fn hex_byte(high: u8, low: u8) -> Option<u8>
    ensures { result ≡ hex_value_of_two high low }
{
    let first = hex_digit(high)?;
    let second = hex_digit(low)?;
    Some(16 * first + second)
}

/// The value of a decimal digit.
pub fn decimal_digit(byte: u8) -> Option<u8>
    ensures value { result ≡ decimal_value byte }
    ensures range { IfSome result (λ digit. digit < 10) }
{
    match byte {
        b'0'..=b'9' => Some(byte - b'0'),
        _ => None,
    }
}
