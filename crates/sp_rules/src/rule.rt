// The rules, and the groups in which they are asked.
ghost use Rattle.std.specs.Prelude.{◌≡◌};
ghost use Rattle.sp_rules.specs.Rules.{kind, group, group_number};

use sp_base::MKind;

/// A rule over a list of modules that were read.
#[derive(Clone, Copy, PartialEq, Eq)]
pub enum Rule {
    /// Two named files hold modules of one name, or a file's module has a reserved name.
    ModuleTwice,
    /// A name is declared twice.
    NameTwice,
    /// A name names nothing visible.
    UnknownName,
    /// A hook of no unit or field, or with wrong parameters.
    UnknownHook,
    /// A member or a method names nothing that the value has.
    UnknownMember,
    /// An operand, condition, value or type has a wrong type.
    TypeMismatch,
    /// A value does not go to its target, or the target cannot be changed.
    NotAssignable,
    /// A literal does not fit its type.
    LiteralRange,
    /// No constant expression where one is wanted, or one whose value is an error.
    NotConstant,
    /// `self`, `$$`, `confirm` or `reject` where none is meant.
    SelfOutside,
    /// A function with a result may end without `return`.
    MissingReturn,
    /// `break` or `continue` in no loop, or `stop` in no foreach body.
    OutsideLoop,
    /// A call has a wrong number or wrong types of arguments.
    WrongArguments,
    /// An attribute is not allowed here, or its value is missing or not wanted.
    BadAttribute,
    /// Bytes without a bound.
    MissingBound,
    /// An attribute stands twice, or another excludes it.
    AttributeClash,
    /// A bit range or the width of a bitfield is wrong.
    BadBitRange,
    /// A filter stands where none can.
    FilterPlace,
    /// The body of a sink hook uses what it must not see.
    HookSeesState,
    /// A token has the empty word.
    EmptyToken,
    /// A look-ahead arm or element does not begin with tokens, or can be empty.
    NoLookAhead,
    /// Two alternatives of a look-ahead share an equal token.
    LookAheadClash,
    /// `&synchronize` on what does not begin with tokens.
    SyncNoToken,
    /// A limit on numbers of things is passed.
    TooMany,
}

/// Rules that are asked together, the groups one after another: a rule is asked only where none of an earlier group is
/// broken.
#[derive(Clone, Copy, PartialEq, Eq)]
pub enum RuleGroup {
    /// What names mean.
    Names,
    /// What is wrong inside an expression, a statement, a function or a hook.
    Bodies,
    /// What is wrong with a unit's fields, attributes and filters.
    Units,
    /// What is wrong with tokens, and limits on numbers of things.
    Tokens,
}

impl Rule {
    /// The kind of the refusal where the rule is broken. It has the rule's number.
    pub fn kind(self) -> MKind
        ensures { result ≡ kind self }
    {
        KINDS[self as usize]
    }

    /// The group in which it is asked.
    pub fn group(self) -> RuleGroup
        ensures { result ≡ group self }
    {
        match self {
            Rule::ModuleTwice | Rule::NameTwice | Rule::UnknownName | Rule::UnknownHook => {
                RuleGroup::Names
            }
            Rule::UnknownMember
            | Rule::TypeMismatch
            | Rule::NotAssignable
            | Rule::LiteralRange
            | Rule::NotConstant
            | Rule::SelfOutside
            | Rule::MissingReturn
            | Rule::OutsideLoop
            | Rule::WrongArguments => RuleGroup::Bodies,
            Rule::BadAttribute
            | Rule::MissingBound
            | Rule::AttributeClash
            | Rule::BadBitRange
            | Rule::FilterPlace
            | Rule::HookSeesState => RuleGroup::Units,
            Rule::EmptyToken
            | Rule::NoLookAhead
            | Rule::LookAheadClash
            | Rule::SyncNoToken
            | Rule::TooMany => RuleGroup::Tokens,
        }
    }
}

/// The kinds of the refusals, in the order of the rules.
const KINDS: [MKind; 24] = [
    MKind::ModuleTwice,
    MKind::NameTwice,
    MKind::UnknownName,
    MKind::UnknownHook,
    MKind::UnknownName,
    MKind::TypeMismatch,
    MKind::NotAssignable,
    MKind::LiteralRange,
    MKind::NotConstant,
    MKind::SelfOutside,
    MKind::MissingReturn,
    MKind::OutsideLoop,
    MKind::WrongArguments,
    MKind::BadAttribute,
    MKind::MissingBound,
    MKind::AttributeClash,
    MKind::BadBitRange,
    MKind::FilterPlace,
    MKind::HookSeesState,
    MKind::EmptyToken,
    MKind::NoLookAhead,
    MKind::LookAheadClash,
    MKind::SyncNoToken,
    MKind::TooMany,
];

impl RuleGroup {
    /// Its place among the groups, from 1.
    pub fn number(self) -> u8
        ensures { result ≡ group_number self }
    {
        match self {
            RuleGroup::Names => 1,
            RuleGroup::Bodies => 2,
            RuleGroup::Units => 3,
            RuleGroup::Tokens => 4,
        }
    }
}
