// Broken rules, and the least of them.
ghost use Rattle.std.specs.Prelude.{◌≡◌, if◌then◌else◌};
ghost use Rattle.sp_rules.specs.Rules.{diag_of, rule_number};
ghost use Rattle.sp_rules.specs.Faults.{at};
ghost use Rattle.sp_rules.specs.Least.{is_before, precedes, better};

use crate::rule::Rule;
use sp_base::{Diag, Span};

/// A broken rule, and where: the number of the module in the list, and the slice of its text.
#[derive(Clone, Copy, PartialEq, Eq)]
pub struct Fault {
    pub rule: Rule,
    pub module: u32,
    pub span: Span,
}

impl Fault {
    /// The refusal of the module.
    pub fn diag(self) -> Diag
        ensures { result ≡ diag_of self }
    {
        Diag {
            module: self.module,
            span: self.span,
            kind: self.rule.kind(),
        }
    }

    /// Whether it goes before the other: by group, then by module, by the place at which its slice begins, and by number.
    pub fn precedes(self, other: Fault) -> bool
        ensures { result ≡ precedes self other }
    {
        let group = self.rule.group().number();
        let other_group = other.rule.group().number();
        if group == other_group {
            self.is_before(other)
        } else {
            group < other_group
        }
    }

    /// The same of two faults of one group.
    fn is_before(self, other: Fault) -> bool
        ensures { result ≡ is_before self other }
    {
        if self.module != other.module {
            self.module < other.module
        } else if self.span.from != other.span.from {
            self.span.from < other.span.from
        } else {
            self.rule.kind().number() < other.rule.kind().number()
        }
    }
}

/// Notes one more broken rule: the least stays.
pub fn note(least: &mut Option<Fault>, fault: Fault)
    ensures { least.new ≡ better least.old fault }
{
    match *least {
        None => *least = Some(fault),
        Some(old) => {
            if fault.precedes(old) {
                *least = Some(fault);
            }
        }
    }
}

/// Notes a rule that is broken where the test holds.
pub fn note_if(test: bool, least: &mut Option<Fault>, fault: Fault)
    ensures { least.new ≡ (if test then better least.old fault else least.old) }
{
    if test {
        note(least, fault);
    }
}

/// Notes a rule that is broken where the test holds, on a slice of the text of a module.
pub fn note_at(test: bool, owner: u32, rule: Rule, span: Span, least: &mut Option<Fault>)
    ensures { least.new ≡ (if test then better least.old (at owner rule span) else least.old) }
{
    let fault = Fault {
        rule,
        module: owner,
        span,
    };
    note_if(test, least, fault);
}
