// What holds of types, and between two of them.
ghost use Rattle.std.specs.Prelude.{◌≡◌};
ghost use Rattle.sp_types.specs.Types.{same, all_same, is_key, widens, goes, tys};

use crate::types::{Level, Type};

#[cycle(same)]
fn all_same(ts: &[Type], us: &[Type]) -> bool
    ensures { result ≡ all_same (tys ts.now) (tys us.now) }
{
    if ts.len() != us.len() {
        return false;
    }
    for i in 0..ts.len() {
        if !ts[i].same(&us[i]) {
            return false;
        }
    }
    true
}

impl Type {
    /// Whether both are the same type, by their parts.
    #[cycle(same)]
    pub fn same(&self, other: &Type) -> bool
        ensures { result ≡ same self.now other.now }
    {
        match (self.level(), other.level()) {
            (Level::Word(v), Level::Word(w)) => v.same(w),
            (Level::Made(m, ts), Level::Made(n, us)) => m.is(n) && all_same(ts, us),
            _ => false,
        }
    }

    /// Whether its values can be keys of sets and maps.
    pub fn is_key(&self) -> bool
        ensures { result ≡ is_key self.now }
    {
        match self.level() {
            Level::Word(w) => w.is_key(),
            Level::Made(..) => false,
        }
    }

    /// Whether a value of this type widens where it goes to a target of the other.
    pub fn widens(&self, to: &Type) -> bool
        ensures { result ≡ widens self.now to.now }
    {
        match (self.level(), to.level()) {
            (Level::Word(v), Level::Word(w)) => w.holds(v),
            _ => false,
        }
    }

    /// Whether a value of this type goes to a target of the other: the same type, or a wider integer type of the same
    /// signedness. Of what is unknown nothing is asked.
    pub fn goes(&self, to: &Type) -> bool
        ensures { result ≡ goes self.now to.now }
    {
        !(self.is_known() && to.is_known()) || self.same(to) || self.widens(to)
    }
}
