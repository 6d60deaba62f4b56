// The locals that are open in a body.
ghost use Rattle.std.specs.Prelude.{◌≡◌, ◌∷◌, drop, reverse, is_some, IfOk, OnOk, OnErr};
ghost use Rattle.sp_type_stmts.specs.Scopes.{found, local};
ghost use Rattle.sp_type_stmts.specs.inside.Tables.{names_of, AreOpen};

use indexmap::IndexMap;
use sp_base::{NoMemory, or_drop};
use sp_types::Type;
use std::alloc::Global;
use std::marker::Model;

/// The slot and the type of a local.
#[derive(Drop)]
pub(crate) struct Known {
    pub(crate) slot: u32,
    pub(crate) ty: Type,
}

/// A local that is open.
#[derive(Drop)]
pub(crate) struct Opened {
    pub(crate) name: String,
    pub(crate) slot: u32,
    pub(crate) ty: Type,
    /// The local of this name that it hides.
    pub(crate) hidden: Option<Known>,
}

/// The innermost open local of each name.
#[derive(Drop)]
pub(crate) struct Innermost {
    pub(crate) by_name: IndexMap<String, Option<Known>>,
}

/// The locals that are open in a body. Clauses see them as a list, the innermost first. A look-up and a declaration take
/// about the same time however many there are, and closing a block takes as long as its locals are many.
#[derive(Drop)]
pub struct Locals {
    opened: Vec<Opened>,
    innermost: Innermost,
}

impl Model for Locals {
    ghost use Rattle.std.specs.Prelude.{List, reverse};
    ghost use Rattle.std.specs.Coded.{coded_list};
    ghost use Rattle.sp_types.specs.contracts.types.Type as type_row;
    ghost use Rattle.sp_type_stmts.specs.Scopes.{Local, coded_local};
    ghost use Rattle.sp_type_stmts.specs.inside.Tables.{names_of, AreOpen};

    ghost Value = { List Local };

    ghost coded = { coded_list (coded_local type_row.the_row.coded) };

    ghost view = { λ s. names_of (reverse s.opened.items) };

    ghost invariant = { λ s. AreOpen (reverse s.opened.items) s.innermost };
}

impl Innermost {
    ghost use Rattle.std.specs.Prelude.{◌≡◌, ℕ, List, Some, None, cond, ◌&&◌, is_some, IfOk, OnOk, OnErr};
    ghost use Rattle.std.specs.Str.{bytes_eq};
    ghost use Rattle.indexmap.specs.IndexMap.{get_by_text};
    ghost use Rattle.sp_type_stmts.specs.inside.Tables.{told_by};

    fn new(alloc: Global) -> Innermost
        ensures { (x : List ℕ) → told_by result x ≡ None }
    {
        Innermost {
            by_name: IndexMap::new(alloc),
        }
    }

    /// What is known of a name.
    fn find(&self, name: &str) -> Result<Option<Known>, NoMemory>
        ensures { IfOk result (λ k. k ≡ told_by self.now name.now) }
    {
        match self.by_name.get(name) {
            Some(Some(known)) => Ok(Some(Known {
                slot: known.slot,
                ty: known.ty.copy()?,
            })),
            _ => Ok(None),
        }
    }

    /// Notes what is known of a name.
    fn note(&mut self, alloc: Global, name: &str, known: Known) -> Result<(), NoMemory>
        ensures noted { OnOk result ((x : List ℕ) → told_by self.new x
            ≡ cond (bytes_eq x name.now) (Some known) (told_by self.old x)) }
        ensures kept { OnErr result ((x : List ℕ) → told_by self.new x ≡ told_by self.old x) }
    {
        self.by_name
            .insert(String::from_str(alloc, name)?, Some(known))?;
        Ok(())
    }

    /// Puts back what was known of a name that has an entry.
    fn put_back(&mut self, name: &str, known: Option<Known>)
        ensures { (x : List ℕ) → told_by self.new x
            ≡ cond (bytes_eq x name.now && is_some (get_by_text self.old.by_name name.now)) known
            (told_by self.old x) }
    {
        if let Some(entry) = self.by_name.get_mut(name) {
            *entry = known;
        }
    }
}

/// A further local, and whether its name is open already.
fn add(
    alloc: Global,
    opened: &mut Vec<Opened>,
    innermost: &mut Innermost,
    name: &str,
    slot: u32,
    ty: Type,
) -> Result<bool, NoMemory>
    requires { AreOpen (reverse opened.old.items) innermost.old }
    ensures taken { IfOk result (λ t. t ≡ is_some (found name.now
        (names_of (reverse opened.old.items)))) }
    ensures names { OnOk result (names_of (reverse opened.new.items)
        ≡ local name.now slot ty ∷ names_of (reverse opened.old.items)) }
    ensures none { OnErr result (names_of (reverse opened.new.items)
        ≡ names_of (reverse opened.old.items)) }
    ensures open { AreOpen (reverse opened.new.items) innermost.new }
{
    let hidden = or_drop!(innermost.find(name); ty);
    let taken = hidden.is_some();
    let ty_here = or_drop!(ty.copy(); hidden, ty);
    let known = Known { slot, ty: ty_here };
    let name_here = or_drop!(String::from_str(alloc, name); hidden, known, ty);
    let last = Opened {
        name: name_here,
        slot,
        ty,
        hidden,
    };
    or_drop!(opened.push(last); known);
    if innermost.note(alloc, name, known).is_err() {
        drop(opened.pop());
        return Err(NoMemory);
    }
    Ok(taken)
}

/// Closes the innermost local, if there is one.
fn take_off(opened: &mut Vec<Opened>, innermost: &mut Innermost)
    requires { AreOpen (reverse opened.old.items) innermost.old }
    ensures names { names_of (reverse opened.new.items)
        ≡ drop 1 (names_of (reverse opened.old.items)) }
    ensures open { AreOpen (reverse opened.new.items) innermost.new }
{
    if let Some(last) = opened.pop() {
        let hidden = last.hidden;
        innermost.put_back(&last.name, hidden);
    }
}

impl Locals {
    ghost use Rattle.std.specs.Prelude.{◌≡◌, ◌-◌, ◌∷◌, [], drop, length, is_some, IfOk, OnOk};
    ghost use Rattle.sp_type_stmts.specs.Scopes.{found, local};
    ghost use Rattle.sp_type_stmts.specs.inside.Tables.{known};

    /// No local.
    pub fn new(alloc: Global) -> Locals
        ensures { result ≡ [] }
    {
        Locals {
            opened: Vec::new(alloc),
            innermost: Innermost::new(alloc),
        }
    }

    /// How many are open.
    pub fn len(&self) -> usize
        ensures { result ≡ length self.now }
    {
        self.opened.len()
    }

    /// The slot and the type of the innermost open local of a name.
    pub(crate) fn find(&self, name: &str) -> Result<Option<Known>, NoMemory>
        ensures { IfOk result (λ k. k ≡ known (found name.now self.now)) }
    {
        self.innermost.find(name)
    }

    /// Opens a local. Answers whether an open one has its name already.
    pub fn open(&mut self, alloc: Global, name: &str, slot: u32, ty: Type) -> Result<bool, NoMemory>
        ensures taken { IfOk result (λ t. t ≡ is_some (found name.now self.old)) }
        ensures opened { OnOk result (self.new ≡ local name.now slot ty ∷ self.old) }
    {
        add(alloc, &mut self.opened, &mut self.innermost, name, slot, ty)
    }

    /// Closes the innermost local, if there is one.
    fn close_one(&mut self)
        ensures { self.new ≡ drop 1 self.old }
    {
        take_off(&mut self.opened, &mut self.innermost);
    }

    /// Closes the innermost ones until so many are left.
    pub fn close(&mut self, keep: usize)
        ensures { self.new ≡ drop (length self.old - keep) self.old }
    {
        while keep < self.len() {
            self.close_one();
        }
    }
}
