// What gives each member of a unit its type.
use sp_ast::{FieldKind, Ref, TypeKind};

/// What gives a member of a unit its type.
#[derive(Drop)]
pub enum Source<'a> {
    /// A variable has the type that is written.
    Variable(Ref<'a, TypeKind>),
    /// A sink.
    Sink,
    /// A field, by what it reads and converts.
    Field(Ref<'a, FieldKind>),
}

/// A member of a unit, whose type is asked.
#[derive(Drop)]
pub struct Question<'a> {
    pub unit: u32,
    pub source: Source<'a>,
}
