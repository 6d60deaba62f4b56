// What declarations declare, and what paths mean.

/// What a declaration declares.
#[derive(Clone, Copy)]
pub enum DeclSort {
    /// That another module's names are visible.
    Import,
    /// A property of the module.
    Property,
    /// A hook of a unit, outside of it.
    Hook,
    Unit,
    Enum,
    /// A type that is neither a unit nor an enum.
    Alias,
    Constant,
    Function,
}

/// A module whose names a path can name.
#[derive(Clone, Copy)]
pub enum Scope {
    /// A module of the list, by its number.
    Module(u32),
    /// `spicy`, which has the enums of the library.
    Spicy,
    /// `filter`, which has the decoder.
    Filter,
}

/// What a path means.
#[derive(Clone, Copy)]
pub enum Meaning {
    /// A type, a constant or a function, by its number among all declarations.
    Declaration(u32),
    /// An enum of the library, by its number.
    LibraryEnum(u32),
    /// A label: the number of its enum, and its place among the labels of that, from 0.
    Label { owner: u32, label: u32 },
    /// `filter::Base64Decode`
    Decoder,
    /// Nothing: the place, in the path, of the name that names nothing.
    Nothing(u32),
}
