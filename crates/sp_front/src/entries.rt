// The files of a list.
use sp_ast::Module;
use sp_base::{ByteList, Text};
use sp_command::Refusal;

/// A file that holds a module: the path that was asked, its text, and its tree.
#[derive(Drop)]
pub struct ModuleFile {
    pub path: Text,
    pub text: ByteList,
    pub module: Module,
}

/// A file of a list that was looked at.
#[derive(Drop)]
pub(crate) enum Entry {
    Held(ModuleFile),
    /// What is wrong with the file, and the name by which it was imported, if it was.
    Refused(Option<Text>, Refusal),
}

/// An import: the name of the module, and the place in the text where it stands.
#[derive(Drop)]
pub(crate) struct Import {
    pub(crate) name: Text,
    pub(crate) at: u32,
}
