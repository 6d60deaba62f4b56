// Modules as values: what is known of their trees.
ghost use Rattle.sp_law_lists.specs.unbroken_list.Given.{AreFormed};

use sp_ast::Module;

/// In each module each alternative has its parts, as the arena keeps them. It does nothing; a caller's proof has the fact from it.
pub fn modules_are_formed(list: &[Module])
    ensures { AreFormed list.now }
{
    for tree in list {
        tree.is_sound();
    }
}
