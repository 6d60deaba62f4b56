// A module's text is read in one way.
ghost use Rattle.std.specs.Prelude.{◌≡◌, List};
ghost use Rattle.sp_lex.specs.declared.tokens.Token.{Token};
ghost use Rattle.sp_parser.specs.declared.symbol.ActionAt.{ActionAt};
ghost use Rattle.sp_read_unit.specs.Modules.{IsModule};

/// Tokens are a module's in one way at most.
pub fn module_is_one()
    ensures { (tokens : List Token) (first second : List ActionAt) → IsModule tokens first
        → IsModule tokens second → first ≡ second }
{}
