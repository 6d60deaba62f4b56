// Where trees and typed expressions begin in the text. These functions do nothing.
ghost use Rattle.sp_law_rules.specs.Places.{TreesBeginAtTokens, ModulesBeginAtTokens};
ghost use Rattle.sp_law_rules.specs.Spans.{ExpressionsBeginAtTokens, InnerPlaceNames, ModulesPlaceNames, NamesBeginAtTokens, TestsBeginAtTokens};

/// Each node of a tree that is built of a run of tokens begins where one of them begins, and so does each node of a module's tree:
/// no place that is told of a tree lies between tokens, or behind the last.
pub fn trees_begin_at_tokens()
    ensures trees { TreesBeginAtTokens }
    ensures modules { ModulesBeginAtTokens }
{}

/// Where each node of a tree begins at a token, so does each node of the expression that it is typed as, where what stands round
/// it places names where they are written, as a module does, with `$$`, `self`, parameters and locals too; but for what stands for
/// no tree, which no module has.
pub fn expressions_begin_at_tokens()
    ensures expressions { ExpressionsBeginAtTokens }
    ensures names { ModulesPlaceNames }
    ensures inner { InnerPlaceNames }
{}

/// The place of each test at a node of an expression begins at a token, where the nodes of the expression do, and so does that of
/// each name in it that names nothing.
pub fn tests_begin_at_tokens()
    ensures nodes { TestsBeginAtTokens }
    ensures names { NamesBeginAtTokens }
{}
