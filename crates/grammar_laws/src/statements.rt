//! Statements: each production is the one that stands in the head of the grammar.

ghost use Rattle.grammar_laws.specs.Laws.{BranchesAreProductions, DeeperStatementsAreLate, InsideIsBehind, InsideIsProduction, ItemsAreProductions};
ghost use Rattle.grammar_laws.specs.Laws.{StatementsAreProductions};

/// A statement in which others stand at most so deep, an item of a block, and a statement inside another; one deeper passes the limit.
pub fn statements()
    ensures statement { StatementsAreProductions }
    ensures item { ItemsAreProductions }
    ensures branch { BranchesAreProductions }
    ensures inside { InsideIsProduction }
    ensures behind { InsideIsBehind }
    ensures deepest { DeeperStatementsAreLate }
{}
