//! Monitored C: each production is the one that stands in the head of the grammar.

ghost use Rattle.std.specs.Prelude.{ℕ, Bool, zero, suc, []};
ghost use Rattle.grammar.specs.Syntax.{deep, none};
ghost use Rattle.grammar.specs.Exact.{Same};
ghost use Rattle.c_model.specs.Punctuators.{left_paren};
ghost use Rattle.c_model.specs.Terminals.{expression_limit};
ghost use Rattle.mon_syntax.specs.Parsed.{NameUse};
ghost use Rattle.mon_syntax.specs.Grammar.{Vocabulary, call_of, expression_in, mark, opened};
ghost use Rattle.mon_syntax.specs.Grammar as parsed;
ghost use Rattle.grammar_laws.specs.MonitoredLaws.{DeeperExpressionsAreLate, DeeperStatementsAreLate, ExpressionsAreProductions};
ghost use Rattle.grammar_laws.specs.MonitoredLaws.{MarksAreProductions, StatementsAreProductions};
ghost use Rattle.grammar_laws.specs.MonitoredProductions as production;

/// Expressions in which parentheses are open at most so often at once, and calls; one parenthesis more passes the limit.
pub fn expressions()
    ensures expr { ExpressionsAreProductions }
    ensures deepest { DeeperExpressionsAreLate }
    ensures argument { (words : Vocabulary) → Same (parsed.argument words) (production.argument words) }
    ensures call { (words : Vocabulary) (some : Bool) (callee : NameUse) → Same (call_of words some callee) (production.call words some callee) }
{}

/// Statements that stand at most so deep in one another, and the marks of stores; one deeper passes the limit.
pub fn statements()
    ensures statement { StatementsAreProductions }
    ensures mark { MarksAreProductions }
    ensures deepest { DeeperStatementsAreLate }
{}

/// Texts, their globals and their functions.
pub fn texts()
    ensures text { (words : Vocabulary) → Same (parsed.text words) (production.text words) }
    ensures global { (words : Vocabulary) → Same (parsed.global words) (production.global words) }
    ensures function { (words : Vocabulary) → Same (parsed.function words) (production.function words) }
{}
