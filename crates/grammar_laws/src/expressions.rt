//! Expressions: each production is the one that stands in the head of the grammar.

ghost use Rattle.std.specs.Prelude.{ℕ, suc};
ghost use Rattle.grammar.specs.Syntax.{◌then◌, gives};
ghost use Rattle.grammar.specs.Exact.{Same};
ghost use Rattle.c_model.specs.Vocabulary.{Vocabulary};
ghost use Rattle.c_model.specs.ExpressionGrammar.{expression};
ghost use Rattle.c_model.specs.ExpressionGrammar as parsed;
ghost use Rattle.grammar_laws.specs.ExpressionProductions.{parsed_assign, parsed_cast, parsed_cond, parsed_level, parsed_unary};
ghost use Rattle.grammar_laws.specs.ExpressionProductions as production;

/// Expressions with commas, assignments and conditions, operands joined by the operators of each level, casts and unary expressions.
pub fn expressions()
    ensures comma { (words : Vocabulary) → Same (expression words) (production.commas words) }
    ensures assign { (words : Vocabulary) → Same (parsed_assign words) (production.assign words) }
    ensures cond { (words : Vocabulary) → Same (parsed_cond words) (production.conditional words) }
    ensures level { (words : Vocabulary) (below : ℕ) → Same (parsed_level words (suc below)) (production.level words below) }
    ensures least { (words : Vocabulary) → Same (parsed_level words 0) (parsed_cast words then λ operand. gives operand.expression) }
    ensures cast { (words : Vocabulary) → Same (parsed_cast words) (production.cast words) }
    ensures unary { (words : Vocabulary) → Same (parsed_unary words) (production.unary words) }
{}

/// The words for a type, and a type without a name.
pub fn types()
    ensures base { (words : Vocabulary) → Same (parsed.base words) (production.base words) }
    ensures words { (words : Vocabulary) → Same (parsed.type_words words) (production.words words) }
    ensures name { (words : Vocabulary) → Same (parsed.type_name words (expression words)) (production.type words) }
{}

/// An expression with the place of its first token is, but for that place, an expression.
pub fn placed()
    ensures { (words : Vocabulary) → Same (parsed.placed_expression words then λ e. gives e.0) (expression words then λ e. gives e) }
{}
