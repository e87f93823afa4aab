//! Annotations: each production is the one that stands in the head of the grammar.

ghost use Rattle.std.specs.Prelude.{ℕ};
ghost use Rattle.grammar.specs.Exact.{Same};
ghost use Rattle.c_model.specs.Vocabulary.{Vocabulary};
ghost use Rattle.c_model.specs.AnnotationGrammar as parsed;
ghost use Rattle.c_model.specs.ClauseGrammar as clauses;
ghost use Rattle.c_model.specs.declared.formulas.ClauseGroup.{ClauseGroup};
ghost use Rattle.c_model.specs.declared.formulas.FormulaMode.TheVariants.{Alone};
ghost use Rattle.grammar_laws.specs.AnnotationProductions as production;
ghost use Rattle.grammar_laws.specs.ClauseProductions as written;

/// Annotations, contracts, and their clauses.
pub fn annotations()
    ensures annotation { (words : Vocabulary) (number : ℕ) → Same (clauses.annotations words number) (written.annotation words number) }
    ensures clause { (words : Vocabulary) (group : ClauseGroup) (number : ℕ) →
        Same (clauses.full_clause words group number) (written.clause words group number) }
    ensures loops { (words : Vocabulary) (number : ℕ) → Same (clauses.full_loop_clause words number) (written.loop words number) }
    ensures assigns { (words : Vocabulary) → Same (clauses.full_assigns words) (written.assigns words) }
    ensures contract { (words : Vocabulary) (number : ℕ) → Same (clauses.contract words number) (written.contract words number) }
    ensures behavior { (words : Vocabulary) (number : ℕ) → Same (clauses.behavior words number) (written.behavior words number) }
    ensures cover { (words : Vocabulary) (number : ℕ) → Same (clauses.full_cover words number) (written.cover words number) }
{}

/// Forms, zones, prefixes and implications, which stand in themselves, and chains of relations.
pub fn forms()
    ensures form { (words : Vocabulary) → Same (parsed.forms words Alone) (production.form words) }
    ensures implication { (words : Vocabulary) → Same (production.alone words (parsed.implication words)) (production.implication words) }
    ensures chain { (words : Vocabulary) → Same (production.alone words (parsed.chain words)) (production.chain words) }
    ensures prefix { (words : Vocabulary) →
        Same (parsed.prefix words (parsed.form words) (parsed.zone words (parsed.forms words)) (parsed.forms words Alone)) (production.prefix words) }
    ensures zone { (words : Vocabulary) → Same (parsed.zone words (parsed.forms words)) (production.zone words) }
{}

/// What is joined by operators, from the left.
pub fn operators()
    ensures equivalence { (words : Vocabulary) → Same (production.alone words (parsed.equivalence words)) (production.equivalence words) }
    ensures disjunction { (words : Vocabulary) → Same (production.alone words (parsed.disjunction words)) (production.disjunction words) }
    ensures exclusion { (words : Vocabulary) → Same (production.alone words (parsed.exclusion words)) (production.exclusion words) }
    ensures conjunction { (words : Vocabulary) → Same (production.alone words (parsed.conjunction words)) (production.conjunction words) }
    ensures bit_or { (words : Vocabulary) → Same (production.alone words (parsed.bit_or words)) (production.bit_or words) }
    ensures bit_xor { (words : Vocabulary) → Same (production.alone words (parsed.bit_xor words)) (production.bit_xor words) }
    ensures bit_and { (words : Vocabulary) → Same (production.alone words (parsed.bit_and words)) (production.bit_and words) }
    ensures shift { (words : Vocabulary) → Same (production.alone words (parsed.shift words)) (production.shift words) }
    ensures sum { (words : Vocabulary) → Same (production.alone words (parsed.sum words)) (production.sum words) }
    ensures product { (words : Vocabulary) → Same (production.alone words (λ E Z L m. parsed.product words E Z L)) (production.product words) }
{}
