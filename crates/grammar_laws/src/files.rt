//! Declarations at file scope: each production is the one that stands in the head of the grammar.

ghost use Rattle.grammar.specs.Exact.{Same};
ghost use Rattle.c_model.specs.Vocabulary.{Vocabulary};
ghost use Rattle.c_model.specs.DeclarationGrammar.{Definitions, file_spec};
ghost use Rattle.c_model.specs.ProgramGrammar.{FileParts, declared_external, more_external};
ghost use Rattle.grammar_laws.specs.FileProductions as production;

/// What stands before the declarators, a declaration or a function, and a text.
pub fn files()
    ensures spec { (words : Vocabulary) (defined : Definitions) → Same (file_spec words defined) (production.spec words defined) }
    ensures external { (parts : FileParts) → Same (declared_external parts) (production.external parts) }
    ensures unit { (parts : FileParts) → Same (more_external parts) (production.unit parts) }
{}
