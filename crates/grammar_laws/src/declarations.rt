//! Declarators, declarations, lists in braces, structs and enums: each production is the one that stands in the head of the grammar.

ghost use Rattle.grammar.specs.Exact.{Same};
ghost use Rattle.c_model.specs.declared.declarations.Named.{Named};
ghost use Rattle.c_model.specs.Vocabulary.{Vocabulary};
ghost use Rattle.c_model.specs.ExpressionGrammar.{most_nested};
ghost use Rattle.c_model.specs.DeclarationGrammar.{list_in};
ghost use Rattle.c_model.specs.DeclarationGrammar as parsed;
ghost use Rattle.grammar_laws.specs.DeclarationProductions as production;
ghost use Rattle.grammar_laws.specs.Laws.{BracesAreProductions, DeeperBracesAreLate, DeeperListsAreLate, ListsAreProductions, MembersAreProductions};
ghost use Rattle.grammar_laws.specs.Laws.{TypesAreProductions};

/// Declarators, declarations in a function, and parameters up to their parenthesis.
pub fn declarations()
    ensures dtor { (words : Vocabulary) (kind : Named) → Same (parsed.full_dtor words kind) (production.dtor words kind) }
    ensures decl { (words : Vocabulary) → Same (parsed.declaration words) (production.decl words) }
    ensures param { (words : Vocabulary) → Same (parsed.parameter words) (production.param words) }
    ensures params { (words : Vocabulary) → Same (parsed.parameters words) (production.closed_params words) }
{}

/// Initialisers, and lists in which braces are open at most so often at once; one more passes the limit.
pub fn lists()
    ensures init { (words : Vocabulary) → Same (parsed.initialiser words) (production.init words (list_in words most_nested)) }
    ensures list { ListsAreProductions }
    ensures deepest { DeeperListsAreLate }
{}

/// Structs and enums that are defined where they are named, in braces that are open at most so often at once; one more passes the limit.
pub fn braces()
    ensures braced { TypesAreProductions }
    ensures braces { BracesAreProductions }
    ensures deepest { DeeperBracesAreLate }
    ensures member { MembersAreProductions }
    ensures one { (words : Vocabulary) → Same (parsed.constant words) (production.one words) }
{}
