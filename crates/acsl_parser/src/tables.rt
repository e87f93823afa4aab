//! Operators and relations, by their punctuators (ACSL 2.2.1).

ghost use Rattle.std.specs.Prelude.{◌≡◌};
ghost use Rattle.c_model.specs.AnnotationGrammar.{relations_behind, direction_behind};
ghost use Rattle.acsl_parser.specs.Reading.{operators};

use c_model::formulas::{ChainDirection, FormulaOperator};
use c_model::punctuator;
use c_syntax::logic::Connective;
use c_syntax::{BinOp, Relation, UnOp};

/// A level of operators that join from the left.
#[derive(Clone, Copy, PartialEq, Eq, Debug)]
pub enum Level {
    Product,
    Sum,
    Shift,
    BitAnd,
    BitXor,
    BitOr,
    Conjunction,
    Exclusion,
    Disjunction,
    Equivalence,
}

/// Prefix operators.
pub const PREFIXES: &[(u8, UnOp)] = &[
    (punctuator::PLUS, UnOp::Plus),
    (punctuator::MINUS, UnOp::Minus),
    (punctuator::EXCLAMATION, UnOp::Not),
    (punctuator::TILDE, UnOp::Flip),
    (punctuator::TIMES, UnOp::Deref),
    (punctuator::AMPERSAND, UnOp::Address),
];

/// What joins from the left in a sum of a zone besides `+`.
pub const DIFFERENCES: &[(u8, FormulaOperator)] = &[(
    punctuator::MINUS,
    FormulaOperator::Term(BinOp::Sub),
)];

/// The operators of a level.
pub fn operators(level: Level) -> &'static [(u8, FormulaOperator)]
    ensures { result.now ≡ operators level }
{
    match level {
        Level::Product => &[
            (punctuator::TIMES, FormulaOperator::Term(BinOp::Mul)),
            (punctuator::DIVIDE, FormulaOperator::Term(BinOp::Div)),
            (punctuator::PERCENT, FormulaOperator::Term(BinOp::Rem)),
        ],
        Level::Sum => &[
            (punctuator::PLUS, FormulaOperator::Term(BinOp::Add)),
            (punctuator::MINUS, FormulaOperator::Term(BinOp::Sub)),
        ],
        Level::Shift => &[
            (punctuator::SHIFT_LEFT, FormulaOperator::Term(BinOp::Shl)),
            (punctuator::SHIFT_RIGHT, FormulaOperator::Term(BinOp::Shr)),
        ],
        Level::BitAnd => &[(punctuator::AMPERSAND, FormulaOperator::Term(BinOp::BitAnd))],
        Level::BitXor => &[(punctuator::CARET, FormulaOperator::Term(BinOp::BitXor))],
        Level::BitOr => &[(punctuator::BAR, FormulaOperator::Term(BinOp::BitOr))],
        Level::Conjunction => &[(
            punctuator::AND_AND,
            FormulaOperator::Predicate(Connective::And),
        )],
        Level::Exclusion => &[(
            punctuator::CARET_CARET,
            FormulaOperator::Predicate(Connective::Xor),
        )],
        Level::Disjunction => &[(
            punctuator::OR_OR,
            FormulaOperator::Predicate(Connective::Or),
        )],
        Level::Equivalence => &[(
            punctuator::EQUIVALENT,
            FormulaOperator::Predicate(Connective::Iff),
        )],
    }
}

/// The relations with which a chain goes on that goes this way.
pub fn relations_behind(direction: ChainDirection) -> &'static [(u8, Relation)]
    ensures { result.now ≡ relations_behind direction }
{
    match direction {
        ChainDirection::Start => &[
            (punctuator::LESS, Relation::Lt),
            (punctuator::LESS_EQUAL, Relation::Le),
            (punctuator::GREATER, Relation::Gt),
            (punctuator::GREATER_EQUAL, Relation::Ge),
            (punctuator::EQUAL, Relation::Eq),
            (punctuator::NOT_EQUAL, Relation::Ne),
        ],
        ChainDirection::Equal => &[
            (punctuator::LESS, Relation::Lt),
            (punctuator::LESS_EQUAL, Relation::Le),
            (punctuator::GREATER, Relation::Gt),
            (punctuator::GREATER_EQUAL, Relation::Ge),
            (punctuator::EQUAL, Relation::Eq),
        ],
        ChainDirection::Up => &[
            (punctuator::LESS, Relation::Lt),
            (punctuator::LESS_EQUAL, Relation::Le),
            (punctuator::EQUAL, Relation::Eq),
        ],
        ChainDirection::Down => &[
            (punctuator::GREATER, Relation::Gt),
            (punctuator::GREATER_EQUAL, Relation::Ge),
            (punctuator::EQUAL, Relation::Eq),
        ],
        ChainDirection::Ended => &[],
    }
}

/// Which way a chain goes after one more relation.
pub fn direction_behind(direction: ChainDirection, relation: Relation) -> ChainDirection
    ensures { result ≡ direction_behind direction relation }
{
    match relation {
        Relation::Lt | Relation::Le => ChainDirection::Up,
        Relation::Gt | Relation::Ge => ChainDirection::Down,
        Relation::Eq => match direction {
            ChainDirection::Start => ChainDirection::Equal,
            other => other,
        },
        Relation::Ne => ChainDirection::Ended,
    }
}
