//! Operators, by their punctuators (C99 6.5).

ghost use Rattle.std.specs.Prelude.{◌≡◌};
ghost use Rattle.c_model.specs.ExpressionGrammar.{operators_at};

use c_model::operands::Connective;
use c_model::punctuator;
use c_syntax::{BinOp, BumpOp, UnOp};

/// Prefix operators (C99 6.5.3.2, 6.5.3.3).
pub const UNARY: &[(u8, UnOp)] = &[
    (punctuator::PLUS, UnOp::Plus),
    (punctuator::MINUS, UnOp::Minus),
    (punctuator::EXCLAMATION, UnOp::Not),
    (punctuator::TILDE, UnOp::Flip),
    (punctuator::TIMES, UnOp::Deref),
    (punctuator::AMPERSAND, UnOp::Address),
];

/// `++` and `--` before their operand (C99 6.5.3.1).
pub const PREFIX_BUMPS: &[(u8, BumpOp)] = &[
    (punctuator::INCREMENT, BumpOp::PreUp),
    (punctuator::DECREMENT, BumpOp::PreDown),
];

/// `++` and `--` after their operand (C99 6.5.2.4).
pub const POSTFIX_BUMPS: &[(u8, BumpOp)] = &[
    (punctuator::INCREMENT, BumpOp::PostUp),
    (punctuator::DECREMENT, BumpOp::PostDown),
];

/// `=`, and `op=` (C99 6.5.16).
pub const ASSIGNMENTS: &[(u8, Option<BinOp>)] = &[
    (punctuator::ASSIGN, None),
    (punctuator::MULTIPLY_ASSIGN, Some(BinOp::Mul)),
    (punctuator::DIVIDE_ASSIGN, Some(BinOp::Div)),
    (punctuator::REMAINDER_ASSIGN, Some(BinOp::Rem)),
    (punctuator::ADD_ASSIGN, Some(BinOp::Add)),
    (punctuator::SUBTRACT_ASSIGN, Some(BinOp::Sub)),
    (punctuator::SHIFT_LEFT_ASSIGN, Some(BinOp::Shl)),
    (punctuator::SHIFT_RIGHT_ASSIGN, Some(BinOp::Shr)),
    (punctuator::AND_ASSIGN, Some(BinOp::BitAnd)),
    (punctuator::XOR_ASSIGN, Some(BinOp::BitXor)),
    (punctuator::OR_ASSIGN, Some(BinOp::BitOr)),
];

/// How many levels of binary operators there are.
pub const LEVELS: u32 = 10;

/// The binary operators of a level (C99 6.5.5 to 6.5.14).
pub fn operators_at(level: u32) -> &'static [(u8, Connective)]
    ensures { result.now ≡ operators_at level }
{
    match level {
        0 => &[
            (punctuator::TIMES, Connective::Operator(BinOp::Mul)),
            (punctuator::DIVIDE, Connective::Operator(BinOp::Div)),
            (punctuator::PERCENT, Connective::Operator(BinOp::Rem)),
        ],
        1 => &[
            (punctuator::PLUS, Connective::Operator(BinOp::Add)),
            (punctuator::MINUS, Connective::Operator(BinOp::Sub)),
        ],
        2 => &[
            (punctuator::SHIFT_LEFT, Connective::Operator(BinOp::Shl)),
            (punctuator::SHIFT_RIGHT, Connective::Operator(BinOp::Shr)),
        ],
        3 => &[
            (punctuator::LESS, Connective::Operator(BinOp::Lt)),
            (punctuator::GREATER, Connective::Operator(BinOp::Gt)),
            (punctuator::LESS_EQUAL, Connective::Operator(BinOp::Le)),
            (punctuator::GREATER_EQUAL, Connective::Operator(BinOp::Ge)),
        ],
        4 => &[
            (punctuator::EQUAL, Connective::Operator(BinOp::Eq)),
            (punctuator::NOT_EQUAL, Connective::Operator(BinOp::Ne)),
        ],
        5 => &[(punctuator::AMPERSAND, Connective::Operator(BinOp::BitAnd))],
        6 => &[(punctuator::CARET, Connective::Operator(BinOp::BitXor))],
        7 => &[(punctuator::BAR, Connective::Operator(BinOp::BitOr))],
        8 => &[(punctuator::AND_AND, Connective::And)],
        9 => &[(punctuator::OR_OR, Connective::Or)],
        _ => &[],
    }
}
