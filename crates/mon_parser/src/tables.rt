//! Operators, by their punctuators.

use c_model::punctuator;
use mon_syntax::MonOp;

/// Operators of two operands.
pub const OPERATORS: &[(u8, MonOp)] = &[
    (punctuator::PLUS, MonOp::Add),
    (punctuator::MINUS, MonOp::Sub),
    (punctuator::TIMES, MonOp::Mul),
    (punctuator::DIVIDE, MonOp::Div),
    (punctuator::PERCENT, MonOp::Rem),
    (punctuator::SHIFT_LEFT, MonOp::Shl),
    (punctuator::SHIFT_RIGHT, MonOp::Shr),
    (punctuator::AMPERSAND, MonOp::And),
    (punctuator::BAR, MonOp::Or),
    (punctuator::CARET, MonOp::Xor),
    (punctuator::EQUAL, MonOp::Eq),
    (punctuator::NOT_EQUAL, MonOp::Ne),
    (punctuator::LESS, MonOp::Lt),
    (punctuator::LESS_EQUAL, MonOp::Le),
    (punctuator::GREATER, MonOp::Gt),
    (punctuator::GREATER_EQUAL, MonOp::Ge),
];
