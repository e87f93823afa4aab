//! The laws that the ranges meet, one function for each subject: for operands in their ranges the operator's value lies in
//! its range, for all unbounded integers. None of them has anything to do.

ghost use Rattle.c_model.specs.Ranges.{sum_range, difference_range, negation_range, complement_range, product_range, quotient_range};
ghost use Rattle.c_model.specs.Ranges.{remainder_range, shift_left_range, shift_right_range, bitwise_and_range, bitwise_or_range, bitwise_xor_range};
ghost use Rattle.ea_num.specs.Laws.{KeepsRanges, KeepsRange};
ghost use Rattle.ea_num.specs.Laws.{SumsLie, DifferencesLie, NegationsLie, ComplementsLie};
ghost use Rattle.ea_num.specs.Laws.{ProductsLie, QuotientsLie, RemaindersLie, DivisionTruncates};
ghost use Rattle.ea_num.specs.Laws.{ShiftsLeftLie, ShiftsRightLie, ShiftsRoundDown};
ghost use Rattle.ea_num.specs.Laws.{AndsLie, OrsLie, XorsLie, OperatorsActOnEachBit};
ghost use Rattle.ea_num.specs.Laws.{WidthsFit, ConversionsFit, ConversionsAreCongruent, ConversionsKeepValues};

/// The range of each operator, where there is one, has a number in it, so that it can be an operand again.
pub fn ordered()
    ensures sums { KeepsRanges sum_range }
    ensures differences { KeepsRanges difference_range }
    ensures negations { KeepsRange negation_range }
    ensures complements { KeepsRange complement_range }
    ensures products { KeepsRanges product_range }
    ensures quotients { KeepsRanges quotient_range }
    ensures remainders { KeepsRanges remainder_range }
    ensures shifts_left { KeepsRanges shift_left_range }
    ensures shifts_right { KeepsRanges shift_right_range }
    ensures ands { KeepsRanges bitwise_and_range }
    ensures ors { KeepsRanges bitwise_or_range }
    ensures xors { KeepsRanges bitwise_xor_range }
{}

/// Sums, differences, opposites and complements.
pub fn arithmetic()
    ensures sums { SumsLie }
    ensures differences { DifferencesLie }
    ensures negations { NegationsLie }
    ensures complements { ComplementsLie }
{}

/// Products, quotients and remainders; division rounds toward zero.
pub fn products()
    ensures products { ProductsLie }
    ensures quotients { QuotientsLie }
    ensures remainders { RemaindersLie }
    ensures truncates { DivisionTruncates }
{}

/// Shifts; a shift to the right rounds down.
pub fn shifts()
    ensures left { ShiftsLeftLie }
    ensures right { ShiftsRightLie }
    ensures rounds_down { ShiftsRoundDown }
{}

/// Operators on bits; each is its operator on each bit of infinite two's complement.
pub fn bits()
    ensures and { AndsLie }
    ensures or { OrsLie }
    ensures xor { XorsLie }
    ensures each_bit { OperatorsActOnEachBit }
{}

/// Widths and conversions: a number of a range is a value of its width's type; a conversion gives the one value of the
/// type that is congruent.
pub fn conversions()
    ensures widths { WidthsFit }
    ensures fit { ConversionsFit }
    ensures congruent { ConversionsAreCongruent }
    ensures kept { ConversionsKeepValues }
{}
