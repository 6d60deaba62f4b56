// What is true of the parts of bytes, of the texts that bytes are, and of the kinds of values. These functions do nothing.
ghost use Rattle.sp_methods.specs.Kept.{MethodsKeepToTheirKinds};
ghost use Rattle.sp_methods.specs.Laws.{PartsAtTheFirst, PartsWithoutAny, TakesCharacters, FillsOneByte};

/// The parts of bytes are what stands before the first occurrence of the separator, and the parts of what stands behind it.
pub fn law_of_parts()
    ensures first { PartsAtTheFirst }
    ensures none { PartsWithoutAny }
{}

/// In UTF-8 a character is taken whole, and a byte with which none begins is filled alone.
#[tactic(auto, using(crate::proofs::Texts::takes_characters, crate::proofs::Texts::fills_one_byte))]
pub fn law_of_characters()
    ensures character { TakesCharacters }
    ensures stray { FillsOneByte }
{}

/// Operands of the kinds that a method takes suit it, and what it gives is of the kinds that it gives.
#[tactic(auto, using(crate::proofs::KindsKept::methods_keep))]
pub fn law_of_kinds()
    ensures { MethodsKeepToTheirKinds }
{}
