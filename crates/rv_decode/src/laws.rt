// What holds of the instruction table as a whole.
ghost use Rattle.std.specs.Prelude.{◌≡◌, ℕ, ◌<◌, ◌^◌, Some, IfSome};
ghost use Rattle.rv_decode.specs.declared.instruction.Inst.{Inst};
ghost use Rattle.rv_decode.specs.Decoding.{decoded};
ghost use Rattle.rv_decode.specs.Table.{Encodes};

/// A word has at most one instruction, which the function of its fields finds wherever there is one.
///
/// A law of the table, without code.
pub fn table_is_a_function_of_the_word()
    ensures one { (word : ℕ) → (a b : Inst) → Encodes word a → Encodes word b → a ≡ b }
    ensures found { (word : ℕ) → (inst : Inst) → Encodes word inst → decoded word ≡ Some inst }
    ensures row { (word : ℕ) → word < 2 ^ 32 → IfSome (decoded word) (Encodes word) }
{}
