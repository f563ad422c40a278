//! What the definitions say together. A law is a function without parameters whose contract holds; there is
//! nothing to call it for.
ghost use Rattle.std.specs.Prelude.{ℕ, ◌≤◌, List};
ghost use Rattle.qos_words.specs.Names.{NamesApart};

/// The outputs of different ports have different names.
pub fn names_are_apart()
    ensures { (prefix : List ℕ) (count : ℕ) → count ≤ 16 → NamesApart prefix count }
{}
