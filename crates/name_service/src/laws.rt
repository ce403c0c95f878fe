//! Laws of the name service. Each is the contract of an empty function, and speaks of definitions alone.

ghost use Rattle.std.specs.Prelude.{◌≡◌, ℕ, List, true};
ghost use Rattle.rp_base.specs.Texts.{text_before_zero};
ghost use Rattle.name_service.specs.Channels.{is_same_name};

/// Two texts without a zero that are one name are one text.
pub fn same_name()
    ensures { (a b : List ℕ) → text_before_zero a ≡ a → text_before_zero b ≡ b → is_same_name a b ≡ true → a ≡ b }
{}
