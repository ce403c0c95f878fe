//! Laws of texts. Each is the contract of an empty function, and speaks of definitions alone.

ghost use Rattle.std.specs.Prelude.{ℕ, List};
ghost use Rattle.svg_text.specs.Escapes.{IsContent, escaped};

/// A text that is escaped holds plain bytes and entities, and nothing else.
pub fn no_markup()
    ensures { (text : List ℕ) → IsContent (escaped text) }
{}
