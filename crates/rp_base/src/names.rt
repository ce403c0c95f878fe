ghost use Rattle.std.specs.Prelude.{◌≡◌, ℕ, ◌≤◌, ◌<◌, ◌⊎◌, length, IfSome, IfNone, Contains};
ghost use Rattle.rp_base.specs.Texts.{text_before_zero};

use crate::limits::NAME_MOST;
use std::marker::Model;

/// A name of a channel, a driver, a link or an image: at most 31 bytes, none of them zero.
/// Contracts see it as the list of these bytes.
#[derive(Clone, Copy, Debug, PartialEq, Eq, PartialOrd, Ord, Hash)]
pub struct Name {
    bytes: [u8; 32],
}

impl Model for Name {
    ghost use Rattle.std.specs.Prelude.{ℕ, List, ◌≡◌, ◌≤◌, length};
    ghost use Rattle.rp_base.specs.Texts.{text_before_zero, padded_name};
    ghost use Rattle.rp_base.specs.declared.limits.TheConstants.{NAME_MOST};

    ghost Value = { List ℕ };

    ghost view = { λ n. text_before_zero n.bytes };

    ghost invariant = { λ n. (n.bytes ≡ padded_name (text_before_zero n.bytes)) × (length (text_before_zero n.bytes) ≤ NAME_MOST) };

    ghost inverse = { λ text. record { bytes = padded_name text } };
}

impl Name {
    /// The name of this text. There is none exactly where the text is longer than [`NAME_MOST`]
    /// bytes or holds a zero.
    pub fn of(text: &[u8]) -> Option<Name>
        ensures some { IfSome result (λ name. name ≡ text.now) }
        ensures fits { IfSome result (λ name. (length text.now ≤ NAME_MOST) × (text_before_zero text.now ≡ text.now)) }
        ensures none { IfNone result ((NAME_MOST < length text.now) ⊎ Contains text.now 0) }
    {
        if text.len() > NAME_MOST || text.contains(&0) {
            return None;
        }
        let mut bytes = [0; 32];
        bytes[..text.len()].copy_from_slice(text);
        Some(Name { bytes })
    }

    /// The text of the name.
    pub fn bytes(&self) -> &[u8]
        ensures bytes { result.now ≡ self.now }
        ensures short { length self.now ≤ NAME_MOST }
        ensures nonzero { text_before_zero self.now ≡ self.now }
    {
        let len = self.bytes.iter().take_while(|byte| **byte != 0).count();
        &self.bytes[..len]
    }
}
