ghost use Rattle.std.specs.Prelude.{◌≡◌};
ghost use Rattle.rp_base.specs.Texts.{padded_name};

use rp_base::Name;

/// The bytes of a name, and zeros after them, 32 bytes in all.
pub(crate) fn padded(name: &Name) -> [u8; 32]
    ensures { result ≡ padded_name name.now }
{
    let mut bytes = [0; 32];
    let text = name.bytes();
    bytes[..text.len()].copy_from_slice(text);
    bytes
}
