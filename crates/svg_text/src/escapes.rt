ghost use Rattle.std.specs.Prelude.{◌≡◌, ◌++◌, OnOk};
ghost use Rattle.svg_text.specs.Escapes.{escaped, is_plain, entity_of};

use rp_base::NoMemory;

/// Appends bytes as the text of an XML document: `&`, `<`, `>` and `"` as entities, other
/// characters of ASCII as they are, and any other byte as the character that stands for none.
///
/// # Errors
///
/// [`NoMemory`] where memory ran out. A part was appended then.
pub fn push_escaped(out: &mut Vec<u8>, bytes: &[u8]) -> Result<(), NoMemory>
    ensures { OnOk result (out.new.items ≡ out.old.items ++ escaped bytes.now) }
{
    for byte in bytes {
        if is_plain(*byte) {
            out.push(*byte)?;
        } else {
            out.extend_from_slice(entity_of(*byte).as_bytes())?;
        }
    }
    Ok(())
}

/// Whether a byte stands for itself.
fn is_plain(byte: u8) -> bool
    ensures { result ≡ is_plain byte }
{
    (b' ' <= byte && byte <= b'~')
        && !(byte == b'&' || byte == b'<' || byte == b'>' || byte == b'"')
}

/// The entity of a byte that doesn't.
fn entity_of(byte: u8) -> &'static str
    ensures { result.now ≡ entity_of byte }
{
    match byte {
        b'&' => "&amp;",
        b'<' => "&lt;",
        b'>' => "&gt;",
        b'"' => "&quot;",
        _ => "&#65533;",
    }
}
