ghost use Rattle.std.specs.Prelude.{◌≡◌, ◌++◌, OnOk};
ghost use Rattle.elf_writer.specs.Fields.{byte_field, half_field, word_field, word_fields};

use std::alloc::AllocError;

/// Appends the lowest byte of a number.
pub fn put_byte(out: &mut Vec<u8>, value: u64) -> Result<(), AllocError>
    ensures { OnOk result (out.new.items ≡ out.old.items ++ byte_field value) }
{
    out.extend_from_slice(&value.to_le_bytes()[..1])
}

/// Appends the lowest two bytes of a number.
pub fn put_half(out: &mut Vec<u8>, value: u64) -> Result<(), AllocError>
    ensures { OnOk result (out.new.items ≡ out.old.items ++ half_field value) }
{
    out.extend_from_slice(&value.to_le_bytes()[..2])
}

/// Appends the lowest four bytes of a number.
pub fn put_word(out: &mut Vec<u8>, value: u64) -> Result<(), AllocError>
    ensures { OnOk result (out.new.items ≡ out.old.items ++ word_field value) }
{
    out.extend_from_slice(&value.to_le_bytes()[..4])
}

/// Appends the lowest four bytes of each number.
pub fn put_words(out: &mut Vec<u8>, values: &[u64]) -> Result<(), AllocError>
    ensures { OnOk result (out.new.items ≡ out.old.items ++ word_fields values.now) }
{
    for value in values {
        put_word(out, *value)?;
    }
    Ok(())
}
