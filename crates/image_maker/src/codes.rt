ghost use Rattle.std.specs.Prelude.{◌≡◌, ◌++◌, IfOk, OnOk, length};
ghost use Rattle.image_maker.specs.Segments.{is_record, records_in_front, code_of, record_fields, data_of};

use crate::sizes::times;
use elf_writer::{put_half, put_words};
use rp_base::NoMemory;
use script_lang::RecipeLine;
use std::alloc::AllocError;

/// Whether a line is a record of a worker's code.
pub(crate) fn is_record(line: &RecipeLine) -> bool
    ensures { result ≡ is_record line.now }
{
    matches!(
        line,
        RecipeLine::Halt
            | RecipeLine::Announce(..)
            | RecipeLine::Bind(_)
            | RecipeLine::Send(..)
            | RecipeLine::Raw(..)
            | RecipeLine::Take
            | RecipeLine::Log(..)
            | RecipeLine::Crash(_)
            | RecipeLine::Loop(..)
    )
}

/// How many records are at the start.
fn records_in_front(lines: &[RecipeLine]) -> usize
    ensures { result ≡ records_in_front lines.now }
{
    lines.iter().take_while(|line| is_record(line)).count()
}

/// How many bytes the records at the start have.
#[tactic(auto, using(crate::proofs::CodeBytes::length_code))]
pub(crate) fn code_len(lines: &[RecipeLine]) -> Result<u64, NoMemory>
    ensures { IfOk result (λ len. len ≡ length (code_of lines.now)) }
{
    times(16, records_in_front(lines) as u64)
}

/// Appends the bytes of a line of segments.
pub(crate) fn put_line_data(out: &mut Vec<u8>, line: &RecipeLine) -> Result<(), AllocError>
    ensures { OnOk result (out.new.items ≡ out.old.items ++ data_of line.now) }
{
    match line {
        RecipeLine::Load(_, bytes, _) => out.extend_from_slice(bytes.bytes()),
        RecipeLine::Halt => put_record(out, 0, 0, &[0, 0, 0]),
        RecipeLine::Announce(address, flags, da) => put_record(out, 1, 0, &[*address, *flags, *da]),
        RecipeLine::Bind(address) => put_record(out, 2, 0, &[*address, 0, 0]),
        RecipeLine::Send(source, destination, da, len) => {
            put_record(out, 3, *len, &[*source, *destination, *da])
        }
        RecipeLine::Raw(da, len) => put_record(out, 4, *len, &[0, 0, *da]),
        RecipeLine::Take => put_record(out, 5, 0, &[0, 0, 0]),
        RecipeLine::Log(to, from, len) => put_record(out, 6, *len, &[*to, 0, *from]),
        RecipeLine::Crash(kind) => put_record(out, 7, 0, &[*kind, 0, 0]),
        RecipeLine::Loop(count, target) => put_record(out, 8, 0, &[*count, *target, 0]),
        _ => Ok(()),
    }
}

/// Appends a record: the number of its kind, a length, and its operands.
fn put_record(out: &mut Vec<u8>, kind: u64, len: u64, operands: &[u64]) -> Result<(), AllocError>
    ensures { OnOk result (out.new.items ≡ out.old.items ++ record_fields kind len operands.now) }
{
    put_half(out, kind)?;
    put_half(out, len)?;
    put_words(out, operands)
}
