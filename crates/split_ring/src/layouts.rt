//! The words and the slots of a new link.
ghost use Rattle.std.specs.Prelude.{◌≡◌, ℕ, ◌+◌, ◌-◌, ◌*◌, ◌≤◌, ◌++◌, ◌∷◌, [], replicate, true, IfOk};
ghost use Rattle.std.specs.List.{range_with_len};
ghost use Rattle.rp_base.specs.Limits.{IsRingSize};
ghost use Rattle.rp_base.specs.declared.limits.TheConstants.{BOOK_MOST, CAPACITY_MOST};
ghost use Rattle.ring_core.specs.Rings.{sizes_of};
ghost use Rattle.link_words.specs.DeskSeats.{code_in, home_view};
ghost use Rattle.link_words.specs.Fresh.{opened_slots};
ghost use Rattle.link_words.specs.Layouts.{layout, words_apart};
ghost use Rattle.rp_base.specs.declared.kinds.End.TheVariants as side;
ghost use Rattle.link_words.specs.declared.rule.Slot.TheVariants.{Buffer};
ghost use Rattle.split_ring.specs.Openings.{first_words, opened_entries, opened_words, IsOpenable};

use atomic_table::Badge;
use link_words::{DeskView, LinkSizes, ReceiverState, SenderState, Slot};
use ring_core::RingSizes;
use rp_base::{End, Message, NoMemory, ring_capacity};
use std::alloc::Global;

/// The sizes of the rings of a lane, whose sender is the device or the driver.
pub(crate) fn ring_sizes(entries: u32, device_sends: bool) -> RingSizes
    ensures { result ≡ sizes_of entries device_sends }
{
    let capacity = ring_capacity(entries);
    RingSizes {
        entries,
        capacity,
        own: if device_sends { 0 } else { capacity },
    }
}

/// Appends the entry of a ring that names this buffer, with the idle words after it.
fn push_entry(words: &mut Vec<u64>, buffer: u64) -> Result<(), NoMemory>
    ensures { IfOk result (λ _. words.new.items ≡ words.old.items ++ buffer ∷ 0 ∷ 0 ∷ 0 ∷ 0 ∷ 0 ∷ 0 ∷ 0 ∷ []) }
{
    words.extend_from_slice(&[buffer, 0, 0, 0, 0, 0, 0, 0])?;
    Ok(())
}

/// Appends the entries of a ring that name these buffers.
fn push_numbers(words: &mut Vec<u64>, first: u16, count: u16) -> Result<(), NoMemory>
    requires { first + count ≤ 65535 }
    ensures { IfOk result (λ _. words.new.items ≡ words.old.items ++ words_apart 0 (range_with_len first count)) }
{
    for number in 0..count {
        push_entry(words, u64::from(first + number))?;
    }
    Ok(())
}

/// Appends so many entries that are 0.
fn push_blanks(words: &mut Vec<u64>, count: u32) -> Result<(), NoMemory>
    ensures { IfOk result (λ _. words.new.items ≡ words.old.items ++ words_apart 0 (replicate count 0)) }
{
    for _ in 0..count {
        push_entry(words, 0)?;
    }
    Ok(())
}

/// Appends the entries of the two rings of a new lane.
fn push_entries(words: &mut Vec<u64>, sizes: &RingSizes) -> Result<(), NoMemory>
    requires sizes { (sizes.now.own ≤ sizes.now.capacity) × (sizes.now.capacity ≤ sizes.now.entries) × (sizes.now.capacity ≤ CAPACITY_MOST) }
    ensures { IfOk result (λ _. words.new.items ≡ words.old.items ++ words_apart 0 (opened_entries sizes.now)) }
{
    let stocked = sizes.capacity - sizes.own;
    push_blanks(words, sizes.entries)?;
    push_numbers(words, sizes.own, stocked)?;
    push_blanks(words, sizes.entries - u32::from(stocked))?;
    Ok(())
}

/// The words of a new link, each apart from the next.
pub(crate) fn new_words(alloc: Global, sizes: &LinkSizes) -> Result<Vec<u64>, NoMemory>
    requires { IsOpenable sizes.now }
    ensures { IfOk result (λ words. words.items ≡ layout (opened_words sizes.now)) }
{
    let mut words = Vec::from_array(alloc, first_words(sizes))?;
    push_entries(&mut words, &sizes.to_host)?;
    push_entries(&mut words, &sizes.to_remote)?;
    Ok(words)
}

/// The words before the entries: the era, and the return indexes, are not 0.
fn first_words(sizes: &LinkSizes) -> [u64; 160]
    requires { IsOpenable sizes.now }
    ensures { result ≡ layout (first_words sizes.now) }
{
    let mut words = [0; 160];
    words[16] = u64::from(sizes.first) * 2 + 1;
    words[112] = u64::from(sizes.to_host.capacity - sizes.to_host.own);
    words[144] = u64::from(sizes.to_remote.capacity - sizes.to_remote.own);
    words
}

/// The slots of a new link: the side states with the seats of the desks' tables, and the buffers.
pub(crate) fn new_slots(
    alloc: Global,
    sizes: &LinkSizes,
    host: Badge<DeskView>,
    remote: Badge<DeskView>,
) -> Result<Vec<Slot>, NoMemory>
    requires book { sizes.now.book ≤ BOOK_MOST }
    requires host { host.views ≡ home_view (code_in host.views) ∷ [] }
    requires remote { remote.views ≡ home_view (code_in remote.views) ∷ [] }
    ensures { IfOk result (λ slots. slots.items ≡ opened_slots sizes.now.book (record { end = side.Host; table = host.table_id; code = code_in host.views }) (record { end = side.Remote; table = remote.table_id; code = code_in remote.views })
        (replicate sizes.now.to_host.capacity []) (replicate sizes.now.to_remote.capacity [])) }
{
    let mut slots = Vec::new(alloc);
    slots.push(Slot::Sender(SenderState::make(alloc, sizes.book)?))?;
    slots.push(Slot::Receiver(ReceiverState::make(alloc, sizes.book, End::Host, host)?))?;
    slots.push(Slot::Sender(SenderState::make(alloc, sizes.book)?))?;
    slots.push(Slot::Receiver(ReceiverState::make(alloc, sizes.book, End::Remote, remote)?))?;
    push_buffers(&mut slots, sizes.to_host.capacity)?;
    push_buffers(&mut slots, sizes.to_remote.capacity)?;
    Ok(slots)
}

/// Appends so many buffers, each with the message of no bytes.
fn push_buffers(slots: &mut Vec<Slot>, count: u16) -> Result<(), NoMemory>
    ensures { IfOk result (λ _. slots.new.items ≡ slots.old.items ++ replicate count (Buffer [])) }
{
    for _ in 0..count {
        slots.push(Slot::Buffer(Message::empty()))?;
    }
    Ok(())
}
