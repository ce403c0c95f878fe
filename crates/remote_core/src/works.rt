ghost use Rattle.std.specs.Prelude.{◌≡◌, ◌+◌, ◌≤◌, ◌++◌, length, false, is_ok, IfOk};
ghost use Rattle.rp_base.specs.declared.limits.TheConstants.{MESSAGE_MOST, NAME_MOST};
ghost use Rattle.lane_model.specs.declared.calls.Wish.TheVariants as call;
ghost use Rattle.remote_core.specs.Records.{has_large_operand, names_memory, with_memory};
ghost use Rattle.remote_core.specs.Works.{announcement, crash_kind, destination, done_with, memory_after_next, work_of_next, work_with, IsFitWork};

use crate::named::named_place;
use crate::workers::Task;
use addr_translate::{CoreMemory, Map};
use lane_model::Wish;
use remote_code::{Record, WorkerFault};
use rp_base::{CrashKind, MESSAGE_MOST, Message, NAME_MOST, put_u32};
use rpmsg_header::head;

/// The address of the name service.
const SERVICE_ADDRESS: u32 = 53;

/// The destination by which a record means the source of the last whole message.
const LAST_SOURCE: u32 = 0xffff_ffff;

const ANNOUNCEMENT_SIZE: usize = 40;

/// Does the work of a record, if the bytes are there that it names. The source of the last whole message
/// is `source`. What the record asks of the link becomes the wish.
pub(crate) fn perform(
    op: Record,
    memory: &mut CoreMemory,
    map: &Map,
    source: u32,
    wish: &mut Wish,
) -> Result<Task, WorkerFault>
    requires memory { length memory.old ≡ map.now.memory_len }
    requires operands { has_large_operand op ≡ false }
    ensures work { done_with result wish.new ≡ work_of_next memory.old map.now source (with_memory map.now op) }
    ensures done { is_ok result ≡ names_memory map.now op }
    ensures memory { memory.new ≡ memory_after_next memory.old map.now (with_memory map.now op) }
    ensures length { length memory.new ≡ length memory.old }
    ensures fit { IfOk result (λ task. IsFitWork (work_with task wish.new)) }
{
    match op {
        Record::Halt => return Ok(Task::Halted),
        Record::Announce(a, b, c) => {
            let at = named_place(map, c, 32)?;
            let payload = announcement(memory.bytes(at, NAME_MOST as u32), a, b);
            send(wish, &head(a, SERVICE_ADDRESS, 40), &payload);
        }
        Record::Bind(a) => *wish = Wish::Bind(a),
        Record::Send(n, a, b, c) => {
            let at = named_place(map, c, u32::from(n))?;
            let payload = memory.bytes(at, u32::from(n));
            send(wish, &head(a, destination(source, b), n), payload);
        }
        Record::Raw(n, c) => {
            let at = named_place(map, c, u32::from(n))?;
            send(wish, &[], memory.bytes(at, u32::from(n)));
        }
        Record::Take => *wish = Wish::Take,
        Record::Trace(n, a, c) => {
            let from = named_place(map, c, u32::from(n))?;
            let to = named_place(map, a, u32::from(n))?;
            memory.copy(from, to, u32::from(n));
            return Ok(Task::Nothing);
        }
        Record::Crash(a) => return Ok(Task::Crash(crash_kind(a))),
        Record::Loop(..) => return Ok(Task::Nothing),
    }
    Ok(Task::Asked)
}

/// Makes it the wish to send the message of these bytes, those of `head` before those of `body`.
fn send(wish: &mut Wish, head: &[u8], body: &[u8])
    requires { length head.now + length body.now ≤ MESSAGE_MOST }
    ensures wish { wish.new ≡ call.Send (head.now ++ body.now) }
{
    *wish = Wish::Send(Message::empty());
    if let Wish::Send(message) = wish {
        message.set(head, body);
    }
}

/// The payload of an announcement: the first [`NAME_MOST`] bytes of the name as they are and a 0, then the
/// address and the flags.
fn announcement(name: &[u8], address: u32, flags: u32) -> [u8; 40]
    requires { length name.now ≡ NAME_MOST }
    ensures { result ≡ announcement name.now address flags }
{
    let mut payload = [0; ANNOUNCEMENT_SIZE];
    put_u32(&mut payload, 32, address);
    put_u32(&mut payload, 36, flags);
    payload[..name.len()].copy_from_slice(name);
    payload
}

/// The address that a record sends to.
fn destination(source: u32, b: u32) -> u32
    ensures { result ≡ destination source b }
{
    if b == LAST_SOURCE { source } else { b }
}

/// The kind of a crash by its number, from 0 to 2.
fn crash_kind(a: u32) -> CrashKind
    ensures { result ≡ crash_kind a }
{
    match a {
        0 => CrashKind::Mmufault,
        1 => CrashKind::Watchdog,
        _ => CrashKind::Fatal,
    }
}
