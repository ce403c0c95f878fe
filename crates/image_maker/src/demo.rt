ghost use Rattle.std.specs.Prelude.{◌≡◌, ◌≤◌, ◌<◌, ◌++◌, IfOk, OnOk};
ghost use Rattle.std.specs.Fmt.{decimal};
ghost use Rattle.image_maker.specs.Demo.{core_lines, demo_text, drive_lines, image_lines, next_number, reply_word, session_core, session_lines, text_of};

use rp_base::NoMemory;
use std::alloc::{AllocError, Global};

/// The most sessions of a demo.
pub const SESSIONS_MOST: u32 = 500;

/// Bytes for the first line of a demo and the lines of its eight cores.
const FRONT_ROOM: usize = 512;

/// Bytes for the other lines of a session.
const SESSION_ROOM: usize = 300;

/// The lines of an image between its name and the length of the replies.
const FIRST_RECORDS: &[u8] =
    b"\nentry 0\ncode 0\nbind 1024\nannounce 1024 0 0x200\ntake\nsend 1024 last 0x400 ";

/// The lines between the length of the replies and their bytes.
const LAST_RECORDS: &[u8] =
    b"\nloop 100 2\nhalt\nload 0x200 72706d73672d636c69656e742d73616d706c65 32\nload 0x400 ";

/// The lines after the bytes of the replies.
const TABLE: &[u8] = b" 496\ntable 0x300\nvdev 7 1\nvring any 4096 16\nvring any 4096 16\nend\n";

/// The text of the script of a demo of 1 to 500 sessions. Each boots one of eight cores with an
/// image of its own, whose worker announces the channel of the sample driver and answers a hundred
/// messages, and shuts the core down again. The lengths of the answers come from a sequence of
/// pseudo-random numbers that begins with the number of sessions.
#[tactic(auto, unfolding(crate::specs::Demo::demo_text))]
pub fn demo_script(alloc: Global, sessions: u32) -> Result<Vec<u8>, NoMemory>
    requires some { 1 ≤ sessions }
    requires most { sessions ≤ SESSIONS_MOST }
    ensures { IfOk result (λ text. text.items ≡ demo_text sessions) }
{
    let mut text = Vec::with_capacity(alloc, FRONT_ROOM + SESSION_ROOM * sessions as usize)?;
    text.extend_from_slice(b"quiet on\n")?;
    let mut number = u64::from(sessions);
    for session in 0..sessions {
        number = next_number(number);
        push_session(&mut text, session, (number % 497) as u32)?;
    }
    Ok(text)
}

fn next_number(number: u64) -> u64
    requires { number < 2147483648 }
    ensures next { result ≡ next_number number }
    ensures range { result < 2147483648 }
{
    (number * 1_103_515_245 + 12_345) % 2_147_483_648
}

/// Appends a session whose worker replies with so many bytes.
fn push_session(text: &mut Vec<u8>, session: u32, reply: u32) -> Result<(), AllocError>
    ensures { OnOk result (text.new.items ≡ text.old.items ++ text_of (session_lines session reply)) }
{
    push_core(text, session)?;
    push_image(text, session, reply)?;
    push_drive(text, session)?;
    Ok(())
}

/// Appends a core and its driver, where this session is the first that runs on it.
fn push_core(text: &mut Vec<u8>, session: u32) -> Result<(), AllocError>
    ensures { OnOk result (text.new.items ≡ text.old.items ++ text_of (core_lines session)) }
{
    if session < 8 {
        let core = session_core(session);
        text.extend_from_slice(b"core ")?;
        text.extend_from_slice(&core)?;
        text.extend_from_slice(b" std 128\ndriver ")?;
        text.extend_from_slice(&core)?;
        text.extend_from_slice(b" rpmsg-client-sample sample\n")?;
    }
    Ok(())
}

/// Appends the image of a session.
fn push_image(text: &mut Vec<u8>, session: u32, reply: u32) -> Result<(), AllocError>
    ensures { OnOk result (text.new.items ≡ text.old.items ++ text_of (image_lines session reply)) }
{
    text.extend_from_slice(b"image s")?;
    push_number(text, session)?;
    text.extend_from_slice(FIRST_RECORDS)?;
    push_number(text, reply)?;
    text.extend_from_slice(LAST_RECORDS)?;
    push_reply(text, reply)?;
    text.extend_from_slice(TABLE)?;
    Ok(())
}

/// Appends how a session runs.
fn push_drive(text: &mut Vec<u8>, session: u32) -> Result<(), AllocError>
    ensures { OnOk result (text.new.items ≡ text.old.items ++ text_of (drive_lines session)) }
{
    let core = session_core(session);
    text.extend_from_slice(b"boot ")?;
    text.extend_from_slice(&core)?;
    text.extend_from_slice(b" s")?;
    push_number(text, session)?;
    text.extend_from_slice(b"\ndrive ")?;
    text.extend_from_slice(&core)?;
    text.extend_from_slice(b" 100000\nshutdown ")?;
    text.extend_from_slice(&core)?;
    text.extend_from_slice(b"\n")?;
    Ok(())
}

/// The core of a session.
fn session_core(session: u32) -> [u8; 2]
    ensures { result ≡ session_core session }
{
    [b'c', b'0' + (session % 8) as u8]
}

/// Appends so many bytes 0x5a as the word of a payload.
fn push_reply(text: &mut Vec<u8>, reply: u32) -> Result<(), AllocError>
    ensures { OnOk result (text.new.items ≡ text.old.items ++ reply_word reply) }
{
    if reply == 0 {
        return text.extend_from_slice(b"-");
    }
    text.extend_from_slice(b"5a*")?;
    push_number(text, reply)
}

fn push_number(text: &mut Vec<u8>, number: u32) -> Result<(), AllocError>
    ensures { OnOk result (text.new.items ≡ text.old.items ++ decimal number) }
{
    let mut buffer = itoa::Buffer::new();
    text.extend_from_slice(buffer.format(number).as_bytes())
}
