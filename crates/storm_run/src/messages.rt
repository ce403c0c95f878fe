//! The messages of a storm.
ghost use Rattle.std.specs.Prelude.{◌≡◌};
ghost use Rattle.storm_run.specs.Rounds.{storm_message};

use rp_base::{CallerNo, Message, put_u32};
use rpmsg_header::write;

/// The address that the messages of a storm go to.
const ADDRESS: u32 = 1024;

/// The message of a caller with this count.
pub(crate) fn storm_message(caller: CallerNo, count: u32) -> Message
    ensures { result ≡ storm_message caller count }
{
    let mut payload = [0; 4];
    put_u32(&mut payload, 0, count);
    match write(u32::from(caller), ADDRESS, &payload) {
        Ok(message) => message,
        Err(_) => unreachable!(),
    }
}
