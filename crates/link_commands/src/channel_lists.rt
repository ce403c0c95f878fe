ghost use Rattle.std.specs.Prelude.{◌≡◌, ◌++◌, IsSomeAnd, OnOk, map};
ghost use Rattle.journal.specs.Lines.{transcript};
ghost use Rattle.link_commands.specs.ChannelLists.{channel_event, found_channels};

use crate::event_fields::event;
use journal::Event;
use name_service::Channel;
use rp_base::{Name, NoMemory};
use run_log::RunLog;
use vring_layout::SnapshotFault;

/// Writes the channels that the host end of the link of this name knows, one a line, or who has the turn
/// with which they go.
///
/// Errors: only if memory runs out, in `found` too.
pub fn tell_channels(
    name: Name,
    found: Result<Vec<Channel>, SnapshotFault>,
    log: &mut RunLog,
) -> Result<(), NoMemory>
    ensures { OnOk result (IsSomeAnd (found_channels name found) (λ events. log.new ≡ record log.old { lines = log.old.lines ++ transcript events })) }
{
    match found {
        Ok(channels) => tell_list(name, channels.as_slice(), log),
        Err(SnapshotFault::StillTurn(caller)) => log.tell(&event!(StillTurn, name, [caller])),
        Err(SnapshotFault::NoMemory) => Err(NoMemory),
    }
}

/// Writes channels in their order.
fn tell_list(name: Name, channels: &[Channel], log: &mut RunLog) -> Result<(), NoMemory>
    ensures { OnOk result (log.new ≡ record log.old { lines = log.old.lines ++ transcript (map (channel_event name) channels.now) }) }
{
    for known in channels {
        let (channel, address, endpoint) = (known.name, known.address, known.endpoint);
        log.tell(&event!(Channel, name, [address], channel, endpoint))?;
    }
    Ok(())
}
