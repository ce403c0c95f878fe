ghost use Rattle.std.specs.Prelude.{◌≡◌, ◌+◌, ◌≤◌, IfOk};
ghost use Rattle.remote_core.specs.Named.{named_place};

use addr_translate::Map;
use remote_code::WorkerFault;
use rp_base::Da;

/// Where bytes are that a record names. Of no bytes no address is looked up.
pub(crate) fn named_place(map: &Map, da: Da, len: u32) -> Result<u32, WorkerFault>
    ensures place { result ≡ named_place map.now da len }
    ensures inside { IfOk result (λ at. at + len ≤ map.now.memory_len) }
{
    if len == 0 {
        return Ok(0);
    }
    map.memory_at(da, len).ok_or(WorkerFault::CodeUnmapped)
}
