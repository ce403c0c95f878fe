ghost use Rattle.std.specs.Prelude.{◌≡◌, ℕ, ◌^◌, ◌<◌, ◌≤◌, List, Some, true, length};
ghost use Rattle.rp_base.specs.declared.limits.TheConstants.{PAYLOAD_MOST};
ghost use Rattle.rpmsg_header.specs.Headers.{header_bytes, is_whole, source_of, destination_of, payload_of};
ghost use Rattle.rpmsg_header.specs.Services.{service_bytes, service_of, IsSayable};
ghost use Rattle.rpmsg_header.specs.declared.services.NsMessage.{NsMessage};

/// A message that was written is whole, and its fields and payload are read back.
pub fn written_is_read()
    ensures whole { (src dst : ℕ) (payload : List ℕ) → length payload ≤ PAYLOAD_MOST
        → is_whole (header_bytes src dst payload) ≡ true }
    ensures source { (src dst : ℕ) (payload : List ℕ) → src < 2 ^ 32
        → source_of (header_bytes src dst payload) ≡ src }
    ensures destination { (src dst : ℕ) (payload : List ℕ) → dst < 2 ^ 32
        → destination_of (header_bytes src dst payload) ≡ dst }
    ensures payload { (src dst : ℕ) (payload : List ℕ) → length payload ≤ PAYLOAD_MOST
        → payload_of (header_bytes src dst payload) ≡ payload }
{}

/// A service message that was written is read back: its name, its address and whether it destroys.
pub fn service_is_read()
    ensures { (ns : NsMessage) → IsSayable ns → service_of (service_bytes ns) ≡ Some ns }
{}
