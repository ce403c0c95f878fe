//! Laws of the drivers. Each is the contract of an empty function, and speaks of definitions alone.

ghost use Rattle.std.specs.Prelude.{◌≡◌, ℕ, List, [], Some, None, map, min, length, replicate, option_map};
ghost use Rattle.rp_base.specs.declared.kinds.Endpoint.{Endpoint};
ghost use Rattle.rp_base.specs.declared.kinds.DriverKind.{DriverKind};
ghost use Rattle.rp_base.specs.declared.kinds.DriverKind.TheVariants as kind;
ghost use Rattle.rpmsg_header.specs.Headers.{header_bytes, source_of, payload_of};
ghost use Rattle.host_driver.specs.Drivers.{DriversState, sample_text, kind_for, newly_driven, driven_at, after_created, after_delivered, after_destroyed, with_delivery};
ghost use Rattle.host_driver.specs.Runs.{replies_to, ChangesOne};

/// A sample answers the first 99 messages that are delivered to it, each by the same message to
/// its channel. An echo answers each by its payload to its sender. A sink answers none.
pub fn replies()
    ensures sample { (endpoint : Endpoint) (channel : ℕ) (messages : List (List ℕ)) → replies_to (newly_driven kind.Sample endpoint channel) messages
        ≡ replicate (min (length messages) 99) (header_bytes endpoint.address channel sample_text) }
    ensures echo { (endpoint : Endpoint) (channel : ℕ) (messages : List (List ℕ)) → replies_to (newly_driven kind.Echo endpoint channel) messages
        ≡ map (λ message. header_bytes endpoint.address (source_of message) (payload_of message)) messages }
    ensures sink { (endpoint : Endpoint) (channel : ℕ) (messages : List (List ℕ)) → replies_to (newly_driven kind.Sink endpoint channel) messages ≡ [] }
{}

/// A channel that is made, a delivery and a removal change how one endpoint is driven, and no
/// other.
pub fn driving()
    ensures created { (drivers : DriversState) (name : List ℕ) (endpoint : Endpoint) (channel : ℕ) (kind : DriverKind) → kind_for drivers name ≡ Some kind
        → ChangesOne drivers.driven (after_created drivers name endpoint channel).driven endpoint (Some (newly_driven kind endpoint channel)) }
    ensures not_driven { (drivers : DriversState) (name : List ℕ) (endpoint : Endpoint) (channel : ℕ) → kind_for drivers name ≡ None
        → after_created drivers name endpoint channel ≡ drivers }
    ensures delivered { (drivers : DriversState) (endpoint : Endpoint)
        → ChangesOne drivers.driven (after_delivered drivers endpoint).driven endpoint (option_map with_delivery (driven_at endpoint drivers.driven)) }
    ensures destroyed { (drivers : DriversState) (endpoint : Endpoint)
        → ChangesOne drivers.driven (after_destroyed drivers endpoint).driven endpoint None }
{}
