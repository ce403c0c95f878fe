//! Laws of the endpoints of an end. Each is the contract of an empty function, and speaks of definitions alone.

ghost use Rattle.std.specs.Prelude.{◌≡◌, ℕ, Ok, Err};
ghost use Rattle.rp_base.specs.declared.kinds.Endpoint.{Endpoint};
ghost use Rattle.rp_base.specs.declared.kinds.BindFault.{BindFault};
ghost use Rattle.endpoint_map.specs.Bindings.{Bindings, bind_answer, after_bind, after_unbind, BindsOne, UnbindsOne};

/// A binding makes one endpoint, at an address that was free, with the next generation. A refused
/// one changes nothing.
pub fn binding()
    ensures made { (bindings : Bindings) (asked since : ℕ) (endpoint : Endpoint) → bind_answer bindings asked ≡ Ok endpoint
        → BindsOne bindings (after_bind bindings asked since) endpoint since }
    ensures refused { (bindings : Bindings) (asked since : ℕ) (fault : BindFault) → bind_answer bindings asked ≡ Err fault
        → after_bind bindings asked since ≡ bindings }
{}

/// After an unbinding nothing is bound at the address, and all others are where they were.
pub fn unbinding()
    ensures { (bindings : Bindings) (address : ℕ) → UnbindsOne bindings (after_unbind bindings address) address }
{}
