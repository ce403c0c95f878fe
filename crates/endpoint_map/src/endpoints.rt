ghost use Rattle.std.specs.Prelude.{◌≡◌, ℕ, ◌+◌, ◌<◌, ◌≤◌, length, IfOk, IfErr, HoldsAt, option_map};
ghost use Rattle.endpoint_map.specs.Bindings.{no_bindings, any_address, endpoint_of, bound_at, is_full, least_free, address_for, bind_answer, after_bind, unbind_answer, after_unbind, IsAscending, IsPlace, IsDynamicPlace, IsLeastFree};

use rp_base::{BindFault, BoundEndpoint, ENDPOINTS_MOST, Endpoint, NoMemory};
use std::alloc::Global;
use std::marker::Model;

/// The address that asks for any free one (`RPMSG_ADDR_ANY` of Linux `rpmsg.h`).
pub const ANY_ADDRESS: u32 = 0xffff_ffff;

/// The least address that is given where any is asked for. Lower ones are bound only when asked
/// for by number.
pub const FIRST_DYNAMIC: u32 = 1024;

/// The endpoints that are bound on one end of a link, and how many bindings this incarnation has
/// seen. Contracts see them as a list in order of addresses, with that count.
///
/// No call but `new` takes memory, and none walks over all endpoints.
#[derive(Drop)]
pub struct Endpoints {
    bound: Vec<BoundEndpoint>,
    bindings: u64,
}

impl Model for Endpoints {
    ghost use Rattle.std.specs.Prelude.{◌≤◌, length, vec_capacity};
    ghost use Rattle.rp_base.specs.declared.limits.TheConstants.{ENDPOINTS_MOST};
    ghost use Rattle.endpoint_map.specs.Bindings.{Bindings, IsAscending};

    ghost Value = { Bindings };

    ghost view = { λ e. record { bound = e.bound.items; count = e.bindings } };

    ghost invariant = { λ e. IsAscending e.bound.items × (length e.bound.items ≤ ENDPOINTS_MOST) × (ENDPOINTS_MOST ≤ vec_capacity e.bound) };
}

impl Endpoints {
    /// No endpoint, with room for 256.
    ///
    /// Errors: only if memory runs out.
    pub fn new(alloc: Global) -> Result<Endpoints, NoMemory>
        ensures { IfOk result (λ endpoints. endpoints ≡ no_bindings) }
    {
        Ok(Endpoints {
            bound: Vec::with_capacity(alloc, ENDPOINTS_MOST)?,
            bindings: 0,
        })
    }

    /// Binds an endpoint at this address, or at the least free one from 1024 where the address is
    /// `ANY_ADDRESS`. Its generation is the number of this binding, and `since` messages had been
    /// handed over before.
    ///
    /// Errors: `AddressTaken` exactly where the address is bound; else `EndpointsFull` exactly at
    /// 256 endpoints or at 2^64 - 1 bindings. Then all is as before.
    pub fn bind(&mut self, address: u32, since: u64) -> Result<Endpoint, BindFault>
        ensures answer { result ≡ bind_answer self.old address }
        ensures least { address ≡ any_address → IfOk result (λ endpoint. IsLeastFree self.old endpoint.address) }
        ensures left { self.new ≡ after_bind self.old address since }
    {
        let address = self.address_for(address);
        let place = match self.search(address) {
            Ok(_) => return Err(BindFault::AddressTaken(address)),
            Err(place) => place,
        };
        if self.is_full() {
            return Err(BindFault::EndpointsFull);
        }
        let endpoint = Endpoint {
            address,
            generation: self.bindings + 1,
        };
        self.bound
            .insert(place, BoundEndpoint { endpoint, since })
            .unwrap();
        self.bindings += 1;
        Ok(endpoint)
    }

    /// Unbinds the endpoint at this address.
    ///
    /// Errors: `NotBound` exactly where nothing is bound there. Then all is as before.
    pub fn unbind(&mut self, address: u32) -> Result<Endpoint, BindFault>
        ensures answer { result ≡ unbind_answer self.old address }
        ensures left { self.new ≡ after_unbind self.old address }
    {
        match self.search(address) {
            Ok(place) => Ok(self.bound.remove(place).endpoint),
            Err(_) => Err(BindFault::NotBound(address)),
        }
    }

    /// The endpoint at this address. There is none exactly where nothing is bound there.
    pub fn at(&self, address: u32) -> Option<Endpoint>
        ensures { result ≡ option_map endpoint_of (bound_at self.now address) }
    {
        match self.search(address) {
            Ok(place) => Some(self.bound[place].endpoint),
            Err(_) => None,
        }
    }

    /// Unbinds all endpoints and begins to count bindings anew.
    pub fn reset(&mut self)
        ensures { self.new ≡ no_bindings }
    {
        self.bound.clear();
        self.bindings = 0;
    }

    // Whether no endpoint can be bound any more.
    fn is_full(&self) -> bool
        ensures { result ≡ is_full self.now }
    {
        self.bound.len() >= ENDPOINTS_MOST || self.bindings == u64::MAX
    }

    // The address that a binding is for.
    fn address_for(&self, asked: u32) -> u32
        ensures address { result ≡ address_for self.now asked }
        ensures least { asked ≡ any_address → IsLeastFree self.now result }
    {
        if asked == ANY_ADDRESS {
            self.least_free()
        } else {
            asked
        }
    }

    // The least address from 1024 on at which nothing is bound. From there on the addresses are
    // 1024, 1025 and so on up to the first gap, so a binary search finds it.
    fn least_free(&self) -> u32
        ensures address { result ≡ least_free self.now }
        ensures least { IsLeastFree self.now result }
    {
        let first = self.first_dynamic();
        let mut low = 0;
        let mut high = self.bound.len() - first;
        while low < high {
            let middle = low + (high - low) / 2;
            if self.bound[first + middle].endpoint.address == FIRST_DYNAMIC + middle as u32 {
                low = middle + 1;
            } else {
                high = middle;
            }
        }
        FIRST_DYNAMIC + low as u32
    }

    // How many endpoints have addresses below 1024.
    fn first_dynamic(&self) -> usize
        ensures { IsDynamicPlace self.now.bound result }
    {
        match self.search(FIRST_DYNAMIC) {
            Ok(place) => place,
            Err(place) => place,
        }
    }

    // Where the endpoint at this address is, or where one would go.
    fn search(&self, address: u32) -> Result<usize, usize>
        ensures found { IfOk result (λ place. (place < length self.now.bound) × HoldsAt (λ b. b.endpoint.address ≡ address) self.now.bound place) }
        ensures absent { IfErr result (IsPlace address self.now.bound) }
        ensures ascending { IsAscending self.now.bound }
    {
        self.bound
            .binary_search_by_key(&address, |b| b.endpoint.address)
    }
}
