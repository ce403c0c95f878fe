ghost use Rattle.std.specs.Prelude.{◌≡◌, ◌<◌, ◌≤◌, ◌+◌, ◌++◌, ◌∷◌, [], None, Some, if◌then◌else◌, true, false, length, map, All, HoldsAt, IfOk, IfErr, OnOk, OnErr, IfSome, IfNone};
ghost use Rattle.std.specs.Option.{option_or};
ghost use Rattle.rp_base.specs.declared.limits.TheConstants.{ENDPOINTS_MOST, MESSAGE_MOST};
ghost use Rattle.host_driver.specs.Drivers.{kind_for, kind_of, is_before, place_of, drives, with_one, created_answer, after_created, delivered_answer, after_delivered, after_destroyed, after_reset, driver_fault};
ghost use Rattle.host_driver.specs.declared.drivers.DriverFault.TheVariants as fault;

use crate::driven::DrivenEndpoint;
use rp_base::{DriverKind, ENDPOINTS_MOST, Endpoint, Message, Name, NoMemory};
use std::alloc::Global;
use std::marker::Model;

/// The most drivers of a core.
pub const DRIVERS_MOST: usize = 16;

/// Why a driver is not declared.
#[derive(Debug, Drop)]
pub enum DriverFault {
    /// One of this name is declared.
    DriverTaken,
    /// There are sixteen.
    DriversFull,
    /// Memory ran out.
    NoMemory,
}

/// The drivers that are declared for the channels of a core, and the endpoints that they drive.
/// Contracts see both as lists, the endpoints in order of address and generation.
///
/// No call but `new`, `add` and `names` takes memory, and none walks over all endpoints.
#[derive(Drop)]
pub struct Drivers {
    kinds: Vec<(Name, DriverKind)>,
    driven: Vec<DrivenEndpoint>,
}

impl Model for Drivers {
    ghost use Rattle.std.specs.Prelude.{◌≤◌, length, vec_capacity};
    ghost use Rattle.rp_base.specs.declared.limits.TheConstants.{ENDPOINTS_MOST};
    ghost use Rattle.host_driver.specs.Drivers.{DriversState, IsAscending};

    ghost Value = { DriversState };

    ghost view = { λ d. record { kinds = d.kinds.items; driven = d.driven.items } };

    ghost invariant = { λ d. IsAscending d.driven.items × (length d.driven.items ≤ ENDPOINTS_MOST) × (ENDPOINTS_MOST ≤ vec_capacity d.driven) };
}

impl Drivers {
    /// These drivers, by the names of their channels, with room for 256 endpoints. Nothing is
    /// driven.
    ///
    /// Errors: only if memory runs out.
    pub fn new(alloc: Global, kinds: Vec<(Name, DriverKind)>) -> Result<Drivers, NoMemory>
        ensures { IfOk result (λ drivers. drivers ≡ record { kinds = kinds.items; driven = [] }) }
    {
        Ok(Drivers {
            kinds,
            driven: Vec::with_capacity(alloc, ENDPOINTS_MOST)?,
        })
    }

    /// Declares one driver more, after the others.
    ///
    /// Errors, in this order: one of this name is declared; there are sixteen; memory ran out.
    /// Then all is as before.
    pub fn add(&mut self, _alloc: Global, name: Name, kind: DriverKind) -> Result<(), DriverFault>
        ensures added { OnOk result (self.new ≡ record self.old { kinds = self.old.kinds ++ (name, kind) ∷ [] }) }
        ensures fits { OnOk result (driver_fault self.old.kinds name ≡ None) }
        ensures refused { IfErr result (λ refused. option_or (driver_fault self.old.kinds name) (Some fault.NoMemory) ≡ Some refused) }
        ensures unchanged { OnErr result (self.new ≡ self.old) }
    {
        if self.kind(&name).is_some() {
            return Err(DriverFault::DriverTaken);
        }
        if self.kinds.len() >= DRIVERS_MOST {
            return Err(DriverFault::DriversFull);
        }
        match self.kinds.push((name, kind)) {
            Ok(()) => Ok(()),
            Err(_) => Err(DriverFault::NoMemory),
        }
    }

    /// The names of the declared drivers, in the order in which they were declared.
    ///
    /// Errors: only if memory runs out.
    pub fn names(&self, alloc: Global) -> Result<Vec<Name>, NoMemory>
        ensures { IfOk result (λ names. names.items ≡ map (λ declared. declared.0) self.now.kinds) }
    {
        Ok(self.kinds.iter().map(|declared| declared.0).collect(alloc)?)
    }

    /// Has the driver of this name drive an endpoint that was bound for a channel at this address
    /// of the remote core, and answers what it sends. It sends nothing where it is no sample or no
    /// driver of the name is declared. Where none is declared, or 256 endpoints are driven, the
    /// endpoint isn't, and nothing is sent.
    pub fn created(&mut self, name: &Name, endpoint: Endpoint, address: u32) -> Option<Message>
        ensures sent { result ≡ created_answer self.old name.now endpoint address }
        ensures left { self.new ≡ after_created self.old name.now endpoint address }
        ensures one_more { length self.new.driven ≤ length self.old.driven + 1 }
    {
        let kind = self.kind_for(name)?;
        let one = DrivenEndpoint {
            endpoint,
            kind,
            channel: address,
            deliveries: 0,
        };
        self.destroyed(endpoint);
        self.insert(one);
        one.probe()
    }

    /// Counts a message that was delivered to an endpoint, and answers what its driver sends. It
    /// sends nothing where the endpoint is not driven, at a sink, and at a sample from the 100th
    /// message on.
    pub fn delivered(&mut self, endpoint: Endpoint, message: &Message) -> Option<Message>
        ensures sent { result ≡ delivered_answer self.old endpoint message.now }
        ensures left { self.new ≡ after_delivered self.old endpoint }
        ensures as_many { length self.new.driven ≡ length self.old.driven }
    {
        let mut answer = Message::empty();
        if self.reply(endpoint, message.bytes(), &mut answer) {
            Some(answer)
        } else {
            None
        }
    }

    /// The same of a message of these bytes: whether its driver sends something. The answer is what it
    /// sends then; what is there otherwise counts for nothing.
    pub fn reply(&mut self, endpoint: Endpoint, message: &[u8], answer: &mut Message) -> bool
        requires { length message.now ≤ MESSAGE_MOST }
        ensures sent { (if result then Some answer.new else None) ≡ delivered_answer self.old endpoint message.now }
        ensures left { self.new ≡ after_delivered self.old endpoint }
        ensures as_many { length self.new.driven ≡ length self.old.driven }
    {
        let Some(place) = self.find(endpoint) else {
            return false;
        };
        let one = &mut self.driven[place];
        one.deliveries = one.deliveries.saturating_add(1);
        one.reply(message, answer)
    }

    /// Drives an endpoint no more. One that is not driven changes nothing.
    pub fn destroyed(&mut self, endpoint: Endpoint)
        ensures left { self.new ≡ after_destroyed self.old endpoint }
        ensures no_more { length self.new.driven ≤ length self.old.driven }
    {
        if let Some(place) = self.find(endpoint) {
            self.driven.remove(place);
        }
    }

    /// Drives no endpoint any more. The declared drivers stay.
    pub fn reset(&mut self)
        ensures { self.new ≡ after_reset self.old }
    {
        self.driven.clear();
    }

    // The kind of the driver that the endpoint of a new channel of this name gets.
    fn kind_for(&self, name: &Name) -> Option<DriverKind>
        ensures kind { result ≡ kind_for self.now name.now }
        ensures room { IfSome result (λ _. length self.now.driven < ENDPOINTS_MOST) }
    {
        if self.driven.len() >= ENDPOINTS_MOST {
            return None;
        }
        self.kind(name)
    }

    // The kind of the driver of this name.
    fn kind(&self, name: &Name) -> Option<DriverKind>
        ensures { result ≡ kind_of name.now self.now.kinds }
    {
        let declared = self.kinds.iter().find(|declared| declared.0 == *name)?;
        Some(declared.1)
    }

    // Drives an endpoint that isn't driven.
    fn insert(&mut self, one: DrivenEndpoint)
        requires room { length self.old.driven < ENDPOINTS_MOST }
        requires absent { All (λ other. drives one.endpoint other ≡ false) self.old.driven }
        ensures { self.new ≡ record self.old { driven = with_one one self.old.driven } }
    {
        let place = self.place(one.endpoint);
        self.driven.insert(place, one).unwrap();
    }

    // The place of a driven endpoint. There is none exactly where it is not driven.
    fn find(&self, endpoint: Endpoint) -> Option<usize>
        ensures found { IfSome result (λ place. (place < length self.now.driven) × HoldsAt (λ one. drives endpoint one ≡ true) self.now.driven place) }
        ensures absent { IfNone result (All (λ one. drives endpoint one ≡ false) self.now.driven) }
    {
        let place = self.place(endpoint);
        if place < self.driven.len() && self.driven[place].endpoint == endpoint {
            Some(place)
        } else {
            None
        }
    }

    // How many driven endpoints come before one.
    fn place(&self, endpoint: Endpoint) -> usize
        ensures { result ≡ place_of endpoint self.now.driven }
    {
        self.driven
            .partition_point(|one| is_before(one.endpoint, endpoint))
    }
}

// Whether an endpoint comes before another, by address and then by generation.
fn is_before(one: Endpoint, other: Endpoint) -> bool
    ensures { result ≡ is_before one other }
{
    one.address < other.address || one.address == other.address && one.generation < other.generation
}
