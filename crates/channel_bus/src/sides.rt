ghost use Rattle.std.specs.Prelude.{◌≡◌, IfOk, []};
ghost use Rattle.rpmsg_header.specs.Services.{service_of};
ghost use Rattle.endpoint_map.specs.Bindings.{no_bindings};
ghost use Rattle.channel_bus.specs.Sides.{is_service, has_driver, endpoint_for, endpoint_of_channel, bindings_after_create, service_verdict, after_service};

use endpoint_map::{ANY_ADDRESS, Endpoints};
use lane_model::Desk;
use name_service::Channels;
use rp_base::{BindFault, Endpoint, Message, Name, NoMemory, NsKind, Verdict};
use rpmsg_header::{NsMessage, ns_read, read};
use std::alloc::Global;
use std::marker::Model;

/// The address of the name service (`RPMSG_NS_ADDR` of Linux `rpmsg/ns.h`).
pub const NAME_SERVICE: u32 = 53;

/// One end of a link: its endpoints, and where it has the name service the channels that the
/// other end has announced.
///
/// No call but `new` takes memory.
#[derive(Drop)]
pub struct Side {
    has_service: bool,
    drivers: Vec<Name>,
    endpoints: Endpoints,
    channels: Channels,
}

impl Model for Side {
    ghost use Rattle.channel_bus.specs.Sides.{EndState};

    ghost Value = { EndState };

    ghost view = { λ a. record { has_service = a.has_service; drivers = a.drivers.items; bindings = a.endpoints; channels = a.channels } };
}

impl Side {
    /// An end with no endpoint and no channel. Where `service` is set it has the name service,
    /// and a new channel whose name is among `drivers` gets an endpoint.
    ///
    /// Errors: only if memory runs out.
    pub fn new(alloc: Global, service: bool, drivers: Vec<Name>) -> Result<Side, NoMemory>
        ensures { IfOk result (λ side. side ≡ record { has_service = service; drivers = drivers.items; bindings = no_bindings; channels = [] }) }
    {
        Ok(Side {
            has_service: service,
            drivers,
            endpoints: Endpoints::new(alloc)?,
            channels: Channels::new(alloc)?,
        })
    }

    /// The channels that the other end has announced.
    pub fn channels(&self) -> &Channels
        ensures { result.now ≡ self.now.channels }
    {
        &self.channels
    }

    /// Whether this is the address of the name service of this end.
    fn is_service(&self, address: u32) -> bool
        ensures { result ≡ is_service self.now address }
    {
        self.has_service && address == NAME_SERVICE
    }

    /// Whether a driver of this name is declared.
    fn has_driver(&self, name: &Name) -> bool
        ensures { result ≡ has_driver self.now name.now }
    {
        self.drivers.contains(name)
    }

    /// Does what a payload tells the name service, as the message of this number.
    fn serve(&mut self, number: u64, payload: &[u8]) -> Verdict
        ensures verdict { result ≡ service_verdict self.old number (service_of payload.now) }
        ensures left { self.new ≡ after_service self.old number (service_of payload.now) }
    {
        let Some(ns) = ns_read(payload) else {
            return Verdict::ServiceMalformed;
        };
        let bound = self.endpoint_of_channel(&ns);
        let kind = self.channels.apply(&ns);
        let endpoint = match kind {
            NsKind::Created => {
                let made = self.bind_for(number, &ns);
                self.channels.set(&ns.name, ns.address, made);
                made
            }
            NsKind::Destroyed => {
                if let Some(endpoint) = bound {
                    let _ = self.endpoints.unbind(endpoint.address);
                }
                bound
            }
            NsKind::Duplicate | NsKind::Unknown | NsKind::ChannelsFull => None,
        };
        Verdict::Service(kind, ns.name, ns.address, endpoint)
    }

    /// Binds an endpoint for a new channel that the message of this number has made, if its driver
    /// is declared and an endpoint fits.
    fn bind_for(&mut self, number: u64, ns: &NsMessage) -> Option<Endpoint>
        ensures endpoint { result ≡ endpoint_for self.old number ns.now }
        ensures left { self.new ≡ record self.old { bindings = bindings_after_create self.old number ns.now } }
    {
        if number < u64::MAX && self.has_driver(&ns.name) {
            self.endpoints.bind(ANY_ADDRESS, number + 1).ok()
        } else {
            None
        }
    }

    /// The endpoint that goes with a channel, unless it was unbound before.
    fn endpoint_of_channel(&self, ns: &NsMessage) -> Option<Endpoint>
        ensures { result ≡ endpoint_of_channel self.now ns.now }
    {
        let endpoint = self.channels.endpoint(&ns.name, ns.address)?;
        let bound = self.endpoints.at(endpoint.address)?;
        (bound.generation == endpoint.generation).then_some(endpoint)
    }
}

impl Desk for Side {
    ghost use Rattle.channel_bus.specs.Sides.{side_meaning};
    ghost use Rattle.channel_bus.specs.Laws.{side_laws};

    ghost meaning = { side_meaning };

    fn deliver(&mut self, number: u64, message: &Message) -> Verdict {
        let header = match read(message) {
            Ok(header) => header,
            Err(_) => return Verdict::Malformed,
        };
        if self.is_service(header.dst) {
            return self.serve(number, header.payload);
        }
        match self.endpoints.at(header.dst) {
            Some(endpoint) => Verdict::To(endpoint),
            None => Verdict::Dropped(header.dst),
        }
    }

    fn bind(&mut self, address: u32, since: u64) -> Result<Endpoint, BindFault> {
        if self.is_service(address) {
            return Err(BindFault::AddressTaken(address));
        }
        self.endpoints.bind(address, since)
    }

    fn unbind(&mut self, address: u32) -> Result<Endpoint, BindFault> {
        if self.is_service(address) {
            return Err(BindFault::NotBound(address));
        }
        self.endpoints.unbind(address)
    }

    fn reset(&mut self) {
        self.endpoints.reset();
        self.channels.reset();
    }

    ghost laws = { side_laws };
}
