ghost use Rattle.std.specs.Prelude.{◌≡◌, ◌+◌, ◌≤◌, [], IfOk, IsTrue, length, slice_get, filter, not};
ghost use Rattle.indexmap.specs.IndexMap.{spare};
ghost use Rattle.name_service.specs.Channels.{key_in, is_same_key, has_channel, endpoint_at, kind_of, after_service, without, with_endpoint};

use indexmap::IndexMap;
use rp_base::{CHANNELS_MOST, Endpoint, Name, NoMemory, NsKind};
use rpmsg_header::NsMessage;
use std::alloc::Global;
use std::marker::Model;
use std::mem;

/// A channel that the remote core has announced (`struct rpmsg_channel_info` of Linux `rpmsg.h`).
#[derive(Clone, Copy)]
pub struct Channel {
    pub name: Name,
    /// The address on the remote core.
    pub address: u32,
    /// The endpoint that was bound for the channel, if one was.
    pub endpoint: Option<Endpoint>,
}

/// The channels that a remote core has announced. Contracts see them as a list in order of
/// creation.
///
/// No call but `new` takes memory.
#[derive(Drop)]
pub struct Channels {
    channels: IndexMap<(Name, u32), Option<Endpoint>>,
    /// An empty map. A map gives the places of removed entries back only when it is cleared, so
    /// the channels that stay are moved here when one goes.
    aside: IndexMap<(Name, u32), Option<Endpoint>>,
}

impl Model for Channels {
    ghost use Rattle.std.specs.Prelude.{List, [], ◌≡◌, ◌+◌, ◌≤◌, length, map};
    ghost use Rattle.indexmap.specs.IndexMap.{spare};
    ghost use Rattle.rp_base.specs.declared.limits.TheConstants.{CHANNELS_MOST};
    ghost use Rattle.name_service.specs.declared.channels.Channel.{Channel};

    ghost Value = { List Channel };

    ghost use Rattle.name_service.specs.Tables.{channel_of};

    ghost view = { λ a. map channel_of a.channels.entries };

    ghost invariant = { λ a. (length a.channels.entries ≤ CHANNELS_MOST) × (CHANNELS_MOST ≤ length a.channels.entries + spare a.channels) × (a.aside.entries ≡ []) × (CHANNELS_MOST ≤ spare a.aside) };
}

type Table = IndexMap<(Name, u32), Option<Endpoint>>;

impl Channels {
    /// No channel, with room for 64.
    ///
    /// Errors: only if memory runs out.
    pub fn new(alloc: Global) -> Result<Channels, NoMemory>
        ensures { IfOk result (λ channels. channels ≡ []) }
    {
        Ok(Channels {
            channels: IndexMap::with_capacity(alloc, CHANNELS_MOST)?,
            aside: IndexMap::with_capacity(alloc, CHANNELS_MOST)?,
        })
    }

    /// Makes or removes the channel of a service message, and says what it did. A channel is
    /// known by its name and its address. It is made without an endpoint, after the others.
    pub fn apply(&mut self, ns: &NsMessage) -> NsKind
        ensures kind { result ≡ kind_of self.old ns.now }
        ensures left { self.new ≡ after_service self.old ns.now }
        ensures made { result ≡ NsKind.Created → IsTrue (has_channel (key_in ns.now) self.new) }
    {
        let key = (ns.name, ns.address);
        let is_there = self.channels.contains_key(&key);
        if ns.destroy {
            if !is_there {
                return NsKind::Unknown;
            }
            self.remove(&key);
            return NsKind::Destroyed;
        }
        if is_there {
            return NsKind::Duplicate;
        }
        if self.channels.len() >= CHANNELS_MOST {
            return NsKind::ChannelsFull;
        }
        self.channels.insert(key, None).unwrap();
        NsKind::Created
    }

    /// Forgets the channel of this name and address, and keeps the others in their order.
    fn remove(&mut self, key: &(Name, u32))
        ensures { self.new ≡ without key.now self.old }
    {
        move_others(&self.channels, key, &mut self.aside);
        mem::swap(&mut self.channels, &mut self.aside);
        self.aside.clear();
    }

    /// Has the channel of this name and address name an endpoint, or none.
    pub fn set(&mut self, name: &Name, address: u32, endpoint: Option<Endpoint>)
        requires { IsTrue (has_channel (name.now, address) self.old) }
        ensures { self.new ≡ with_endpoint (name.now, address) endpoint self.old }
    {
        if let Some(kept) = self.channels.get_mut(&(*name, address)) {
            *kept = endpoint;
        }
    }

    /// The endpoint that the channel of this name and address names. There is none exactly where
    /// the channel is not there or has none.
    pub fn endpoint(&self, name: &Name, address: u32) -> Option<Endpoint>
        ensures { result ≡ endpoint_at (name.now, address) self.now }
    {
        match self.channels.get(&(*name, address)) {
            Some(endpoint) => *endpoint,
            None => None,
        }
    }

    /// The channel at this place in the order of creation. There is none exactly where the place
    /// is not below the number of channels.
    pub fn list(&self, i: u16) -> Option<Channel>
        ensures { result ≡ slice_get self.now i }
    {
        let (key, endpoint) = self.channels.get_index(usize::from(i))?;
        Some(Channel {
            name: key.0,
            address: key.1,
            endpoint: *endpoint,
        })
    }

    /// All channels, in the order of creation.
    ///
    /// Errors: only if memory runs out.
    pub fn to_vec(&self, alloc: Global) -> Result<Vec<Channel>, NoMemory>
        ensures { IfOk result (λ channels. channels.items ≡ self.now) }
    {
        let mut copied = Vec::with_capacity(alloc, self.channels.len())?;
        for (key, endpoint) in &self.channels {
            copied.push(Channel {
                name: key.0,
                address: key.1,
                endpoint: *endpoint,
            })?;
        }
        Ok(copied)
    }

    /// Forgets all channels.
    pub fn reset(&mut self)
        ensures { self.new ≡ [] }
    {
        self.channels.clear();
    }
}

/// Puts all channels but this one into an empty table with room for them, in their order.
fn move_others(channels: &Table, gone: &(Name, u32), into: &mut Table)
    requires empty { into.old.entries ≡ [] }
    requires room { length channels.now.entries ≤ spare into.old }
    ensures entries { into.new.entries ≡ filter (λ entry. not (is_same_key gone.now entry.0)) channels.now.entries }
    ensures spare { spare into.old ≤ length into.new.entries + spare into.new }
{
    for (key, endpoint) in channels {
        if *gone != *key {
            into.insert(*key, *endpoint).unwrap();
        }
    }
}
