//! Packets: messages as bytes on their way.
ghost use Rattle.std.specs.Prelude.{◌≡◌, IfOk, string_bytes};
ghost use Rattle.salt_wire.specs.Limits.{Within};
ghost use Rattle.hex.specs.Hex.{encode_lower};
ghost use Rattle.tree_world.specs.Packets as packets;

use salt_value::NodeId;
use salt_wire::{Message, WireFault, decode, encode, messages_read_back};
use std::alloc::{AllocError, Global};
use std::marker::Model;

// The room that a body is made with, in bytes: most bodies are shorter, so few grow.
const BODY_ROOM: usize = 32;

/// A packet: its sender, its receiver, and its body. Contracts see the message that the body spells.
#[derive(Drop)]
pub struct Packet {
    from: NodeId,
    to: NodeId,
    body: Vec<u8>,
}

impl Model for Packet {
    ghost use Rattle.tree_world.specs.Packets.{Packet, message_in, IsPacketBody};

    ghost Value = { Packet };

    ghost use Rattle.salt_value.specs.contracts.value.Value as value;
    ghost use Rattle.target_tree.specs.contracts.target.Target as target;
    ghost use Rattle.std.specs.Coded.{codes};

    ghost coded = { Prim.hlevel (codes, value.the_row.coded, target.the_row.coded) };

    ghost view = { λ p. record { from = p.from; to = p.to; message = message_in p.body.items } };

    ghost use Rattle.node_core.specs.Node.{IsCounted};

    ghost invariant = { λ p. IsPacketBody p.body.items × IsCounted (message_in p.body.items) };
}

impl Packet {
    ghost use Rattle.tree_world.specs.Network.{packet};
    ghost use Rattle.salt_wire.specs.Spelling.{body};
    ghost use Rattle.node_core.specs.Node.{IsCounted};

    /// The packet of a message that is within the limits.
    pub fn new(
        alloc: Global,
        from: NodeId,
        to: NodeId,
        message: &Message,
    ) -> Result<Packet, AllocError>
        requires fits { Within message.now }
        requires counted { IsCounted message.now }
        ensures { IfOk result (λ p. p ≡ packet from to message.now) }
    {
        let body = body_of(alloc, message)?;
        Ok(Packet { from, to, body })
    }

    /// The sender.
    pub fn from(&self) -> NodeId
        ensures { result ≡ self.now.from }
    {
        self.from
    }

    /// The receiver.
    pub fn to(&self) -> NodeId
        ensures { result ≡ self.now.to }
    {
        self.to
    }

    /// The message, read from the body.
    pub fn message(&self, alloc: Global) -> Result<Message, AllocError>
        ensures ok { IfOk result (λ message. message ≡ self.now.message) }
        ensures fits { Within self.now.message }
        ensures counted { IsCounted self.now.message }
    {
        message_of(alloc, &self.body)
    }

    /// The body in hexadecimal digits.
    pub fn hex(&self, alloc: Global) -> Result<String, AllocError>
        ensures { IfOk result (λ text. string_bytes text ≡ encode_lower (body self.now.message)) }
    {
        hex::encode(alloc, self.body.as_slice())
    }
}

// The body of a message, which is read as that message.
fn body_of(alloc: Global, message: &Message) -> Result<Vec<u8>, AllocError>
    requires { Within message.now }
    ensures body { IfOk result (λ body. packets.IsPacketBody body.items) }
    ensures message { IfOk result (λ body. packets.message_in body.items ≡ message.now) }
{
    messages_read_back();
    let mut body = Vec::with_capacity(alloc, BODY_ROOM)?;
    encode(message, &mut body)?;
    Ok(body)
}

// The message of a body. Only memory can be wanted.
fn message_of(alloc: Global, body: &[u8]) -> Result<Message, AllocError>
    requires { packets.IsPacketBody body.now }
    ensures { IfOk result (λ message. message ≡ packets.message_in body.now) }
{
    match decode(alloc, body) {
        Ok(message) => Ok(message),
        Err(WireFault::NoMemory) => Err(AllocError),
        Err(_) => unreachable!(),
    }
}
