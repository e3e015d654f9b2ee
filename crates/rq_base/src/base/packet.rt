//! Packets and their ids (RFC 6330, 3.2 and 4.4.2).
ghost use Rattle.std.specs.Prelude.{◌≡◌, ◌<◌, ◌^◌, Ok, IfOk};
ghost use Rattle.rq_bytes.specs.Refusals.{IsAnswer};
ghost use Rattle.rq_standard.specs.Packet.{SymbolId, Packet, id_bytes, id_of_bytes, packet_bytes, packet_of_bytes};

use rq_bytes::error::Error;
use rq_bytes::symbol::Symbol;
use std::alloc::Global;
use std::marker::Model;

/// How many encoding symbol ids there are: they have 24 bits (RFC 6330, 3.2). Not in the Rust crate.
pub const ENCODING_SYMBOL_IDS: u32 = 16777216;

/// How many bytes a payload id has (RFC 6330, 3.2). Not in the Rust crate.
pub const PAYLOAD_ID_LENGTH: usize = 4;

/// Which symbol of which source block a packet carries (RFC 6330, section 3.2). In a block of K
/// source symbols the encoding symbol ids below K are those of the source symbols, in their order,
/// and K + i is that of repair symbol i.
///
/// ```
/// let id = PayloadId::new(1, 258)?; // block 1, encoding symbol id 258
/// Ok(id.serialize()) // [1, 0, 1, 2]
/// ```
#[derive(Clone, Debug, PartialEq, Eq, PartialOrd, Ord, Hash, Drop)]
pub struct PayloadId {
    source_block_number: u8,
    encoding_symbol_id: u32,
}

impl Model for PayloadId {
    ghost use Rattle.rq_standard.specs.Packet.{SymbolId, IsSymbolId};

    ghost Value = { SymbolId };

    ghost view = { λ i. record { block = i.source_block_number; esi = i.encoding_symbol_id } };

    ghost invariant = { λ i. IsSymbolId (record { block = i.source_block_number; esi = i.encoding_symbol_id }) };

    ghost inverse = { λ i. record { source_block_number = i.block; encoding_symbol_id = i.esi } };
}

impl PayloadId {
    ghost use Rattle.rq_base.specs.RefusedInput.{new_id};

    /// An id of a block number and an encoding symbol id. Refuses [`Error::EsiTooLarge`] where the
    /// encoding symbol id doesn't fit 24 bits.
    pub fn new(source_block_number: u8, encoding_symbol_id: u32) -> Result<PayloadId, Error>
        ensures { result ≡ new_id source_block_number encoding_symbol_id }
    {
        if encoding_symbol_id >= ENCODING_SYMBOL_IDS {
            return Err(Error::EsiTooLarge);
        }
        Ok(PayloadId {
            source_block_number,
            encoding_symbol_id,
        })
    }

    /// The id that four bytes spell: a byte of block number, three of encoding symbol id, most
    /// significant first (RFC 6330, section 3.2).
    pub fn deserialize(bytes: &[u8; PAYLOAD_ID_LENGTH]) -> PayloadId
        ensures value { result ≡ id_of_bytes bytes.now }
        ensures written { id_bytes result ≡ bytes.now }
    {
        let number = u32::from_be_bytes(*bytes);
        PayloadId {
            source_block_number: (number / ENCODING_SYMBOL_IDS) as u8,
            encoding_symbol_id: number % ENCODING_SYMBOL_IDS,
        }
    }

    /// The four bytes that spell the id (RFC 6330, section 3.2).
    pub fn serialize(&self) -> [u8; PAYLOAD_ID_LENGTH]
        ensures value { result ≡ id_bytes self.now }
        ensures read { id_of_bytes result ≡ self.now }
    {
        (u32::from(self.source_block_number) * ENCODING_SYMBOL_IDS
            + self.encoding_symbol_id).to_be_bytes()
    }

    /// The number of the source block, from 0.
    pub fn source_block_number(&self) -> u8
        ensures { result ≡ self.now.block }
    {
        self.source_block_number
    }

    /// The encoding symbol id, below 2^24: in a block of K source symbols K + i is that of repair
    /// symbol i (RFC 6330, section 3.2).
    pub fn encoding_symbol_id(&self) -> u32
        ensures value { result ≡ self.now.esi }
        ensures below { result < 2 ^ 24 }
    {
        self.encoding_symbol_id
    }
}

/// A packet: an id of 4 bytes, and the encoding symbol that it names (RFC 6330, section 4.4.2).
///
/// ```
/// let packet = EncodingPacket::new(PayloadId::new(0, 60)?, payload);
/// let bytes = packet.serialize(alloc)?; // 4 bytes of id, then the payload
/// let back = EncodingPacket::deserialize(alloc, &bytes)?;
/// ```
#[derive(Clone, Debug, PartialEq, Eq, PartialOrd, Ord, Hash, Drop)]
pub struct EncodingPacket {
    payload_id: PayloadId,
    payload: Symbol,
}

impl Model for EncodingPacket {
    ghost use Rattle.rq_standard.specs.Packet.{Packet};

    ghost Value = { Packet };

    ghost view = { λ p. record { id = p.payload_id; payload = p.payload } };

    ghost inverse = { λ p. record { payload_id = p.id; payload = p.payload } };
}

impl EncodingPacket {
    ghost use Rattle.rq_base.specs.RefusedInput.{read_packet};

    /// A packet of an id and its payload.
    pub fn new(payload_id: PayloadId, payload: Vec<u8>) -> EncodingPacket
        ensures id { result.id ≡ payload_id }
        ensures payload { result.payload ≡ payload.items }
    {
        EncodingPacket {
            payload_id,
            payload: Symbol::new(payload),
        }
    }

    /// The packet that bytes spell: four of id, the rest its payload. Refuses
    /// [`Error::PacketTooShort`] below four bytes.
    #[tactic(auto, unfolding(rq_standard::specs::Packet::id_of_bytes, rq_standard::specs::Packet::packet_of_bytes))]
    pub fn deserialize(alloc: Global, bytes: &[u8]) -> Result<EncodingPacket, Error>
        ensures { IsAnswer (λ p. p) result (read_packet bytes.now) }
    {
        if bytes.len() < PAYLOAD_ID_LENGTH {
            return Err(Error::PacketTooShort);
        }
        let (id, payload) = bytes.split_at(PAYLOAD_ID_LENGTH);
        Ok(EncodingPacket {
            payload_id: PayloadId::deserialize(&[id[0], id[1], id[2], id[3]]),
            payload: Symbol::new(Vec::from_slice(alloc, payload)?),
        })
    }

    /// The bytes that spell the packet.
    pub fn serialize(&self, alloc: Global) -> Result<Vec<u8>, Error>
        ensures value { IsAnswer (λ v. v.items) result (Ok (packet_bytes self.now)) }
        ensures read { IfOk result (λ v. packet_of_bytes v.items ≡ self.now) }
    {
        let payload = self.payload.as_bytes();
        let mut bytes = Vec::with_capacity(alloc, PAYLOAD_ID_LENGTH + payload.len())?;
        bytes.extend_from_slice(&self.payload_id.serialize())?;
        bytes.extend_from_slice(payload)?;
        Ok(bytes)
    }

    /// The packet's id.
    pub fn payload_id(&self) -> &PayloadId
        ensures { result.now ≡ self.now.id }
    {
        &self.payload_id
    }

    /// The encoding symbol, in bytes.
    pub fn data(&self) -> &[u8]
        ensures { result.now ≡ self.now.payload }
    {
        self.payload.as_bytes()
    }

    /// The packet's id and its encoding symbol.
    pub fn split(self) -> (PayloadId, Vec<u8>)
        ensures id { result.0 ≡ self.id }
        ensures payload { result.1.items ≡ self.payload }
    {
        let EncodingPacket {
            payload_id,
            payload,
        } = self;
        (payload_id, payload.into_bytes())
    }
}
