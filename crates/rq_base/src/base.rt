//! Packets, configurations and how objects are cut.
mod cutting;
mod information;
mod packet;
mod record;
mod tuple;

pub use cutting::partition;
pub use information::{
    CONFIGURATION_LENGTH, DEFAULT_DECODER_MEMORY, ObjectTransmissionInformation,
};
pub use packet::{ENCODING_SYMBOL_IDS, EncodingPacket, PAYLOAD_ID_LENGTH, PayloadId};
pub use record::{EncodingPacketRecord, ObjectTransmissionInformationRecord, PayloadIdRecord};
pub use tuple::{deg, intermediate_tuple};
