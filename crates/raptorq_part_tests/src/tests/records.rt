//! The texts of records.
use crate::compare::{holds, same};
use raptorq::base::{
    EncodingPacket, EncodingPacketRecord, ObjectTransmissionInformation,
    ObjectTransmissionInformationRecord, PayloadId, PayloadIdRecord,
};
use raptorq::error::Error;
use std::test::Fail;

#[test]
fn payload_ids(rt: HostRuntime) -> Result<(), Fail> {
    let alloc = rt.alloc();
    let id = PayloadId::new(1, 66051)?;
    let text = serde_json::to_string(alloc, &PayloadIdRecord::from_value(&id))?;
    same!(rt; text.as_str(), "{\"source_block_number\":1,\"encoding_symbol_id\":66051}");
    let record: PayloadIdRecord = serde_json::from_str(alloc, text.as_str())?;
    holds!(rt; record.into_value() == Ok(id));
    let text = "{\"source_block_number\":0,\"encoding_symbol_id\":16777216}";
    let record: PayloadIdRecord = serde_json::from_str(alloc, text)?;
    holds!(rt; record.into_value() == Err(Error::EsiTooLarge));
    Ok(())
}

#[test]
fn packets(rt: HostRuntime) -> Result<(), Fail> {
    let alloc = rt.alloc();
    let packet = EncodingPacket::new(PayloadId::new(1, 66051)?, vec![in alloc; 7, 8]?);
    let record = EncodingPacketRecord::from_value(alloc, &packet)?;
    let text = serde_json::to_string(alloc, &record)?;
    same!(rt;
        text.as_str(),
        "{\"payload_id\":{\"source_block_number\":1,\"encoding_symbol_id\":66051},\"data\":[7,8]}"
    );
    let read: EncodingPacketRecord = serde_json::from_str(alloc, text.as_str())?;
    let value = read.into_value()?;
    same!(rt; value.data(), [7, 8].as_slice());
    Ok(())
}

#[test]
fn configurations(rt: HostRuntime) -> Result<(), Fail> {
    let alloc = rt.alloc();
    let configuration = ObjectTransmissionInformation::new(120, 10, 10, 1, 2)?;
    let record = ObjectTransmissionInformationRecord::from_value(&configuration);
    let text = serde_json::to_string(alloc, &record)?;
    same!(rt;
        text.as_str(),
        "{\"transfer_length\":120,\"symbol_size\":10,\"num_source_blocks\":10,\"num_sub_blocks\":1,\"symbol_alignment\":2}"
    );
    let read: ObjectTransmissionInformationRecord = serde_json::from_str(alloc, text.as_str())?;
    holds!(rt; read.into_value() == Ok(configuration));
    Ok(())
}
