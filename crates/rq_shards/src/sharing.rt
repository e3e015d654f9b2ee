//! Which shard a cell goes to.
ghost use Rattle.std.specs.Prelude.{◌<◌, ◌≤◌, length};
ghost use Rattle.rq_shards.specs.Dealing.{IsShare};

use rq_base::base::{PAYLOAD_ID_LENGTH, PayloadId};
use rq_cells::HEAD_LENGTH;

/// How many bytes of a cell say whose it is, and which packet it carries.
pub const ID_END: usize = 56;

/// To which of so many shards a cell goes: what is left of its encoding symbol id, divided by how many there are. So
/// each has the cells of a share, as `send --share` sends them.
pub fn share_of(cell: &[u8], all: u8) -> u8
    requires some { 0 < all }
    requires long { 56 ≤ length cell.now }
    ensures below { result < all }
    ensures share { IsShare all cell.now result }
{
    let mut bytes = [0; PAYLOAD_ID_LENGTH];
    bytes.copy_from_slice(&cell[HEAD_LENGTH..ID_END]);
    let id = PayloadId::deserialize(&bytes);
    (id.encoding_symbol_id() % u32::from(all)) as u8
}
