//! The encoder of a block: its bytes in, packets out.
mod block;
mod borrowed;
mod cache;
mod plan;

pub use block::SourceBlockEncoder;
pub use borrowed::BorrowedBlock;
pub use cache::SourceBlockEncodingPlanCache;
pub use plan::SourceBlockEncodingPlan;

/// From how many symbols of an extended source block (K') on blocks are solved over a sparse matrix:
/// by plans and encoders always, and by decoders until another threshold is set.
pub const SPARSE_MATRIX_THRESHOLD: u32 = 250;
