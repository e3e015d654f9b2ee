//! The source symbols of a block, where they stand.
use std::collections::BTreeMap;

/// The source symbols of a block: those that were received, and besides them the lost ones.
#[derive(Clone, Copy)]
pub(crate) struct SourceSymbols<'a> {
    pub(crate) received: &'a BTreeMap<u32, Vec<u8>>,
    pub(crate) lost: &'a BTreeMap<u32, Vec<u8>>,
}

impl<'a> SourceSymbols<'a> {
    ghost use Rattle.std.specs.Prelude.{◌≡◌, Some, IsSome};
    ghost use Rattle.rq_block.specs.SourceSymbols.{source_symbol};

    /// The symbol of an id, which is among them.
    pub(crate) fn symbol(&self, esi: u32) -> &'a [u8]
        requires { IsSome (source_symbol self.now esi) }
        ensures { source_symbol self.now esi ≡ Some result.now }
    {
        if let Some(symbol) = self.received.get(&esi) {
            return symbol.as_slice();
        }
        let Some(symbol) = self.lost.get(&esi) else {
            unreachable!()
        };
        symbol.as_slice()
    }
}
