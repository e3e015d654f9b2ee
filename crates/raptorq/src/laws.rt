//! Laws of packets, blocks and answers: each is the contract of a function that does nothing.
ghost use Rattle.rq_standard.specs.PacketLaws.{IntermediateSymbolsAreOnly, SourcePacketsAreSymbols, AnswerableIsOnlyObject, MorePacketsDetermine, MorePacketsAreAnswerable, AnswersStay, SameIdsAreAnswerable, SameIdsAnswerTheSame, AnswerIsOne, DeterminedByIdsAlone, ContradictionsStay, JoiningUndoesCutting, CuttingUndoesJoining};
ghost use Rattle.rq_standard.specs.StepLaws.{TakenIsFollowed, TakenIsTried, RecordedIsLate, HonestRunsGrow, HonestPacketsFit, ContradictionsAreKept, ContradictoryTakesNone, ContradictoryIsNone, ResultIsObject, DifferenceTellsAnswer, DifferencesFit};
ghost use Rattle.raptorq.specs.Laws.{FirstRefusalIsOne, AnsweredPartsMakeObject, PartsAreObjects, TurnsTake, TurnsRemember, TakenIsNext, RefusedIsNext, HonestIsTaken};

/// A block has no more than one column of intermediate symbols where its row isn't singular: any two
/// are the same below L (RFC 6330, sections 5.3.3 and 5.4.2).
pub fn only_intermediate_symbols()
    ensures { IntermediateSymbolsAreOnly }
{}

/// The packet of an encoding symbol id below K carries the source symbol of that number: the code is
/// systematic (RFC 6330, sections 5.1.1 and 5.3.1). The table and the configuration are ones that
/// coders take.
pub fn source_packets()
    ensures { SourcePacketsAreSymbols }
{}

/// No decoder can do better: an object's packets determine each of its blocks exactly where no other
/// object of its length has them all among its own (RFC 6330, section 5.4).
pub fn only_objects()
    ensures { AnswerableIsOnlyObject }
{}

/// More packets never hide what fewer told. A block, or an object, that a list of packets determines
/// is determined by each list that has the same ids and perhaps others; and where both lists are an
/// object's packets, what was answered stays the answer (RFC 6330, section 5.4.2).
pub fn more_packets()
    ensures blocks { MorePacketsDetermine }
    ensures objects { MorePacketsAreAnswerable }
    ensures answers { AnswersStay }
{}

/// Neither the order of packets nor their repeats matter: lists with the same ids are both
/// answerable or neither, and where both are an object's packets their answers are the same (RFC
/// 6330, section 5.4.1).
pub fn order_and_repeats()
    ensures objects { SameIdsAreAnswerable }
    ensures answers { SameIdsAnswerTheSame }
{}

/// Whether what was received of a block determines it depends on its encoding symbol ids alone,
/// whatever they carry; what contradicts itself then contradicts itself with every packet more (RFC
/// 6330, section 5.4.2).
pub fn contradictions()
    ensures ids { DeterminedByIdsAlone }
    ensures stay { ContradictionsStay }
    ensures kept { ContradictionsAreKept }
    ensures none_taken { ContradictoryTakesNone }
    ensures no_object { ContradictoryIsNone }
{}

/// Over any packets, whoever sent them, a run has one first refusal at most: what
/// [`decode_all`](crate::decoder::decode_all) refuses but for want of memory.
pub fn first_refusals()
    ensures { FirstRefusalIsOne }
{}

/// Over any packets, whoever sent them, a run has one answer at most: what
/// [`decode_all`](crate::decoder::decode_all) answers where nothing is refused.
pub fn answers()
    ensures { AnswerIsOne }
{}

/// Cutting a block of K symbols into sub-blocks and symbols loses nothing: joining its symbols by
/// places gives the block, and cutting a joined block gives its symbols (RFC 6330, section 4.4.1.2).
pub fn joined_sub_blocks()
    ensures joined { JoiningUndoesCutting }
    ensures cut { CuttingUndoesJoining }
{}

/// The bytes that a decoder lends of its blocks one after another are the object that it answers, where
/// each block is answered, and else there is none (RFC 6330, section 4.4.1.2).
pub fn joined_blocks()
    ensures object { AnsweredPartsMakeObject }
    ensures parts { PartsAreObjects }
{}

/// What [`Decoder::add_new_packet`](crate::decoder::Decoder::add_new_packet) does in turn with a packet
/// is one step: the packet is refused by the tests and changes nothing, or is taken and its block
/// answered where that can be, or contradicts what its block holds; or memory is refused, and the packet
/// is recorded or not. And what is remembered of its block then.
pub fn packets_in_turn()
    ensures take { TurnsTake }
    ensures remember { TurnsRemember }
{}

/// From a decoder that follows packets and took one more, one that follows them with it, whoever sent
/// them; the packet was refused exactly when the rules say so, or for want of memory. Where it was
/// recorded and memory was refused then, its block is late until it is tried again.
pub fn followed_packets()
    ensures followed { TakenIsFollowed }
    ensures tried { TakenIsTried }
    ensures late { RecordedIsLate }
    ensures taken { TakenIsNext }
    ensures refused { RefusedIsNext }
{}

/// An object's packets contradict nothing, and are refused for want of memory alone.
pub fn honest_packets()
    ensures runs { HonestRunsGrow }
    ensures fit { HonestPacketsFit }
    ensures taken { HonestIsTaken }
{}

/// A decoder that follows an object's packets answers the object, exactly where they determine it, and
/// no decoder can do better.
pub fn results()
    ensures { ResultIsObject }
{}

/// What a decoder that follows an object's packets calls a difference is none exactly where the object
/// is answered, unless a block is late, and makes another object that fits of any that does.
pub fn differences()
    ensures none { DifferenceTellsAnswer }
    ensures fit { DifferencesFit }
{}
