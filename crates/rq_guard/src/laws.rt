//! What guards promise.
ghost use Rattle.rq_guard.specs.Lists.{ListsAreRead};
ghost use Rattle.rq_guard.specs.Mending.{MendsWhatItTook};
ghost use Rattle.rq_guard.specs.Protecting.{SentListsAreRead, GuardedPartsAreSent};

/// A list of digests is read as it was written.
pub fn lists_are_read()
    ensures { ListsAreRead }
{}

/// What a [`Mending`](crate::Mending) hands out are the parts that the cells which it took settle, one behind another.
pub fn mends_what_it_took()
    ensures { MendsWhatItTook }
{}

/// The list that [`protect`](crate::protect) sends of a part is read from its bytes.
pub fn sent_lists_are_read()
    ensures { SentListsAreRead }
{}

/// What [`protect`](crate::protect) guards is sent as a stream over all rows: the cells of its parts, and those of the
/// symbols that stay in the file, whichever come, are those of one sender
/// ([`sent_are_one_senders`](rq_cast::laws::sent_are_one_senders)).
pub fn guarded_parts_are_sent()
    ensures { GuardedPartsAreSent }
{}
