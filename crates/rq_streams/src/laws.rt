//! What the two runs say together.
ghost use Rattle.rq_streams.specs.SentStreams.{SentStreamsAreTaken, StreamsAreUnmixed};

/// What [`run_send`](crate::run_send) writes is a stream of an object's packets, and any list of its
/// packets, with frames removed, repeated or moved, is a stream that
/// [`run_receive`](crate::run_receive) takes.
pub fn sent_streams()
    ensures { SentStreamsAreTaken }
{}

/// A stream of an object's packets is one in which no other frames stand among them: of such a
/// stream [`run_receive`](crate::run_receive) skips nothing.
pub fn unmixed_streams()
    ensures { StreamsAreUnmixed }
{}
