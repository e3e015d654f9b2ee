//! What is said of a run.
use crate::tests::receiving::WRITTEN;
use crate::tests::sending::{order, sent_to};
use crate::tests::stored_cells::{FIRST, OBJECT};
use raptorq::error::Error;
use raptorq::systematic_constants::SystematicTable;
use rq_cast::{Ending, Pace, Seen, Sender, Sent, standings_in};
use rq_cells::Key;
use rq_command::{End, Streams, announce, write_end, write_standings};
use rq_streams::Stop;

// Announces each part in both forms.
#[derive(Drop)]
struct Announced {
    out: Vec<u8>,
}

impl Pace for Announced {
    fn begin_part(&mut self, sender: &Sender<'_>) {
        let _ = announce(sender, false, &mut self.out);
        let _ = announce(sender, true, &mut self.out);
    }

    fn wait(&mut self, _bytes: usize) {}

    fn tell_call(&mut self, _cell: &[u8], _is_lost: bool) {}
}

#[test]
fn ends_are_said(rt: HostRuntime) {
    let alloc = rt.alloc();
    let none = Seen::default();
    let one = Seen { cells: 1, ..none };
    let received = |ended| End::Received(ended, none);
    let sent = |cells, lost| {
        End::Sent(Sent {
            parts: 1,
            cells,
            lost,
        })
    };
    let incomplete = |parts, missing| Ok(Ending::Incomplete { parts, missing });
    let streams = |whole, given_up| Streams { whole, given_up };
    let rows = [
        (End::AtTerminal, "cells aren't written to a terminal", 64),
        (End::EmptyKey, "the key is empty", 64),
        (sent(0, 0), "no cell is sent", 0),
        (sent(5, 1), "", 0),
        (sent(5, 2), "at least 2 of 5 cells were lost", 1),
        (sent(1, 0), "", 0),
        (
            End::Changed(3),
            "rqcast: FILE changed between rounds: part 3 isn't what it was",
            1,
        ),
        (received(Ok(WRITTEN)), "", 0),
        (
            received(incomplete(0, Some(7))),
            "rqcast: it takes 7 more packets",
            2,
        ),
        (
            received(incomplete(1, Some(1))),
            "rqcast: 1 part is whole, and the next one takes 1 more packet:",
            2,
        ),
        (
            received(incomplete(0, None)),
            "rqcast: no cell came of what is wanted",
            2,
        ),
        (
            received(incomplete(3, None)),
            "rqcast: 3 parts are whole, and no cell came of the next one",
            2,
        ),
        (received(Err(Stop::Fault)), "", 1),
        (
            End::Followed(streams(1, 0), incomplete(0, None), none),
            "",
            0,
        ),
        (
            End::Followed(streams(3, 1), incomplete(0, None), none),
            "rqcast: 1 stream was silent too long while others came",
            2,
        ),
        (
            End::Followed(streams(0, 0), incomplete(0, None), none),
            "rqcast: no cell came of what is wanted",
            2,
        ),
        (
            End::Followed(streams(1, 1), incomplete(2, Some(7)), one),
            "rqcast: 2 parts are whole, and the next one takes 7 more packets",
            2,
        ),
        (
            End::Checked(None),
            "rqcast: the lists of the guard aren't whole",
            2,
        ),
        (
            End::Repaired(None),
            "rqcast: the lists of the guard aren't whole",
            2,
        ),
        (
            End::Stopped(Stop::Refused(Error::OutOfMemory)),
            "too little memory",
            1,
        ),
        (
            End::Stopped(Stop::Refused(Error::TransferTooLong)),
            "take a greater --part",
            3,
        ),
    ];
    for (ended, text, status) in rows {
        let mut out: Vec<u8> = Vec::new(alloc);
        write_end(&ended, false, &mut out).expect(&rt, "memory");
        let said = str::from_utf8(out.as_slice()).expect(&rt, "text");
        assert_eq!(rt;
            (said.is_empty(), said.contains(text)),
            (text.is_empty(), true)
        );
        assert_eq!(rt; ended.status(), status);
    }
}

#[test]
fn senders_and_streams_are_named(rt: HostRuntime) {
    let alloc = rt.alloc();
    let table = SystematicTable::built_in(alloc).expect(&rt, "a table");
    let mut told = Announced {
        out: Vec::new(alloc),
    };
    let mut cells: Vec<u8> = Vec::new(alloc);
    let order = order(1000, 0, 1);
    let _ = sent_to(alloc, &order, &OBJECT, &mut cells, &mut told).expect(&rt, "cells");
    let Announced { mut out } = told;
    let standings = standings_in(alloc, &table, &Key::none(), 2, &FIRST).expect(&rt, "memory");
    write_standings(standings.as_slice(), false, &mut out).expect(&rt, "memory");
    write_standings(standings.as_slice(), true, &mut out).expect(&rt, "memory");
    let text = "\
name 895c2d0a5eb30d32
blocks 1 of 2
cells 2
{\"name\":\"895c2d0a5eb30d32\",\"blocks\":1,\"symbols\":2,\"cells\":2}
895c2d0a5eb30d32 3 bytes, lacks 1 packet
{\"name\":\"895c2d0a5eb30d32\",\"bytes\":3,\"parts\":0,\"missing\":1,\"restarted\":0}
";
    assert_eq!(rt; out.as_slice(), text.as_bytes());
}
