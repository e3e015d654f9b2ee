//! What is told while a run goes on.
use rq_cast::{Progress, Seen};
use rq_command::{Teller, Telling};
use rq_watch::{Amount, COLUMNS, Course, Time, Watch};
use std::alloc::AllocError;
use std::cell::Cell;
use std::io;
use std::time::{Clock, Duration};

// A clock whose hand a test sets, in milliseconds.
#[derive(Drop)]
struct Hand {
    at: Cell<u64>,
}

impl Clock for Hand {
    fn monotonic(&self) -> io::Result<Duration> {
        Ok(Duration::from_millis(self.at.get()))
    }

    fn since_1970(&self) -> io::Result<Duration> {
        self.monotonic()
    }
}

#[test]
fn a_line_is_written_past_each_second(rt: HostRuntime) {
    let clock = Hand { at: Cell::new(0) };
    let mut out: Vec<u8> = Vec::new(rt.alloc());
    let mut watch = Watch::new(&clock, &mut out, true);
    watch.begin(Telling::Usual, None, Some(2000));
    for (at, bytes) in [(0, 10), (999, 20), (2000, 970), (2999, 5), (3000, 95)] {
        clock.at.set(at);
        watch.tell(bytes, &Seen::default(), None);
    }
    drop(watch);
    let text = "\r50%, 500 B/s, 0:02 left\x1b[K\r55%, 100 B/s, 0:02 left\x1b[K";
    assert_eq!(rt; out.as_slice(), text.as_bytes());
}

#[test]
fn silence_begins_with_the_first_cell_of_another(rt: HostRuntime) {
    let clock = Hand { at: Cell::new(0) };
    let mut out: Vec<u8> = Vec::new(rt.alloc());
    let mut watch = Watch::new(&clock, &mut out, false);
    // When, in seconds, how many cells of the stream and of others were seen, and whether it is silent for 60.
    for (at, cells, others, is_silent) in [
        (0, 1, 0, false),
        (100, 1, 0, false),
        (119, 1, 1, false),
        (120, 2, 1, false),
        (121, 2, 2, false),
        (180, 2, 3, false),
        (181, 2, 3, true),
        (182, 3, 3, false),
        (300, 3, 3, false),
    ] {
        clock.at.set(at * 1000);
        let seen = Seen {
            cells,
            others,
            ..Seen::default()
        };
        assert_eq!(rt; watch.is_silent(60, &seen), is_silent);
    }
}

#[test]
fn amounts_and_times_are_short(rt: HostRuntime) -> Result<(), AllocError> {
    let alloc = rt.alloc();
    for (bytes, text) in [
        (0, "0 B"),
        (999, "999 B"),
        (1_000, "1.0 kB"),
        (999_949, "999 kB"),
        (999_950, "1.0 MB"),
        (37_440_000, "37.4 MB"),
        (2_000_000_000, "2.0 GB"),
    ] {
        assert_eq!(rt; format!(in alloc; "{}", Amount(bytes))?.as_str(), text);
    }
    for (seconds, text) in [(0, "0:00"), (61, "1:01"), (3723, "1:02:03")] {
        assert_eq!(rt; format!(in alloc; "{}", Time(seconds))?.as_str(), text);
    }
    Ok(())
}

#[test]
fn lines_fit_in_forty_columns(rt: HostRuntime) {
    let courses = [
        (
            42,
            100,
            12345,
            12_340_000,
            "42%, 12.3 MB/s, 1:02 left, lacks 12345",
        ),
        (
            1,
            u64::MAX,
            u64::MAX,
            u64::MAX,
            "0%, 18446744 TB/s, lacks 18446744073709",
        ),
    ];
    for (done, all, missing, rate, text) in courses {
        let course = Course {
            done,
            all: Some(all),
            missing: Some(missing),
            rate,
            seconds: 45,
        };
        let mut line = [0u8; COLUMNS];
        let columns = course.fill(&mut line);
        assert_eq!(rt; &line[..columns], text.as_bytes());
    }
}
