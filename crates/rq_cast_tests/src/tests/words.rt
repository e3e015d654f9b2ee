//! What words ask for, and what is said where they ask for nothing.
use rq_cast::{Ids, Loss, Order, Repair};
use rq_command::{Job, Rounds, job};
use std::alloc::{AllocError, Global};

// The order of a line of words behind `send`, how fast and how often it is sent.
fn ordered(alloc: Global, line: &str) -> Result<Option<(Order, Option<u64>, Rounds)>, AllocError> {
    let words: Vec<&str> = line.split_whitespace().collect(alloc)?;
    match job(alloc, words.as_slice()) {
        Ok(Job::Send(job)) => Ok(Some((job.order, job.rate, job.rounds))),
        _ => Ok(None),
    }
}

// The error of a line of words, where it is one.
fn refused(alloc: Global, line: &str) -> Result<String, AllocError> {
    let words: Vec<&str> = line.split_whitespace().collect(alloc)?;
    match job(alloc, words.as_slice()) {
        Ok(_) => Ok(String::new(alloc)),
        Err(error) => format!(in alloc; "{error}"),
    }
}

#[test]
fn orders_are_read(rt: HostRuntime) {
    let alloc = rt.alloc();
    let rows = [
        (
            "send",
            1408,
            Repair::Against(Loss { parts: 5000 }),
            0,
            1,
            None,
        ),
        (
            "send -l 0.5",
            1408,
            Repair::Against(Loss { parts: 500 }),
            0,
            1,
            None,
        ),
        (
            "send --loss 10",
            1408,
            Repair::Against(Loss { parts: 10000 }),
            0,
            1,
            None,
        ),
        (
            "send --cell 1.3k -r 15%",
            1236,
            Repair::Share(15000),
            0,
            1,
            None,
        ),
        (
            "send -c65599 -r 2k",
            65535,
            Repair::Packets(2000),
            0,
            1,
            None,
        ),
        (
            "send -rall --rate 0.5G",
            1408,
            Repair::All,
            0,
            1,
            Some(500_000_000),
        ),
        (
            "send -r7 --share 3/20 --from 100",
            1408,
            Repair::Packets(7),
            103,
            20,
            None,
        ),
    ];
    for (line, symbol_size, repair, first, step, rate) in rows {
        let order = Order {
            part: 16_000_000,
            symbol_size,
            repair,
            ids: Ids {
                first,
                step,
                round: 0,
            },
        };
        assert_eq!(rt;
            ordered(alloc, line).expect(&rt, "memory"),
            Some((order, rate, Rounds::Times(1))),
            "{line}"
        );
    }
}

#[test]
fn parts_are_read(rt: HostRuntime) {
    for (line, bytes) in [
        ("send --part 1", 1),
        ("send --part=0.5G -r7", 500_000_000),
        ("send --part 942574504243", 942_574_504_243),
    ] {
        let order = ordered(rt.alloc(), line).expect(&rt, "memory");
        assert!(rt;
            matches!(order, Some((order, _, _)) if order.part == bytes),
            "{line}"
        );
    }
}

#[test]
fn rounds_are_read(rt: HostRuntime) {
    for (line, rounds) in [
        ("send --rounds 1", Rounds::Times(1)),
        ("send --rounds 4294967295 FILE", Rounds::Times(u32::MAX)),
        ("send --rounds=endless FILE", Rounds::Endless),
    ] {
        let order = ordered(rt.alloc(), line).expect(&rt, "memory");
        assert!(rt;
            matches!(order, Some((_, _, found)) if found == rounds),
            "{line}"
        );
    }
}

// How many parts a line of words behind `receive` has kept at once.
fn kept(alloc: Global, line: &str) -> Result<Option<u32>, AllocError> {
    let words: Vec<&str> = line.split_whitespace().collect(alloc)?;
    match job(alloc, words.as_slice()) {
        Ok(Job::Receive(job)) => Ok(Some(job.window)),
        _ => Ok(None),
    }
}

#[test]
fn windows_are_read(rt: HostRuntime) {
    for (line, parts) in [
        ("receive", 2),
        ("receive --window 1 -o FILE", 1),
        ("receive --window=1k", 1000),
        ("receive --window 1024", 1024),
    ] {
        let window = kept(rt.alloc(), line).expect(&rt, "memory");
        assert_eq!(rt; window, Some(parts), "{line}");
    }
}

// Whether a line of words asks for a job by the key of this file.
fn names_key(alloc: Global, line: &str, key: Option<&str>) -> Result<bool, AllocError> {
    let words: Vec<&str> = line.split_whitespace().collect(alloc)?;
    match job(alloc, words.as_slice()) {
        Ok(Job::Send(job)) => Ok(job.key == key),
        Ok(Job::Receive(job)) => Ok(job.key == key),
        Ok(Job::Follow(job)) => Ok(job.key == key),
        Ok(Job::Info(job)) => Ok(job.key == key),
        Ok(Job::Protect(job)) => Ok(job.key == key),
        Ok(Job::Check(job)) => Ok(job.key == key),
        Ok(Job::Repair(job)) => Ok(job.key == key),
        Ok(Job::Split(job)) => Ok(job.key == key),
        Ok(Job::Join(job)) => Ok(job.key == key),
        Err(_) => Ok(false),
    }
}

#[test]
fn keys_are_named(rt: HostRuntime) {
    for (line, key) in [
        ("send", None),
        ("send -k FILE", Some("FILE")),
        ("send --key=FILE -q OTHER", Some("FILE")),
        ("receive -kFILE A B", Some("FILE")),
        ("receive A B", None),
        ("info A --key FILE", Some("FILE")),
        ("protect -k FILE A", Some("FILE")),
        ("check A GUARD", None),
        ("repair A --key FILE -o B", Some("FILE")),
        ("split A -k FILE FOLDER", Some("FILE")),
        ("join FOLDER --key=FILE", Some("FILE")),
    ] {
        let is_named = names_key(rt.alloc(), line, key).expect(&rt, "memory");
        assert!(rt; is_named, "{line}");
    }
}

#[test]
fn wrong_words_are_named(rt: HostRuntime) {
    let alloc = rt.alloc();
    for (line, word) in [
        ("fetch", "'fetch'"),
        ("send --loud", "'--loud'"),
        ("send a b", "'b'"),
        ("send --part 0", "'0' for '--part <BYTES>'"),
        ("send --part 942574504244 --cell 1", "'942574504244'"),
        ("send --cell", "'--cell <BYTES>'"),
        ("send --cell 64", "'64' for '--cell <BYTES>'"),
        ("send --cell 65600", "'65600'"),
        ("send --cell 1e3", "'1e3'"),
        ("send --loss 50.001", "'50.001' for '--loss <PERCENT>'"),
        (
            "send --loss 5 --repair 7",
            "'--loss <PERCENT>' cannot be used with '--repair <N|N%|all>'",
        ),
        ("send --repair -1", "'-1'"),
        ("send --repair some", "'some' for '--repair <N|N%|all>'"),
        ("send --rate 0", "'0' for '--rate <BITS>'"),
        ("send --rate 1.2345k", "'1.2345k'"),
        ("send --rate +5", "'+5'"),
        ("send --share 2/2", "'2/2' for '--share <I/N>'"),
        ("send --from 16777216", "'16777216' for '--from <ID>'"),
        ("send --rounds 0 FILE", "'0' for '--rounds <N|endless>'"),
        ("send --rounds 2", "'--rounds <N|endless>' takes a FILE"),
        (
            "send -q --progress",
            "'--quiet' cannot be used with '--progress'",
        ),
        (
            "receive --json --progress",
            "'--progress' cannot be used with '--json'",
        ),
        ("receive --name b", "'b' for '--name <HEX>'"),
        (
            "receive --not 01 --not 0 --name 02",
            "'0' for '--not <HEX>'",
        ),
        ("receive --follow", "'--follow' takes a '--output <FILE>'"),
        (
            "receive --follow --name 01 -o FOLDER",
            "'--follow' cannot be used with '--name <HEX>'",
        ),
        (
            "receive --timeout 5",
            "'--timeout <SECONDS>' takes a '--follow'",
        ),
        (
            "receive --follow -o FOLDER --timeout 0",
            "'0' for '--timeout <SECONDS>'",
        ),
        ("receive --follow -o FOLDER --timeout 86401", "'86401'"),
        ("receive --window 0", "'0' for '--window <PARTS>'"),
        ("receive --window 1025 -q --json", "'1025'"),
        ("receive --output", "'--output <FILE>'"),
        ("info --key", "'--key <FILE>'"),
        (
            "info --quiet --json",
            "'--quiet' cannot be used with '--json'",
        ),
        ("protect", "<FILE>"),
        (
            "protect --part 1006632929 A",
            "'1006632929' for '--part <BYTES>'",
        ),
        (
            "protect --repair some A",
            "'some' for '--repair <N|N%|all>'",
        ),
        ("protect -o A A", "'A' for '--output <GUARD>'"),
        ("check A GUARD B", "'B'"),
        ("repair -q --json A", "'--quiet' cannot be used"),
    ] {
        let message = refused(alloc, line).expect(&rt, "memory");
        assert!(rt; message.as_str().contains(word), "{line}: {message}");
    }
}
