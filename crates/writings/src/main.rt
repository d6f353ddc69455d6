// What the writer answers to a few lists, in the order of its tests, and the whole output afterwards.
#![tactic(auto)]

ghost use Rattle.std.specs.Prelude.{◌≡◌, ◌+◌, length};
ghost use Rattle.figures.specs.Limits.{most_steps};

use figures::Machine;
use runfile::Contents;
use std::io;

// A line of numbers.
fn say_numbers(rt: &impl Print, bytes: &[u8]) -> io::Result<()> {
    for byte in bytes {
        print!(rt; " {byte}")?;
    }
    println!(rt)
}

// What the writer answers, and the whole output after: sevens, where it wrote nothing.
fn try_write(rt: &impl Print, contents: Contents<'_>, out: &mut [u8]) -> io::Result<()> {
    match runfile::write(contents, out) {
        Ok(length) => println!(rt; "written {length}")?,
        Err(refused) => println!(rt; "{refused}")?,
    }
    say_numbers(rt, out)
}

// The same of each in turn.
fn try_each(rt: &impl Print, lists: &[Contents<'_>], out: &mut [u8]) -> io::Result<()> {
    for contents in lists {
        try_write(rt, *contents, out)?;
    }
    Ok(())
}

// Contents that are right: one thread with no operations, one key, two steps.
fn idle<'a>() -> Contents<'a> {
    Contents {
        threads: 1,
        keys: 1,
        counts: &[0],
        operations: b"",
        schedule: b"\x00\x00",
    }
}

// A schedule that is one step too long.
fn long_schedule() -> [u8; Machine::STEPS + 1]
    ensures { most_steps + 1 ≡ length result }
{
    [0; Machine::STEPS + 1]
}

// Counts that disagree with the threads or the operations, before anything else is wrong; then too many operations and too many
// steps, and then too many steps alone.
fn try_lengths(rt: &impl Print, out: &mut [u8]) -> io::Result<()> {
    let calls = [0; Machine::OPERATIONS + 1];
    let steps = long_schedule();
    let lists = [
        Contents {
            threads: 2,
            operations: &calls,
            ..idle()
        },
        Contents {
            counts: &[1],
            ..idle()
        },
        Contents {
            counts: &[65],
            operations: &calls,
            schedule: &steps,
            ..idle()
        },
        Contents {
            schedule: &steps,
            ..idle()
        },
    ];
    try_each(rt, &lists, out)
}

// One operation byte that is not allowed: a size with a key, key K, key 16 where there are 16 keys; and key K before a schedule byte
// that names no thread.
fn try_faults(rt: &impl Print, out: &mut [u8]) -> io::Result<()> {
    for (keys, operation, step) in [(16, 0xff, 0), (12, 0x0c, 0), (16, 0x10, 0), (12, 0x8c, 1)] {
        let contents = Contents {
            keys,
            counts: &[1],
            operations: &[operation],
            schedule: &[step],
            ..idle()
        };
        try_write(rt, contents, out)?;
    }
    Ok(())
}

// A right byte, and then an insert with key 16, a delete with key K and a size with a key, in each order: the first decides.
fn try_first(rt: &impl Print, out: &mut [u8]) -> io::Result<()> {
    let orders = [
        b"\x0b\x10\x4c\xff",
        b"\x0b\x10\xff\x4c",
        b"\x0b\x4c\x10\xff",
        b"\x0b\x4c\xff\x10",
        b"\x0b\xff\x10\x4c",
        b"\x0b\xff\x4c\x10",
    ];
    for operations in orders {
        let contents = Contents {
            keys: 12,
            counts: &[4],
            operations,
            schedule: b"\x00",
            ..idle()
        };
        try_write(rt, contents, out)?;
    }
    Ok(())
}

// Wrong bytes, and then none.
fn try_bytes(rt: &impl Print, out: &mut [u8]) -> io::Result<()> {
    let lists = [
        Contents {
            counts: &[2],
            operations: b"\x00\x01",
            ..idle()
        },
        Contents {
            keys: 16,
            counts: &[1],
            operations: b"\xc1",
            schedule: b"\x01",
            ..idle()
        },
        Contents {
            schedule: b"\x00\x01",
            ..idle()
        },
        idle(),
    ];
    try_each(rt, &lists, out)
}

// Numbers of threads and keys outside their limits.
fn try_limits(rt: &impl Print, out: &mut [u8]) -> io::Result<()> {
    let lists = [
        Contents {
            threads: 0,
            keys: 0,
            ..idle()
        },
        Contents {
            threads: 9,
            ..idle()
        },
        Contents {
            keys: 17,
            operations: b"\x00",
            ..idle()
        },
    ];
    try_each(rt, &lists, out)
}

// Too little room, and then the rest in the writer's order.
fn main(rt: HostRuntime) -> io::Result<()> {
    let mut out = [7; 14];
    try_write(&rt, idle(), &mut [7; 11])?;
    try_limits(&rt, &mut out)?;
    try_lengths(&rt, &mut out)?;
    try_faults(&rt, &mut out)?;
    try_first(&rt, &mut out)?;
    try_bytes(&rt, &mut out)
}
