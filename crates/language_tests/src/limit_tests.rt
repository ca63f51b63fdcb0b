use super::expansion_tests::is_expanded;
use list_base::{Bytes, NoMemory, Seq};
use std::alloc::Global;
use std::test::Fail;

/// What a protocol has, and how many parameters each of its messages carries.
#[derive(Clone, Copy)]
struct Counts {
    roles: u32,
    keys: u32,
    privates: u32,
    messages: u32,
    carried: u32,
}

/// All counts at their limits.
const FULL: Counts = Counts {
    roles: 8,
    keys: 4,
    privates: 60,
    messages: 64,
    carried: 16,
};

/// One count each over its limit, or the number of all parameters.
const OVER: &[Counts] = &[
    Counts { roles: 9, ..FULL },
    Counts {
        keys: 5,
        privates: 59,
        ..FULL
    },
    Counts {
        privates: 61,
        ..FULL
    },
    Counts {
        messages: 65,
        ..FULL
    },
    Counts {
        carried: 17,
        ..FULL
    },
];

/// Adds the number.
fn add_number(alloc: Global, out: &mut Bytes, number: u32) -> Result<(), NoMemory> {
    out.append(number.to_string(alloc)?.as_bytes())
}

/// Adds the numbers below the count, each between two pieces of text, with commas.
fn add_each(
    alloc: Global,
    out: &mut Bytes,
    count: u32,
    before: &[u8],
    after: &[u8],
) -> Result<(), NoMemory> {
    for i in 0..count {
        out.append(if i > 0 { b"," } else { b" " })?;
        out.append(before)?;
        add_number(alloc, out, i)?;
        out.append(after)?;
    }
    Ok(())
}

/// Adds the head of the protocol with the counts.
fn add_head(alloc: Global, out: &mut Bytes, counts: &Counts) -> Result<(), NoMemory> {
    out.append(b"P { roles")?;
    add_each(alloc, out, counts.roles, b"r", b"")?;
    out.append(b" parameters")?;
    add_each(alloc, out, counts.keys, b"out k", b" key")?;
    out.append(b" private")?;
    add_each(alloc, out, counts.privates, b"p", b"")
}

/// Adds the messages, each with as many parameters.
fn add_messages(alloc: Global, out: &mut Bytes, counts: &Counts) -> Result<(), NoMemory> {
    for i in 0..counts.messages {
        out.append(b" r0 -> r1: m")?;
        add_number(alloc, out, i)?;
        out.append(b"[")?;
        add_each(alloc, out, counts.carried, b"in p", b"")?;
        out.append(b"]")?;
    }
    out.append(b" }")
}

/// The text of a protocol with the counts.
fn crowd(alloc: Global, counts: &Counts) -> Result<Bytes, NoMemory> {
    let mut out = Seq::new(alloc);
    add_head(alloc, &mut out, counts)?;
    add_messages(alloc, &mut out, counts)?;
    Ok(out)
}

#[test]
fn each_limit_counts(rt: HostRuntime) -> Result<(), Fail> {
    let full = crowd(rt.alloc(), &FULL)?;
    assert!(rt; is_expanded(rt.alloc(), full.as_slice()) == Some(true));
    for counts in OVER {
        let text = crowd(rt.alloc(), counts)?;
        assert!(rt; is_expanded(rt.alloc(), text.as_slice()) == Some(false));
    }
    Ok(())
}
