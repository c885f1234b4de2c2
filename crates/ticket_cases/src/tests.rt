use super::tables::{HOUSE, KEY, PAIRS, PASSED, TICKETS, TIED, TOLD, YESES};
use codec::{Coded, Kind, from_bytes, write_all};
use hmac::Mac;
use lines::Fault;
use std::alloc::Global;
use std::process::Abort;
use std::test::Fail;
use tickets::{Body, PassedYes, Ticket, TicketBody, TiedYes, WithMac, Yes, YesKey};

const MUSEUMS: &[u8] = b"\x01\x02\x03\x04";

const DAYS: &[u8] = b"\x02\x00\x0a\x00\x14";

const PERSONS: &[u8] = b"\x04\x02";

const ELSE: &[u8] = b"\x06\x00\x05";

const SHAPE: Option<Fault> = Some(Fault::Shape);

const UNREADABLE: Option<Fault> = Some(Fault::Unreadable);

const TOO_MANY: Option<Fault> = Some(Fault::TooMany);

// A line, and the fault that is told where it is not added to a ticket, a full ticket, a yes and a full yes.
const ADDED: [(
    &[u8],
    Option<Fault>,
    Option<Fault>,
    Option<Fault>,
    Option<Fault>,
); 5] = [
    (PERSONS, None, TOO_MANY, None, TOO_MANY),
    (ELSE, None, TOO_MANY, UNREADABLE, UNREADABLE),
    (b"", SHAPE, SHAPE, SHAPE, SHAPE),
    (b"\x07\x00", SHAPE, SHAPE, SHAPE, SHAPE),
    (b"\x01\x00", UNREADABLE, UNREADABLE, UNREADABLE, UNREADABLE),
];

fn is<T: Coded>(rt: &impl Abort, heap: Global, thing: &T, bytes: &[u8]) -> Result<(), Fail> {
    assert_eq!(rt; thing.to_bytes(heap)?.as_slice(), bytes);
    Ok(())
}

#[test]
fn made(rt: HostRuntime) -> Result<(), Fail> {
    let heap = rt.alloc();
    let mut ticket = Ticket::new(Mac::new(HOUSE), 7, MUSEUMS)?;
    is(&rt, heap, &ticket, TICKETS[0])?;
    ticket.add(ELSE)?;
    is(&rt, heap, &ticket, TICKETS[1])?;
    ticket.add(PERSONS)?;
    is(&rt, heap, &ticket, TICKETS[2])?;
    let key: YesKey = from_bytes(KEY)?;
    let mut yes = key.yes();
    is(&rt, heap, &yes, YESES[0])?;
    yes.add(DAYS)?;
    is(&rt, heap, &yes, YESES[1])?;
    let passed = ticket.tie(&yes);
    is(&rt, heap, &passed, PASSED)?;
    is(&rt, heap, &passed.yes, TIED)
}

// A thing is read back as it was; cut short at any length, or with a byte left over, it has the wrong shape.
fn reads_back<T: Coded + Drop>(rt: &impl Abort, heap: Global, bytes: &[u8]) -> Result<(), Fail> {
    let thing: T = from_bytes(bytes)?;
    is(rt, heap, &thing, bytes)?;
    // Each length has an assertion of its own, which tells the one that fails.
    for n in 0..bytes.len() {
        assert_eq!(rt; from_bytes::<T>(&bytes[0..n]).err(), SHAPE);
    }
    let mut longer = Vec::new(heap);
    longer.extend_from_slice(bytes)?;
    longer.push(0)?;
    assert_eq!(rt; from_bytes::<T>(longer.as_slice()).err(), SHAPE);
    Ok(())
}

#[test]
fn read_back(rt: HostRuntime) -> Result<(), Fail> {
    let heap = rt.alloc();
    for ticket in TICKETS {
        reads_back::<Ticket>(&rt, heap, ticket)?;
    }
    for yes in YESES {
        reads_back::<Yes>(&rt, heap, yes)?;
    }
    reads_back::<TiedYes>(&rt, heap, TIED)?;
    reads_back::<PassedYes>(&rt, heap, PASSED)?;
    reads_back::<YesKey>(&rt, heap, KEY)
}

// Things are written one behind the other.
#[test]
fn written(rt: HostRuntime) -> Result<(), Fail> {
    let heap = rt.alloc();
    let yeses: [Yes; 2] = [from_bytes(YESES[0])?, from_bytes(YESES[1])?];
    let mut out = Vec::new(heap);
    write_all(&mut out, &yeses)?;
    let mut due = Vec::new(heap);
    for yes in YESES {
        due.extend_from_slice(yes)?;
    }
    assert_eq!(rt; out.as_slice(), due.as_slice());
    Ok(())
}

fn told_as(kind: Kind, bytes: &[u8]) -> Option<Fault> {
    match kind {
        Kind::Ticket => from_bytes::<Ticket>(bytes).err(),
        Kind::Yes => from_bytes::<Yes>(bytes).err(),
        Kind::Tied => from_bytes::<TiedYes>(bytes).err(),
        Kind::Passed => from_bytes::<PassedYes>(bytes).err(),
        _ => from_bytes::<YesKey>(bytes).err(),
    }
}

#[test]
fn faults_told(rt: HostRuntime) -> Result<(), Fail> {
    for (kind, bytes, fault) in TOLD {
        let mut whole = Vec::new(rt.alloc());
        whole.extend_from_slice(bytes)?;
        whole.extend_from_slice(&[0xaa; 32])?;
        assert_eq!(rt; told_as(kind, whole.as_slice()), fault, "{bytes:?}");
    }
    Ok(())
}

// With a line added so many times.
fn filled<B: Body + Copy>(few: WithMac<B>, line: &[u8], times: u8) -> Result<WithMac<B>, Fail> {
    let mut many = few;
    for _ in 0..times {
        many.add(line)?;
    }
    Ok(many)
}

fn full_ticket() -> Result<Ticket, Fail> {
    filled(Ticket::new(Mac::new(HOUSE), 7, MUSEUMS)?, PERSONS, 31)
}

fn full_yes(key: YesKey) -> Result<Yes, Fail> {
    filled(key.yes(), DAYS, 16)
}

// A line is added, or the fault is told, and then all is as it was.
fn adds<B: Body + Coded + Copy>(
    rt: &impl Abort,
    heap: Global,
    before: WithMac<B>,
    line: &[u8],
    fault: Option<Fault>,
) -> Result<(), Fail> {
    let mut after = before;
    assert_eq!(rt; after.add(line).err(), fault);
    if fault.is_some() {
        is(rt, heap, &after, before.to_bytes(heap)?.as_slice())?;
    }
    Ok(())
}

#[test]
fn added(rt: HostRuntime) -> Result<(), Fail> {
    let heap = rt.alloc();
    let key: YesKey = from_bytes(KEY)?;
    let ticket = Ticket::new(Mac::new(HOUSE), 7, MUSEUMS)?;
    let full_ticket = full_ticket()?;
    let full_yes = full_yes(key)?;
    for (line, to_ticket, to_full_ticket, to_yes, to_full_yes) in ADDED {
        adds(&rt, heap, ticket, line, to_ticket)?;
        adds(&rt, heap, full_ticket, line, to_full_ticket)?;
        adds(&rt, heap, key.yes(), line, to_yes)?;
        adds(&rt, heap, full_yes, line, to_full_yes)?;
    }
    Ok(())
}

// The most lines and limits are read back; with one more, there are too many.
#[test]
fn most(rt: HostRuntime) -> Result<(), Fail> {
    let heap = rt.alloc();
    let mut ticket = full_ticket()?.to_bytes(heap)?;
    reads_back::<Ticket>(&rt, heap, ticket.as_slice())?;
    assert!(rt; 5 < ticket.len());
    ticket[5] = 33;
    assert_eq!(rt; from_bytes::<Ticket>(ticket.as_slice()).err(), TOO_MANY);
    let mut yes = full_yes(from_bytes(KEY)?)?.to_bytes(heap)?;
    reads_back::<Yes>(&rt, heap, yes.as_slice())?;
    assert!(rt; 3 < yes.len());
    yes[3] = 17;
    assert_eq!(rt; from_bytes::<Yes>(yes.as_slice()).err(), TOO_MANY);
    Ok(())
}

#[test]
fn compared(rt: HostRuntime) -> Result<(), Fail> {
    for (one, other, same, more) in PAIRS {
        let one: TicketBody = from_bytes(one)?;
        let other: TicketBody = from_bytes(other)?;
        assert_eq!(rt; one.same(&other), same);
        assert_eq!(rt; one == other, same);
        assert_eq!(rt; one.extends(&other), more);
    }
    Ok(())
}
