use super::tables::{LIMITS, LINES, WISHES};
use lines::{Fault, Line, Place, Wish, read_line, read_wish};
use std::process::Abort;
use std::test::Fail;

const WISH: &[u8] = b"\x15\x03\x00\x09\x02\x58\x02\x03ada";

// What is told of a wish that is all of the bytes.
fn wish_of(bytes: &[u8]) -> Result<Wish, Fault> {
    let (raw, rest) = read_wish(bytes).ok_or(Fault::Shape)?;
    if !rest.is_empty() {
        return Err(Fault::Shape);
    }
    raw.in_range().ok_or(Fault::Range)
}

// What was read is written as the bytes that it was read from, and leaves what follows as it was; with a byte too little it leaves all.
fn writes_back<W: Fn(&mut [u8]) -> Option<usize>>(rt: &impl Abort, write: W, bytes: &[u8])
    requires { W.IsAlwaysCallable write }
{
    let mut out = [7; 64];
    assert_eq!(rt; write(&mut out), Some(bytes.len()));
    assert!(rt; bytes.len() < 64);
    assert!(rt; &out[0..bytes.len()] == bytes);
    assert_eq!(rt; out[bytes.len()], 7);
    let mut short = [7; 64];
    assert!(rt; 0 < bytes.len());
    assert_eq!(rt; write(&mut short[0..bytes.len() - 1]), None);
    assert_eq!(rt; short, [7; 64]);
}

#[test]
fn lines_told(rt: HostRuntime) {
    for (bytes, fault) in LINES {
        match read_line(bytes) {
            Ok(line) => {
                assert_eq!(rt; fault, 0);
                assert_eq!(rt; line.len(), bytes.len());
                writes_back(&rt, |out: &mut [u8]| line.write(out), bytes);
            }
            Err(met) => assert_eq!(rt; u8::from(met), fault),
        }
    }
}

#[test]
fn wishes_told(rt: HostRuntime) {
    for (bytes, fault) in WISHES {
        match wish_of(bytes) {
            Ok(wish) => {
                assert_eq!(rt; fault, 0);
                assert_eq!(rt; wish.len(), bytes.len());
                writes_back(&rt, |out: &mut [u8]| wish.write(out), bytes);
            }
            Err(met) => assert_eq!(rt; u8::from(met), fault),
        }
    }
}

#[test]
fn rest_follows(rt: HostRuntime) -> Result<(), Fail> {
    let bytes = b"\x15\x03\x00\x09\x02\x58\x02\x03ada\x10\x00";
    let (raw, rest) = read_wish(bytes).ok_or("no wish")?;
    assert!(rt; rest == b"\x10\x00".as_slice());
    assert!(rt; raw.name == b"ada".as_slice());
    assert_eq!(rt;
        (raw.museum, raw.day, raw.minute, raw.persons),
        (3, 9, 600, 2)
    );
    Ok(())
}

#[test]
fn limits_hold(rt: HostRuntime) -> Result<(), Fail> {
    let wish = wish_of(WISH).ok().ok_or("no wish")?;
    for (bytes, holds) in LIMITS {
        let line = read_line(bytes).ok().ok_or("no line")?;
        assert!(rt; line.may_stand(Place::Ticket));
        assert!(rt; line.may_stand(Place::Yes));
        let Line::Limit(limit) = line else {
            return Err(Fail::new("no limit"));
        };
        assert_eq!(rt; limit.holds(wish), holds);
    }
    Ok(())
}

#[test]
fn an_else_stands_on_tickets(rt: HostRuntime) -> Result<(), Fail> {
    let line = read_line(b"\x06\x00\x05").ok().ok_or("no line")?;
    assert!(rt; line.may_stand(Place::Ticket));
    assert!(rt; !line.may_stand(Place::Yes));
    Ok(())
}
