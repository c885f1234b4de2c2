use super::tables::{BOOKS, THREE, TWO};
use book::{AddError, Book, read_book};
use hmac::Mac;
use lines::KeyNumber;
use showing::Unread;
use std::alloc::Global;
use std::process::Abort;
use std::test::Fail;
use tickets::YesKey;

// What is told of bytes: 0 if they are a book that is written as just these, else the number of the fault.
fn told(rt: &impl Abort, heap: Global, bytes: &[u8]) -> Result<u8, Fail> {
    match read_book(heap, bytes) {
        Ok(book) => {
            assert!(rt; book.to_bytes(heap)?.as_slice() == bytes);
            Ok(0)
        }
        Err(Unread::Unreadable(fault)) => Ok(u8::from(fault)),
        Err(Unread::NoMemory) => Err(Fail::new("no memory")),
    }
}

fn two_keys(heap: Global) -> Result<Book, Fail> {
    read_book(heap, TWO).map_err(|_| Fail::new("no book"))
}

fn secret(book: &Book, number: u16) -> Result<Option<[u8; 32]>, Fail> {
    let number = KeyNumber::new(number).ok_or_else(|| Fail::new("no number"))?;
    Ok(book.secret(number).map(Mac::bytes))
}

fn key(number: u16, letter: u8) -> Result<YesKey, Fail> {
    let number = KeyNumber::new(number).ok_or_else(|| Fail::new("no number"))?;
    Ok(YesKey {
        number,
        secret: Mac::new([letter; 32]),
    })
}

#[test]
fn books_told(rt: HostRuntime) -> Result<(), Fail> {
    for (bytes, fault) in BOOKS {
        assert_eq!(rt; told(&rt, rt.alloc(), bytes)?, fault);
    }
    Ok(())
}

#[test]
fn cut_anywhere(rt: HostRuntime) -> Result<(), Fail> {
    assert_eq!(rt; told(&rt, rt.alloc(), TWO)?, 0);
    for end in 0..TWO.len() {
        assert_eq!(rt; told(&rt, rt.alloc(), &TWO[..end])?, 1);
    }
    Ok(())
}

#[test]
fn found_by_number(rt: HostRuntime) -> Result<(), Fail> {
    let book = two_keys(rt.alloc())?;
    assert_eq!(rt; book.house().bytes(), [b'h'; 32]);
    let cases = [
        (4095, Some([b'a'; 32])),
        (5, Some([b'b'; 32])),
        (0, None),
        (4, None),
        (6, None),
        (4094, None),
    ];
    for (number, expected) in cases {
        assert_eq!(rt; secret(&book, number)?, expected);
    }
    Ok(())
}

#[test]
fn added_at_the_end(rt: HostRuntime) -> Result<(), Fail> {
    let heap = rt.alloc();
    let mut book = two_keys(heap)?;
    for number in [5, 4095] {
        assert_eq!(rt; book.add(key(number, b'c')?), Err(AddError::Taken));
        assert!(rt; book.to_bytes(heap)?.as_slice() == TWO);
    }
    assert_eq!(rt; secret(&book, 5)?, Some([b'b'; 32]));
    assert_eq!(rt; book.add(key(6, b'c')?), Ok(()));
    assert_eq!(rt; secret(&book, 6)?, Some([b'c'; 32]));
    assert_eq!(rt; secret(&book, 5)?, Some([b'b'; 32]));
    assert!(rt; book.to_bytes(heap)?.as_slice() == THREE);
    Ok(())
}

#[test]
fn a_new_book(rt: HostRuntime) -> Result<(), Fail> {
    let heap = rt.alloc();
    let mut book = Book::new(heap, Mac::new([b'h'; 32]));
    assert_eq!(rt; secret(&book, 0)?, None);
    for (number, letter) in [(4095, b'a'), (5, b'b'), (6, b'c')] {
        assert_eq!(rt; book.add(key(number, letter)?), Ok(()));
    }
    assert!(rt; book.to_bytes(heap)?.as_slice() == THREE);
    Ok(())
}
