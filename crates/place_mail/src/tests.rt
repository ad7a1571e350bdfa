ghost use Rattle.std.specs.Prelude.{◌≡◌, ◌<◌, length, None};

use crate::{Mailboxes, Request};
use evidence_store::{EvId, Store};
use phrase_tree::NoMemory;
use std::test::Fail;

/// Posts a request to one of 64 places.
fn post(mail: &mut Mailboxes, place: u32, name: u32, evidence: EvId) -> Result<(), NoMemory>
    requires mail { length mail.old.requests ≡ 64 }
    requires place { place < 64 }
    ensures { length mail.new.requests ≡ 64 }
{
    match mail.post(place, Request { name, evidence }) {
        Ok(()) => Ok(()),
        Err(_) => Err(NoMemory),
    }
}

/// Whether the first request at one of 64 places, which is taken, has this name.
fn took(mail: &mut Mailboxes, place: u32, name: u32) -> bool
    requires mail { length mail.old.requests ≡ 64 }
    requires place { place < 64 }
    ensures { length mail.new.requests ≡ 64 }
{
    match mail.take_front(place) {
        Some(request) => request.name == name,
        None => false,
    }
}

/// Posts as many requests to one place after another in turn.
fn fill(mail: &mut Mailboxes, count: u32, evidence: EvId) -> Result<(), NoMemory>
    requires { length mail.old.requests ≡ 64 }
    ensures { length mail.new.requests ≡ 64 }
{
    for name in 0..count {
        match post(mail, name % 64, name, evidence) {
            Ok(()) => {}
            Err(_) => return Err(NoMemory),
        }
    }
    Ok(())
}

/// Whether the requests of these numbers come out, each first at its place.
fn took_all(mail: &mut Mailboxes, from: u32, to: u32) -> bool
    requires { length mail.old.requests ≡ 64 }
    ensures { length mail.new.requests ≡ 64 }
{
    for name in from..to {
        if !took(mail, name % 64, name) {
            return false;
        }
    }
    true
}

fn is_empty(mail: &Mailboxes) -> bool
    requires { length mail.now.requests ≡ 64 }
{
    (0..64).all(|place| mail.front(place).is_none())
}

fn reply(mail: &mut Mailboxes, name: u32, evidence: EvId) -> Result<(), NoMemory> {
    if mail.reply(name).is_some() {
        return Ok(());
    }
    mail.answer(name, evidence)
}

#[test]
fn the_first_request_at_a_place_is_the_first_out(rt: HostRuntime) -> Result<(), Fail> {
    let mut store = Store::open(rt.alloc(), 1)?;
    let evidence = store.empty()?;
    let mut mail = Mailboxes::open(rt.alloc(), 64, 2048)?;
    fill(&mut mail, 2048, evidence)?;
    assert_eq!(rt; mail.front(63).map(|request| request.name), Some(63));
    assert!(rt; took(&mut mail, 0, 0));
    assert!(rt; took(&mut mail, 1, 1));
    post(&mut mail, 0, 5000, evidence)?;
    assert!(rt; took_all(&mut mail, 2, 2048));
    assert!(rt; took(&mut mail, 0, 5000));
    assert!(rt; is_empty(&mail));
    post(&mut mail, 7, 1, evidence)?;
    assert!(rt; took(&mut mail, 7, 1));
    Ok(())
}

#[test]
fn mail_opened_without_room_takes_it_as_it_goes(rt: HostRuntime) -> Result<(), Fail> {
    let mut store = Store::open(rt.alloc(), 1)?;
    let evidence = store.empty()?;
    let mut mail = Mailboxes::open(rt.alloc(), 64, 0)?;
    fill(&mut mail, 100, evidence)?;
    assert!(rt; took_all(&mut mail, 0, 100));
    assert!(rt; is_empty(&mail));
    reply(&mut mail, 9, evidence)?;
    assert_eq!(rt; mail.take_reply(9), Some(evidence));
    Ok(())
}

#[test]
fn a_reply_is_taken_once(rt: HostRuntime) -> Result<(), Fail> {
    let mut store = Store::open(rt.alloc(), 2)?;
    let first = store.empty()?;
    let second = store.empty()?;
    let mut mail = Mailboxes::open(rt.alloc(), 1, 3)?;
    reply(&mut mail, 9, first)?;
    reply(&mut mail, 2, second)?;
    reply(&mut mail, 4294967295, first)?;
    assert_eq!(rt; mail.reply(2), Some(second));
    assert_eq!(rt; mail.take_reply(9), Some(first));
    assert_eq!(rt; mail.take_reply(9), None);
    assert_eq!(rt; mail.take_reply(3), None);
    assert_eq!(rt; mail.take_reply(4294967295), Some(first));
    assert_eq!(rt; mail.take_reply(2), Some(second));
    Ok(())
}
