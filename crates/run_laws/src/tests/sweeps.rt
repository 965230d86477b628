//! Tests of what a sweep accepts and refuses, of how many bytes are read at a time, and of a store's copy.
ghost use Rattle.std.specs.Prelude.{◌<◌, ◌≤◌};

use super::*;
use byte_io::{FromBytes, ReadError, Source};
use fact_store::{Context, Report, Store};
use record_file::absorb_by;
use smp_bytes::Generation;
use sweep::{Answer, Sweep, SweepFault};

/// Starts a sweep by port 1. Its first request has the number `first`.
fn start(alloc: Global, first: u32) -> Option<Sweep> {
    let generation = Generation::new(1)?;
    Sweep::start(alloc, PortNum::new(1), generation, first, false).ok()
}

/// Returns the NodeInfo of a switch with ten ports.
fn ten_ports() -> [u8; 64] {
    let mut data = [0; 64];
    data[2] = 2; // a switch
    data[3] = 10; // ports
    data[19] = 0x10;
    data[27] = 0x10;
    data
}

/// Returns whether a reply was accepted, and is about the node at which the sweep began.
fn is_of_start(answered: Result<Answer, SweepFault>) -> bool {
    match answered {
        Ok(Answer::Facts(Report { context, .. })) => context == Context::Start,
        Ok(Answer::Seen(..)) | Err(_) => false,
    }
}

/// Returns whether a reply was refused for `fault`.
fn is_refused(answered: Result<Answer, SweepFault>, fault: SweepFault) -> bool {
    match answered {
        Ok(_) => false,
        Err(why) => why == fault,
    }
}

/// Returns whether a reply is accepted at first, and refused after ten more requests.
fn takes_once(alloc: Global) -> Option<bool> {
    let mut sweep = start(alloc, 1)?;
    let reply = sweep.next_request()?.answer(DONE, &ten_ports());
    let is_taken = is_of_start(sweep.on_reply(reply.bytes()));
    for _ in 0..10 {
        sweep.next_request()?;
    }
    Some(is_taken && is_refused(sweep.on_reply(reply.bytes()), SweepFault::NotOutstanding))
}

/// Returns whether the reply to the request with the greatest number is refused, since it needs more requests.
fn spends(alloc: Global) -> Option<bool> {
    let mut sweep = start(alloc, u32::MAX)?;
    let reply = sweep.next_request()?.answer(DONE, &ten_ports());
    Some(is_refused(sweep.on_reply(reply.bytes()), SweepFault::SequenceSpent))
}

#[test]
fn replies_are_taken_once(rt: HostRuntime) {
    assert!(rt; takes_once(rt.alloc()) == Some(true));
}

#[test]
fn numbers_are_spent(rt: HostRuntime) {
    assert!(rt; spends(rt.alloc()) == Some(true));
}

/// A source that fails if it is asked for more than `most` bytes at a time.
#[derive(Drop)]
struct AtMost<'b> {
    bytes: FromBytes<'b>,
    most: usize,
    has_failed: bool,
}

impl<'b> Source for AtMost<'b> {
    ghost use Rattle.std.specs.Prelude.{Some};

    ghost state = { λ s. record { left = Some s.bytes; has_failed = s.has_failed; interruptions = 0 } };

    fn read(&mut self, room: &mut [u8]) -> Result<usize, ReadError> {
        if self.has_failed || room.len() > self.most {
            self.has_failed = true;
            return Err(ReadError::Failed);
        }
        self.bytes.read(room)
    }
}

/// Returns a file with one report of the first reply to a sweep.
fn file(alloc: Global) -> Option<[u8; 280]> {
    let reply = start(alloc, 1)?.next_request()?.answer(DONE, &ten_ports());
    let mut bytes = [0; 280];
    bytes[..8].copy_from_slice(b"IBSMREP1");
    bytes[11] = 1; // the generation
    bytes[24..].copy_from_slice(reply.bytes());
    Some(bytes)
}

/// Returns the number of facts that are read from a file by at most `N` bytes at a time, and the number of facts of a
/// copy of the store.
fn told<const N: usize>(alloc: Global) -> Option<(usize, usize)>
    requires some { 0 < N }
    requires most { N ≤ 4096 }
{
    let file = file(alloc)?;
    let mut source = AtMost {
        bytes: FromBytes::new(&file),
        most: N,
        has_failed: false,
    };
    let mut store = Store::new(alloc);
    absorb_by::<N, AtMost<'_>>(&mut source, &mut store).ok()?;
    let copy = store.try_clone().ok()?;
    Some((store.count(), copy.count()))
}

#[test]
fn no_more_is_asked_for(rt: HostRuntime) {
    let alloc = rt.alloc();
    for told in [
        told::<1>(alloc),
        told::<7>(alloc),
        told::<271>(alloc),
        told::<272>(alloc),
        told::<273>(alloc),
    ] {
        assert!(rt; told == Some((2, 2)));
    }
}
