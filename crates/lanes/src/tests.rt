ghost use Rattle.std.specs.Prelude.{[], ◌∷◌, nat_le};
ghost use Rattle.std.proofs.Common.{rules};

use crate::lanes::Lanes;
use crate::records::{Lead, Request};
use crate::table::InCard;
use heap::heap::Heap;
use heap::order::{ByOrd, TotalOrder};
use std::process::Abort;
use std::test::Fail;

fn request(start: u64, ticket: u32) -> Request {
    Request {
        start,
        ticket,
        flow: 3,
        sectors: 5,
        charge: 84,
    }
}

// Fills a heap, with few different keys, and tells the sum of the start tags.
fn fill(rt: &impl Abort, items: &mut [Request], len: &mut usize, many: u32) -> u64 {
    let mut sum: u64 = 0;
    for k in 0..many {
        let r = request((k as u64 * 37) % 8, k % 3);
        sum = sum.wrapping_add(r.start);
        assert!(rt; Heap::new(items, len).push(r));
    }
    assert!(rt; !Heap::new(items, len).push(request(0, 0)));
    sum
}

// Drains it in order, and tells the same sum.
fn drain(rt: &impl Abort, items: &mut [Request], len: &mut usize, many: u32) -> Result<u64, Fail> {
    let mut sum: u64 = 0;
    let mut before = request(0, 0);
    for _ in 0..many {
        let seen = Heap::new(items, len).peek().ok_or("nothing to see")?;
        let r = Heap::new(items, len).pop().ok_or("empty")?;
        assert!(rt; before.at_or_before(&r));
        assert!(rt; seen.start == r.start && seen.ticket == r.ticket);
        sum = sum.wrapping_add(r.start);
        before = r;
    }
    assert!(rt; Heap::new(items, len).pop().is_none());
    Ok(sum)
}

#[test]
fn three_hundred_with_equal_keys(rt: HostRuntime) -> Result<(), Fail> {
    let mut items = [request(9, 9); 300];
    let mut len = 0;
    let pushed = fill(&rt, &mut items, &mut len, 300);
    assert_eq!(rt; pushed, 1050);
    assert_eq!(rt; drain(&rt, &mut items, &mut len, 300)?, pushed);
    Ok(())
}

// Takes each lead out of the middle of the heap, or puts another in for it.
fn change(rt: &impl Abort, items: &mut [Lead], len: &mut usize) -> Result<(), Fail> {
    for start in [5, 2, 9, 2, 7, 4, 8] {
        assert!(rt; Heap::new(items, len).push(Lead { start, lane: 1 }));
    }
    let old = Heap::new(items, len)
        .replace(3, Lead { start: 1, lane: 6 })
        .ok_or("no place 3")?;
    assert!(rt; old.lane == 1);
    let gone = Heap::new(items, len).remove(2).ok_or("no place 2")?;
    assert!(rt; Heap::new(items, len).remove(6).is_none());
    assert!(rt; Heap::new(items, len).replace(6, gone).is_none());
    let mut sum = old.start.wrapping_add(gone.start);
    let mut before = 0;
    for _ in 0..6 {
        let lead = Heap::new(items, len).pop().ok_or("empty")?;
        assert!(rt; before <= lead.start);
        before = lead.start;
        sum = sum.wrapping_add(lead.start);
    }
    assert_eq!(rt; sum, 38);
    assert_eq!(rt; Heap::new(items, len).len(), 0);
    Ok(())
}

#[test]
fn replace_and_remove(rt: HostRuntime) -> Result<(), Fail> {
    let mut items = [Lead { start: 0, lane: 0 }; 7];
    let mut len = 0;
    change(&rt, &mut items, &mut len)
}

#[test]
fn leads_of_eight_lanes(rt: HostRuntime) -> Result<(), Fail> {
    let mut lanes = Lanes::new();
    assert_eq!(rt; lanes.least_start(77), 77);
    // lane, start tag, and the least start tag then
    for (lane, start, least) in [
        (5, 40, 40),
        (2, 60, 40),
        (5, 30, 30),
        (7, 30, 30),
        (2, 10, 10),
        (5, 50, 10),
    ] {
        assert!(rt; lanes.push(lane, request(start, 1)));
        assert_eq!(rt; lanes.least_start(77), least);
    }
    assert!(rt; !lanes.push(8, request(0, 1)));
    assert!(rt; lanes.pop(8).is_none() && lanes.pop(0).is_none());
    assert_eq!(rt; lanes.len(5), 3);
    // lane, the start tag that leaves it, and the least start tag then
    for (lane, start, least) in [
        (5, 30, 10),
        (2, 10, 30),
        (7, 30, 40),
        (2, 60, 40),
        (5, 40, 50),
        (5, 50, 77),
    ] {
        assert_eq!(rt; lanes.pop(lane).ok_or("empty")?.start, start);
        assert_eq!(rt; lanes.least_start(77), least);
    }
    assert!(rt; !lanes.any());
    Ok(())
}

#[test]
fn in_the_card_by_ticket(rt: HostRuntime) -> Result<(), Fail> {
    let mut table = InCard::new();
    for ticket in 0..32u32 {
        assert!(rt; table.push(request(0, ticket)));
    }
    assert!(rt; !table.push(request(0, 32)));
    assert_eq!(rt; table.remove(9).ok_or("not there")?.ticket, 9);
    assert!(rt; table.remove(9).is_none());
    assert_eq!(rt; table.remove(31).ok_or("not there")?.ticket, 31);
    assert_eq!(rt; table.len(), 30);
    Ok(())
}

// A record of which `==` tells more than the order.
#[derive(Clone, Copy, PartialEq, Eq)]
struct Job {
    priority: u32,
    id: u32,
}

impl TotalOrder for Job {
    ghost key = { λ job. job.priority ∷ [] };

    ghost upto = { λ x y. nat_le x.priority y.priority };

    ghost total = { Prim.search rules };

    ghost antisymmetric = { Prim.search rules };

    ghost transitive = { Prim.search rules };

    fn at_or_before(&self, other: &Job) -> bool {
        self.priority <= other.priority
    }
}

#[test]
fn alike_and_yet_not_equal(rt: HostRuntime) -> Result<(), Fail> {
    let mut items = [Job { priority: 0, id: 0 }; 3];
    let mut len = 0;
    for (priority, id) in [(2, 1), (1, 2), (1, 4)] {
        assert!(rt; Heap::new(&mut items, &mut len).push(Job { priority, id }));
    }
    let first = Heap::new(&mut items, &mut len).pop().ok_or("empty")?;
    let second = Heap::new(&mut items, &mut len).pop().ok_or("empty")?;
    assert!(rt; first != second);
    assert_eq!(rt; first.priority, 1);
    assert_eq!(rt; second.priority, 1);
    Ok(())
}

#[test]
fn numbers_by_their_own_order(rt: HostRuntime) -> Result<(), Fail> {
    let mut items = [ByOrd(0u64); 3];
    let mut len = 0;
    for number in [7, 3, 5] {
        assert!(rt; Heap::new(&mut items, &mut len).push(ByOrd(number)));
    }
    for number in [3, 5, 7] {
        let least = Heap::new(&mut items, &mut len).pop().ok_or("empty")?;
        assert_eq!(rt; least.0, number);
    }
    Ok(())
}
