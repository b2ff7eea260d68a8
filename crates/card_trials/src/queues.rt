// The queue card: first in, first out, 16 at most.
use crate::command;
use card::{Card, CardFault};
use queue::QueueCard;

#[test]
fn oldest_first(rt: HostRuntime) {
    let mut card = QueueCard::new();
    assert_eq!(rt; card.finish(), None);
    assert_eq!(rt; card.submit(command(7, 5)), Ok(()));
    assert_eq!(rt; card.submit(command(9, 65535)), Ok(()));
    assert_eq!(rt; card.submit(command(7, 1)), Err(CardFault::HeldAlready));
    assert_eq!(rt; card.count(), 2);
    assert_eq!(rt; card.finish(), Some((7, 0)));
    // Ticket 7 may come again.
    assert_eq!(rt; card.submit(command(7, 0)), Ok(()));
    assert_eq!(rt; card.finish(), Some((9, 0)));
    assert_eq!(rt; card.finish(), Some((7, 0)));
    assert_eq!(rt; card.finish(), None);
    assert_eq!(rt; card.count(), 0);
}

#[test]
fn full_is_asked_first(rt: HostRuntime) {
    let mut card = QueueCard::new();
    for ticket in 0..16 {
        assert_eq!(rt; card.submit(command(ticket, 1)), Ok(()));
    }
    assert_eq!(rt; card.count(), <QueueCard as Card>::DEPTH);
    assert_eq!(rt; card.submit(command(16, 1)), Err(CardFault::Full));
    assert_eq!(rt; card.submit(command(3, 1)), Err(CardFault::Full));
    assert_eq!(rt; card.finish(), Some((0, 0)));
    assert_eq!(rt; card.submit(command(3, 1)), Err(CardFault::HeldAlready));
    assert_eq!(rt; card.submit(command(0, 1)), Ok(()));
    assert_eq!(rt; card.submit(command(17, 1)), Err(CardFault::Full));
}

// More commands than places pass through, with five of them held at a time.
#[test]
fn round_the_places(rt: HostRuntime) {
    let mut card = QueueCard::new();
    for ticket in 0..5 {
        assert_eq!(rt; card.submit(command(ticket, 1)), Ok(()));
    }
    for ticket in 5..60 {
        assert_eq!(rt; card.submit(command(ticket, 1)), Ok(()));
        assert_eq!(rt;
            card.submit(command(ticket - 5, 1)),
            Err(CardFault::HeldAlready)
        );
        assert_eq!(rt; card.finish(), Some((ticket - 5, 0)));
        assert_eq!(rt; card.count(), 5);
    }
    assert_eq!(rt; card.finish(), Some((55, 0)));
}
