// The bank card: bank ticket mod 4, one piece of work for each 64 sectors, the lowest bank first.
use crate::command;
use bank::BankCard;
use card::{Card, CardFault, drain};

// Bank 0 has tickets 0 (two pieces) and 4 (one), bank 1 has ticket 1 (one).
#[test]
fn work_of_the_oldest(rt: HostRuntime) {
    let mut card = BankCard::new();
    assert_eq!(rt; card.submit(command(0, 65)), Ok(()));
    assert_eq!(rt; card.submit(command(4, 1)), Ok(()));
    assert_eq!(rt; card.submit(command(1, 64)), Ok(()));
    // Left: 0 has 1, 1 has 0.
    assert_eq!(rt; card.finish(), Some((1, 0)));
    // Left: 0 has 0; 4 has not begun.
    assert_eq!(rt; card.finish(), Some((0, 0)));
    assert_eq!(rt; card.count(), 1);
    assert_eq!(rt; card.finish(), Some((4, 0)));
    assert_eq!(rt; card.finish(), None);
}

#[test]
fn lowest_bank_first(rt: HostRuntime) {
    let mut card = BankCard::new();
    assert_eq!(rt; card.submit(command(3, 64)), Ok(()));
    assert_eq!(rt; card.submit(command(6, 64)), Ok(()));
    assert_eq!(rt; card.submit(command(5, 128)), Ok(()));
    // No work at all, in bank 3 behind ticket 3.
    assert_eq!(rt; card.submit(command(7, 0)), Ok(()));
    // Banks 1, 2, 3 have 1, 0, 0 left.
    assert_eq!(rt; card.finish(), Some((6, 0)));
    // Bank 1 comes to 0.
    assert_eq!(rt; card.finish(), Some((5, 0)));
    assert_eq!(rt; card.finish(), Some((3, 0)));
    assert_eq!(rt; card.finish(), Some((7, 0)));
    assert_eq!(rt; card.finish(), None);
}

// 65,535 sectors are 1,024 pieces of work.
#[test]
fn longest_command(rt: HostRuntime) {
    let mut card = BankCard::new();
    assert_eq!(rt; card.submit(command(2, 65535)), Ok(()));
    assert_eq!(rt; drain(&mut card, 1023), 0);
    assert_eq!(rt; card.finish(), Some((2, 0)));
    assert_eq!(rt; card.submit(command(2, 129)), Ok(()));
    assert_eq!(rt; drain(&mut card, 2), 0);
    assert_eq!(rt; card.finish(), Some((2, 0)));
}

#[test]
fn full_is_asked_first(rt: HostRuntime) {
    let mut card = BankCard::new();
    // All of them in bank 1.
    for i in 0..32 {
        assert_eq!(rt; card.submit(command(4 * i + 1, 1)), Ok(()));
    }
    assert_eq!(rt; card.count(), <BankCard as Card>::DEPTH);
    assert_eq!(rt; card.submit(command(1, 1)), Err(CardFault::Full));
    assert_eq!(rt; card.finish(), Some((1, 0)));
    assert_eq!(rt; card.submit(command(125, 1)), Err(CardFault::HeldAlready));
    assert_eq!(rt; card.submit(command(126, 1)), Ok(()));
    assert_eq!(rt; drain(&mut card, 40), 32);
    assert_eq!(rt; card.count(), 0);
}
