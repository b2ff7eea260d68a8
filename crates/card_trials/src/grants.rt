// Slots: taken, given back, spent and freed.
use card::{Card, CardFault, Command};
use queue::QueueCard;
use slots::{Grant, Slots, hand_over};
use std::test::Fail;

fn granted(slots: &mut Slots) -> Result<Grant, Fail> {
    slots.take().ok_or_else(|| Fail::new("all slots are out"))
}

fn check_all_out(slots: &mut Slots) -> Result<(), Fail> {
    match slots.take() {
        Some(grant) => {
            grant.give_back(slots);
            Err(Fail::new("a slot was free"))
        }
        None => Ok(()),
    }
}

#[test]
fn as_many_as_slots() -> Result<(), Fail> {
    let mut slots = Slots::new(2);
    let first = granted(&mut slots)?;
    first.spend(&mut slots);
    let second = granted(&mut slots)?;
    second.give_back(&mut slots);
    // One is spent, none is held: one more can be taken, and not two.
    let third = granted(&mut slots)?;
    third.spend(&mut slots);
    check_all_out(&mut slots)?;
    slots.free();
    let fourth = granted(&mut slots)?;
    fourth.spend(&mut slots);
    check_all_out(&mut slots)?;
    slots.free();
    slots.free();
    // None is out: nothing changes.
    slots.free();
    let fifth = granted(&mut slots)?;
    fifth.spend(&mut slots);
    let sixth = granted(&mut slots)?;
    sixth.spend(&mut slots);
    check_all_out(&mut slots)
}

#[test]
fn refused_by_the_card(rt: HostRuntime) -> Result<(), Fail> {
    let mut slots = Slots::new(2);
    let mut card = QueueCard::new();
    let command = Command {
        ticket: 5,
        sectors: 8,
    };
    let first = granted(&mut slots)?;
    assert_eq!(rt; hand_over(&mut card, &mut slots, first, command), Ok(()));
    let second = granted(&mut slots)?;
    assert_eq!(rt;
        hand_over(&mut card, &mut slots, second, command),
        Err(CardFault::HeldAlready)
    );
    // The grant came back, so one slot is free, and not two.
    let third = granted(&mut slots)?;
    third.spend(&mut slots);
    check_all_out(&mut slots)?;
    assert_eq!(rt; card.finish(), Some((5, 0)));
    Ok(())
}
