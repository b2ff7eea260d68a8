// The cards for tests.
use crate::command;
use card::Card;
use cards_for_tests::late::LateCard;
use cards_for_tests::newest::NewestCard;

#[test]
fn newest_first_and_late(rt: HostRuntime) {
    let mut card = LateCard::new(NewestCard::new(), 2);
    assert_eq!(rt; card.submit(command(300, 1)), Ok(()));
    assert_eq!(rt; card.submit(command(301, 1)), Ok(()));
    assert_eq!(rt; card.finish(), None);
    assert_eq!(rt; card.finish(), None);
    // The status is the ticket's lowest byte.
    assert_eq!(rt; card.finish(), Some((301, 45)));
    assert_eq!(rt; card.finish(), None);
    assert_eq!(rt; card.count(), 1);
    assert_eq!(rt; card.finish(), None);
    assert_eq!(rt; card.finish(), Some((300, 44)));
}
