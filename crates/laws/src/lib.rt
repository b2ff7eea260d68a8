// The rules of the board keep the step relation of which the law of fair shares is proved, and what else they come to in the subject's own words.
#![tactic(auto)]

ghost use Rattle.laws.specs.Steps.{ArrivalsStep, BooksFair, KicksHand, KicksStep, LoadsStep, ReapsStep, SendsStep, TimeIsLeast};

/// An arrival that is accepted starts at the greater of virtual time and its flow's end tag, and joins those that wait; one that is refused changes nothing.
pub fn arrivals_step()
    ensures { ArrivalsStep }
{}

/// A send moves a request that is not throttled from those that wait into the card, where a slot is free, or changes nothing.
pub fn sends_step()
    ensures { SendsStep }
{}

/// A kick does the same.
pub fn kicks_step()
    ensures { KicksStep }
{}

/// A reap takes one request out of the card, or changes nothing.
pub fn reaps_step()
    ensures { ReapsStep }
{}

/// A load that is accepted empties the books, in which nothing was; one that is refused changes nothing.
pub fn loads_step()
    ensures { LoadsStep }
{}

/// Every board's sheet is in range, and its lanes are in order.
pub fn books_fair()
    ensures { BooksFair }
{}

/// A kick hands a lead to the card whenever a request waits and a slot is free.
pub fn kicks_hand()
    ensures { KicksHand }
{}

/// Virtual time is the least start tag among all that wait.
pub fn time_is_least()
    ensures { TimeIsLeast }
{}
