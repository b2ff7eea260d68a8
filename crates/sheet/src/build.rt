// Sheets are built up from a blank one. A number out of range is refused, and the sheet then stays as it was.
ghost use Rattle.std.specs.Prelude.{◌≡◌};
ghost use Rattle.sheet.specs.Sheets.{Becomes, blank, content_of, with_flow, with_lane, with_slots, with_threshold};

use crate::flow::Flow;
use crate::list::FixedList;
use crate::shape::Sheet;

// A number is not in its range, or a flow or lane is one too many.
#[derive(Clone, Copy, Debug, PartialEq, Eq)]
pub struct OutOfRange;

impl Sheet {
    /// No flows, no lanes, D 1 and T 0.
    pub fn new() -> Sheet
        ensures { content_of result ≡ blank }
    {
        Sheet {
            flows: FixedList::new(),
            lanes: FixedList::new(),
            slots: 1,
            threshold: 0,
        }
    }

    /// Adds a flow of that weight and longest request.
    pub fn push_flow(&mut self, weight: u64, longest: u64) -> Result<(), OutOfRange>
        ensures { Becomes result (with_flow (content_of self.old) weight longest) (content_of self.old) (content_of self.new) }
    {
        if !(1..=100).contains(&weight) || !(1..=2048).contains(&longest) {
            return Err(OutOfRange);
        }
        self.flows.push(Flow {
            weight: weight as u8,
            longest: longest as u16,
        })
    }

    /// Adds a lane in which so many requests may wait.
    pub fn push_lane(&mut self, capacity: u64) -> Result<(), OutOfRange>
        ensures { Becomes result (with_lane (content_of self.old) capacity) (content_of self.old) (content_of self.new) }
    {
        if !(1..=32).contains(&capacity) {
            return Err(OutOfRange);
        }
        self.lanes.push(capacity as u8)
    }

    /// Sets D.
    pub fn set_slots(&mut self, slots: u64) -> Result<(), OutOfRange>
        ensures { Becomes result (with_slots (content_of self.old) slots) (content_of self.old) (content_of self.new) }
    {
        if !(1..=32).contains(&slots) {
            return Err(OutOfRange);
        }
        self.slots = slots as u8;
        Ok(())
    }

    /// Sets T.
    pub fn set_threshold(&mut self, threshold: u64) -> Result<(), OutOfRange>
        ensures { Becomes result (with_threshold (content_of self.old) threshold) (content_of self.old) (content_of self.new) }
    {
        if threshold > 1_000_000_000 {
            return Err(OutOfRange);
        }
        self.threshold = threshold as u32;
        Ok(())
    }
}
