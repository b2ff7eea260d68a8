// What the books say.
ghost use Rattle.std.specs.Prelude.{◌≡◌, ◌+◌, ◌<◌, length, nat_lt};
ghost use Rattle.sheet.specs.Sheets.{content_of};
ghost use Rattle.lanes.specs.Lanes.{starts};
ghost use Rattle.books.specs.Model.{empty, flow_rule, lead_rule};
ghost use Rattle.books.specs.Views.{state_of};

use crate::books::Books;
use crate::flows::{FlowRecord, FlowState};
use crate::refusal::Refusal;
use lanes::lanes::Lanes;
use lanes::records::Request;
use lanes::table::InCard;
use sheet::shape::Sheet;

impl Books {
    // Empty books for a sheet.
    pub fn new(sheet: Sheet) -> Books
        ensures { state_of result ≡ empty (content_of sheet) }
    {
        Books {
            sheet,
            time: 0,
            flows: [FlowRecord::default(); 16],
            lanes: Lanes::new(),
            in_card: InCard::new(),
            arrivals: 0,
        }
    }

    pub fn has_lane(&self, lane: u32) -> bool
        ensures { result ≡ nat_lt lane (length (state_of self.now).sheet.lanes) }
    {
        self.sheet.lane(lane).is_some()
    }

    // The lead of a lane, where there is one.
    pub fn lead(&self, lane: u32) -> Result<Option<Request>, Refusal>
        ensures { result ≡ lead_rule (state_of self.now) lane }
    {
        self.sheet.lane(lane).ok_or(Refusal::NoLane)?;
        Ok(self.lanes.lead(lane as usize))
    }

    pub fn virtual_time(&self) -> u64
        ensures { result ≡ (state_of self.now).time }
    {
        self.time
    }

    // A request that starts later than this is throttled.
    pub fn reach(&self) -> u64
        ensures { result ≡ (state_of self.now).time + (state_of self.now).sheet.threshold }
    {
        self.time + self.sheet.threshold() as u64
    }

    pub fn in_card(&self) -> usize
        ensures { result ≡ length (state_of self.now).in_card }
    {
        self.in_card.len()
    }

    // Whether any request waits.
    pub fn waits(&self) -> bool
        ensures { result ≡ nat_lt 0 (length (starts (state_of self.now).lanes)) }
    {
        self.lanes.any()
    }

    // What a flow has: its share is the sheet's, and the rest the record's. An answer is told number by number, so a flow within it would be taken apart each time.
    pub fn flow(&self, flow: u32) -> Result<FlowState, Refusal>
        ensures { result ≡ flow_rule (state_of self.now) flow }
    {
        let share = self.sheet.flow(flow).ok_or(Refusal::NoFlow)?;
        let record = self.flows[flow as usize];
        Ok(FlowState {
            weight: share.weight,
            longest: share.longest,
            end: record.end,
            waiting: record.waiting,
            in_card: record.in_card,
        })
    }
}
