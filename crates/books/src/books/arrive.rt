// The arrival of a request.
ghost use Rattle.books.specs.Model.{Meets, arrive_rule};
ghost use Rattle.books.specs.Views.{state_of};

use crate::books::Books;
use crate::guard::FlowGuard;
use crate::refusal::Refusal;
use lanes::records::Request;

// One load accepts so many arrivals.
const MOST: u32 = 16_777_216;

impl Books {
    // The ticket, with the start and the end tag. An unknown flow ends the call before lane or length is looked at. The refusals stand written out: with `ok_or` and `?` for the lane and the charge each call of a board took 8
    // instructions more, of some 230.
    pub fn arrive(
        &mut self,
        flow: u32,
        lane: u32,
        length: u32,
    ) -> Result<(u32, (u64, u64)), Refusal>
        ensures { Meets result (state_of self.new) (arrive_rule (state_of self.old) flow lane length) }
    {
        let Some(share) = self.sheet.flow(flow) else {
            return Err(Refusal::NoFlow);
        };
        let Some(capacity) = self.sheet.lane(lane) else {
            return Err(Refusal::NoLane);
        };
        let Some(charge) = share.charge(length) else {
            return Err(Refusal::BadLength);
        };
        let waiting = self.lanes.len(lane as usize);
        let mut guard = FlowGuard::new(&mut self.flows[flow as usize]);
        let (start, end) = guard.tag(self.time, charge);
        if waiting >= capacity as usize {
            return Err(Refusal::LaneFull);
        }
        if self.arrivals >= MOST {
            return Err(Refusal::NoTicket);
        }
        let ticket = self.arrivals;
        let request = Request {
            start,
            ticket,
            flow,
            sectors: length as u16,
            charge,
        };
        self.lanes.push(lane as usize, request);
        guard.confirm();
        self.arrivals = ticket + 1;
        self.time = self.lanes.least_start(self.time);
        Ok((ticket, (start, end)))
    }
}
