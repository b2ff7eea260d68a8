// A share sheet: which flows and lanes there are, each flow's share of the card, each lane's room, and the two parameters D and T.
#![tactic(auto)]

pub mod build;
pub mod flow;
pub mod list;
pub mod looks;
pub mod same;
pub mod shape;

#[cfg(test)]
mod tests {
    use crate::build::OutOfRange;
    use crate::flow::Flow;
    use crate::shape::Sheet;
    use std::test::Fail;

    #[test]
    fn builds_a_sheet(rt: HostRuntime) -> Result<(), Fail> {
        let mut sheet = Sheet::new();
        sheet.push_flow(50, 64)?;
        sheet.push_lane(4)?;
        sheet.set_slots(32)?;
        sheet.set_threshold(1_000_000_000)?;
        assert_eq!(rt; sheet.flow_count(), 1);
        assert_eq!(rt; sheet.lane_count(), 1);
        assert_eq!(rt;
            sheet.flow(0),
            Some(Flow {
                weight: 50,
                longest: 64,
            })
        );
        assert_eq!(rt; sheet.flow(1), None);
        assert_eq!(rt; sheet.lane(0), Some(4));
        assert_eq!(rt; sheet.lane(1), None);
        assert_eq!(rt; sheet.slots(), 32);
        assert_eq!(rt; sheet.threshold(), 1_000_000_000);
        Ok(())
    }

    #[test]
    fn refuses_what_is_out_of_range(rt: HostRuntime) -> Result<(), Fail> {
        let mut sheet = Sheet::new();
        assert_eq!(rt; sheet.push_flow(101, 64), Err(OutOfRange));
        assert_eq!(rt; sheet.push_flow(100, 2049), Err(OutOfRange));
        assert_eq!(rt; sheet.push_lane(33), Err(OutOfRange));
        assert_eq!(rt; sheet.set_slots(0), Err(OutOfRange));
        assert_eq!(rt; sheet.set_threshold(1_000_000_001), Err(OutOfRange));
        assert!(rt; sheet == Sheet::new());
        sheet.push_flow(100, 2048)?;
        assert!(rt; sheet != Sheet::new());
        Ok(())
    }

    #[test]
    fn charges_a_flow(rt: HostRuntime) {
        let flow = Flow {
            weight: 50,
            longest: 64,
        };
        assert_eq!(rt; flow.charge(5), Some(84));
        assert_eq!(rt; flow.charge(64), Some(1076));
        assert_eq!(rt; flow.charge(0), None);
        assert_eq!(rt; flow.charge(65), None);
    }
}
