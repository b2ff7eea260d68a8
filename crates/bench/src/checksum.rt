// The checksum of answers.
use board::answer::{Reaping, Sending};
use books::refusal::Refusal;

// The checksum with one more word.
pub(crate) fn add(sum: u64, word: u64) -> u64 {
    (sum.rotate_left(5) ^ word).wrapping_mul(0x0100_0000_01b3)
}

// The checksum is defined on these numbers, so the word of each answer begins with its own.
fn word(code: u64, a: u64, b: u64, c: u64) -> u64 {
    code.wrapping_add(a.wrapping_mul(0x9e37_79b9_7f4a_7c15))
        .wrapping_add(b.wrapping_mul(0xc2b2_ae3d_27d4_eb4f))
        .wrapping_add(c.wrapping_mul(0x1656_67b1_9e37_79f9))
}

fn refused(refusal: Refusal) -> u64 {
    let ticket = match refusal {
        Refusal::Stray(ticket) => ticket,
        _ => 0,
    };
    word(
        u64::from(refusal.number()).wrapping_add(100),
        u64::from(ticket),
        0,
        0,
    )
}

pub(crate) fn arrived(answer: Result<(u32, (u64, u64)), Refusal>) -> u64 {
    match answer {
        Ok((ticket, (start, end))) => word(1, u64::from(ticket), start, end),
        Err(refusal) => refused(refusal),
    }
}

pub(crate) fn moved(answer: Result<Sending, Refusal>) -> u64 {
    match answer {
        Ok(Sending::Empty) => word(2, 0, 0, 0),
        Ok(Sending::Throttled(excess)) => word(3, excess, 0, 0),
        Ok(Sending::NoSlot) => word(4, 0, 0, 0),
        Ok(
            Sending::Sent {
                ticket,
                flow,
                charge,
            },
        ) => word(5, u64::from(ticket), u64::from(flow), u64::from(charge)),
        Err(refusal) => refused(refusal),
    }
}

pub(crate) fn reaped(answer: Result<Reaping, Refusal>) -> u64 {
    match answer {
        Ok(
            Reaping::Finished {
                ticket,
                flow,
                charge,
                status,
            },
        ) => {
            let last = (u64::from(charge) << 8) | u64::from(status);
            word(6, u64::from(ticket), u64::from(flow), last)
        }
        Ok(Reaping::NotYet) => word(7, 0, 0, 0),
        Ok(Reaping::Idle) => word(8, 0, 0, 0),
        Err(refusal) => refused(refusal),
    }
}
