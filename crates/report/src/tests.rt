// The lines that no rehearsal meets: a new card refuses nothing that a board sends, and finishes nothing else.
use crate::answer::put_answer;
use books::refusal::Refusal;
use card::CardFault;
use fly::call::Answer;
use std::process::Abort;
use std::test::Fail;

fn is_line(rt: &(impl Abort + AllocGlobal), refusal: Refusal, line: &[u8]) -> Result<(), Fail> {
    let mut out = Vec::new(rt.alloc());
    put_answer(&mut out, Answer::Moved(Err(refusal)))?;
    assert!(rt; out.as_slice() == line);
    Ok(())
}

#[test]
fn rare_refusals(rt: HostRuntime) -> Result<(), Fail> {
    is_line(&rt, Refusal::NoTicket, b"refused 12\n")?;
    is_line(&rt, Refusal::ByCard(CardFault::Full), b"refused 13 full\n")?;
    is_line(
        &rt,
        Refusal::ByCard(CardFault::HeldAlready),
        b"refused 13 held already\n",
    )?;
    is_line(
        &rt,
        Refusal::Stray(4_294_967_295),
        b"refused 14 4294967295\n",
    )
}
