// Advancing the phase.
use crate::asking::{book_fields, by_phase};
use crate::samples::{VENUE, busy_book};
use book::requests::Request;
use orders::Phase;
use std::test::Fail;

// The answer is the new phase.
#[test]
fn two_advances_lead_into_the_freeze_and_none_leads_out(rt: HostRuntime) -> Result<(), Fail> {
    let mut book = busy_book()?;
    by_phase(
        &rt,
        &book,
        Request::Advance,
        [Ok(1), Ok(2), Err(16), Err(16)],
    )?;
    assert_eq!(rt; book.advance(&VENUE)?, Phase::Imbalance);
    assert_eq!(rt; book.advance(&VENUE)?, Phase::Freeze);
    assert_eq!(rt; book.phase(), Phase::Freeze);
    assert_eq!(rt; book_fields(&book), [7, 8, 100_000, 100_000]);
    Ok(())
}
