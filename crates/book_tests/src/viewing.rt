// What the book says of itself: its references, the totals at a price, the notice and the result.
use crate::samples::{
    OPEN_PHASES, VENUE, book_with, busy_book, cancel, displayed, empty_book, enter, in_phase,
    limit, market, take,
};
use book::views::Outcome;
use book::{Book, State};
use orders::{Phase, Side};
use reference::Reference;
use std::process::Abort;
use std::test::Fail;

// Twice the reference, and twice the one that the pegs follow.
fn doubled(book: &Book) -> Result<(u64, u64), Fail> {
    let references = book.references().ok_or("the book is closed")?;
    Ok((references.current.doubled(), references.pegs.doubled()))
}

// A notice that leans to the buys: twice the reference, the closing imbalance, the shares paired and the market imbalance.
fn notice_is(rt: &impl Abort, book: &Book, expected: [u64; 4]) -> Result<(), Fail> {
    let notice = book.notice(&VENUE)?;
    let volumes = [
        notice.reference.doubled(),
        notice.imbalance.volume,
        notice.paired,
        notice.market.volume,
    ];
    assert_eq!(rt; volumes, expected);
    assert_eq!(rt;
        (notice.imbalance.side, notice.market.side),
        (Some(Side::Buy), Some(Side::Buy))
    );
    Ok(())
}

// Each request, and twice the reference after it.
#[test]
fn the_reference_is_the_quote_then_the_last_sale_then_the_close(
    rt: HostRuntime,
) -> Result<(), Fail> {
    let mut book = empty_book()?;
    assert_eq!(rt; doubled(&book)?, (200_000, 200_000));
    let cases = [
        (enter(limit(Side::Buy, 99_000, 100)), 200_000),
        (enter(displayed(Side::Buy, 99_900, 100)), 200_000),
        (enter(displayed(Side::Sell, 100_200, 100)), 200_100),
        (enter(displayed(Side::Sell, 100_500, 100)), 200_100),
        // the quote without its best offer, and without offers; no sale yet
        (cancel(3), 200_400),
        (cancel(4), 200_000),
        (enter(displayed(Side::Sell, 100_200, 100)), 200_100),
        // a sale, but the quote stands; then the bid is gone, and later the offer
        (take(2, 40), 200_100),
        (take(2, 60), 199_800),
        (take(5, 100), 200_400),
    ];
    for (request, reference) in cases {
        book.request(&VENUE, request)?;
        assert_eq!(rt; doubled(&book)?, (reference, reference));
    }
    Ok(())
}

#[test]
fn the_extension_has_its_own_references_and_the_closed_book_none(
    rt: HostRuntime,
) -> Result<(), Fail> {
    let mut book = busy_book()?;
    for phase in [Phase::Entry, Phase::Imbalance, Phase::Freeze] {
        assert_eq!(rt; doubled(&in_phase(&book, phase))?, (200_100, 200_100));
    }
    book.state = State::Extension {
        reference: Reference::of_sales(None, 98_000),
        pegs: Reference::of_sales(None, 97_000),
        side: None,
        remains: 0,
    };
    assert_eq!(rt; doubled(&book)?, (196_000, 194_000));
    assert!(rt; in_phase(&book, Phase::Closed).references().is_none());
    Ok(())
}

#[test]
fn the_result_is_four_zeros_until_the_book_is_closed(rt: HostRuntime) -> Result<(), Fail> {
    let book = busy_book()?;
    for phase in OPEN_PHASES {
        let none = Outcome {
            phase,
            price: 0,
            shares: 0,
            fills: 0,
            imbalance: 0,
        };
        assert_eq!(rt; in_phase(&book, phase).result(), none);
    }
    let closed = Outcome {
        phase: Phase::Closed,
        price: 100_100,
        shares: 700,
        fills: 3,
        imbalance: 50,
    };
    assert_eq!(rt; in_phase(&book, Phase::Closed).result(), closed);
    Ok(())
}

#[test]
fn a_closed_book_has_no_totals_and_no_notice(rt: HostRuntime) -> Result<(), Fail> {
    let book = in_phase(&busy_book()?, Phase::Closed);
    match (book.totals(&VENUE, 100_000), book.notice(&VENUE)) {
        (Err(totals), Err(notice)) => {
            assert_eq!(rt; totals.number(), 2);
            assert_eq!(rt; notice.number(), 2);
            Ok(())
        }
        _ => Err(Fail::new("a closed book is refused with 2")),
    }
}

// Closing orders count at the reference of 10.005: 300 + 200 shares to buy and 100 + 150 to sell.
#[test]
fn a_notice_counts_closing_orders_at_the_reference(rt: HostRuntime) -> Result<(), Fail> {
    let book = book_with(&[
        displayed(Side::Buy, 99_900, 700),
        displayed(Side::Sell, 100_200, 400),
        market(Side::Buy, 300),
        limit(Side::Buy, 100_100, 200),
        limit(Side::Buy, 100_000, 50),
        market(Side::Sell, 100),
        limit(Side::Sell, 100_000, 150),
        limit(Side::Sell, 100_100, 90),
    ])?;
    for phase in [Phase::Entry, Phase::Imbalance, Phase::Freeze] {
        notice_is(&rt, &in_phase(&book, phase), [200_100, 250, 250, 200])?;
    }
    // at 10.00, the reference of the extension, a buy at 10.00 counts as well
    notice_is(
        &rt,
        &in_phase(&book, Phase::Extension),
        [200_000, 300, 250, 200],
    )
}
