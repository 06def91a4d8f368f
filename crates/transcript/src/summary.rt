// The imbalance notice as text, with the orders that stand.
ghost use Rattle.std.specs.Prelude.{Some};
ghost use Rattle.reference.specs.References.{twice};
ghost use Rattle.transcript.specs.Summary.{reference_text, imbalance_text, notice_text, order_text, row, rows, phase_line, summary_text};

use auction::search::Auction;
use book::views::References;
use book::{Book, Venue};
use grid::Grid;
use notice::{Imbalance, Notice};
use orders::Phase;
use orders::table::Order;
use peg::standing_price;
use priority::PairingRule;
use reference::Reference;
use report::text::Dollars;
use std::fmt;

// A reference in dollars, with a digit for half of a ten-thousandth. It is a type beside `Dollars`, since the width of a hole is a
// literal.
#[derive(Clone, Copy)]
struct Midpoint(Reference);

impl fmt::Display for Midpoint {
    ghost output = { λ midpoint. Some (reference_text midpoint.0) };

    fn fmt<W: fmt::Write>(&self, f: &mut fmt::Formatter<W>) -> fmt::Result {
        let n = self.0.doubled() * 5;
        write!(f, "{}.{:05}", n / 100_000, n % 100_000)
    }
}

// A side and its volume.
#[derive(Clone, Copy)]
struct Leaning(Imbalance);

impl fmt::Display for Leaning {
    ghost output = { λ leaning. Some (imbalance_text leaning.0) };

    fn fmt<W: fmt::Write>(&self, f: &mut fmt::Formatter<W>) -> fmt::Result {
        match self.0.side {
            Some(side) => write!(f, "{side} {}", self.0.volume),
            None => f.write_str("none"),
        }
    }
}

// The figures of a notice.
#[derive(Clone, Copy)]
struct Figures(Notice);

impl fmt::Display for Figures {
    ghost output = { λ figures. Some (notice_text figures.0) };

    fn fmt<W: fmt::Write>(&self, f: &mut fmt::Formatter<W>) -> fmt::Result {
        let Notice {
            reference,
            imbalance,
            paired,
            market,
        } = self.0;
        let reference = Midpoint(reference);
        let imbalance = Leaning(imbalance);
        let market = Leaning(market);
        write!(
            f,
            "reference         {reference}\nimbalance         {imbalance}\npaired            {paired}\nmarket imbalance  {market}\n"
        )
    }
}

// What an order is, and how much of it is left.
#[derive(Clone, Copy)]
struct OrderWords(Order);

impl fmt::Display for OrderWords {
    ghost output = { λ order. Some (order_text order.0) };

    fn fmt<W: fmt::Write>(&self, f: &mut fmt::Formatter<W>) -> fmt::Result {
        let Order {
            number,
            kind,
            side,
            left,
            volume,
            ..
        } = self.0;
        write!(f, "order {number}: {kind} {side}, {left} of {volume} left")
    }
}

// A standing order, and the price at which it stands.
#[derive(Clone, Copy)]
struct Row {
    order: Order,
    price: u32,
}

impl fmt::Display for Row {
    ghost output = { λ r. Some (row r.order r.price) };

    fn fmt<W: fmt::Write>(&self, f: &mut fmt::Formatter<W>) -> fmt::Result {
        let order = OrderWords(self.order);
        if self.order.kind.is_market() {
            return writeln!(f, "{order}");
        }
        let limit = Dollars(self.order.limit);
        let price = Dollars(self.price);
        writeln!(f, "{order}, limit {limit}, stands at {price}")
    }
}

// A row for each order with shares left.
#[derive(Drop)]
struct Rows<'g, 'o, G> {
    grid: &'g G,
    pegs: Reference,
    orders: &'o [Order],
}

impl<G: Grid> fmt::Display for Rows<'_, '_, G> {
    ghost output = { λ r. Some (rows (G.PriceSet.holds r.grid.now) (twice r.pegs) r.orders.now) };

    fn fmt<W: fmt::Write>(&self, f: &mut fmt::Formatter<W>) -> fmt::Result {
        for order in self.orders {
            if order.left == 0 {
                continue;
            }
            let price = standing_price(self.grid, self.pegs, order);
            write!(
                f,
                "{}",
                Row {
                    order: *order,
                    price
                }
            )?;
        }
        Ok(())
    }
}

#[derive(Clone, Copy)]
struct PhaseLine(Phase);

impl fmt::Display for PhaseLine {
    ghost output = { λ phase. Some (phase_line phase.0) };

    fn fmt<W: fmt::Write>(&self, f: &mut fmt::Formatter<W>) -> fmt::Result {
        let phase = self.0;
        writeln!(f, "phase             {phase}")
    }
}

// The phase of a book, and until it is closed its notice and the orders that stand.
#[derive(Drop)]
pub struct Summary<'v, 'b, G, R> {
    pub venue: &'v Venue<G, R>,
    pub book: &'b Book,
}

impl<G: Grid, R: PairingRule> fmt::Display for Summary<'_, '_, G, R> {
    ghost output = { λ s. Some (summary_text (G.PriceSet.holds s.venue.now.grid) s.book.now) };

    fn fmt<W: fmt::Write>(&self, f: &mut fmt::Formatter<W>) -> fmt::Result {
        let phase = PhaseLine(self.book.phase());
        let Some(References { current, pegs }) = self.book.references() else {
            return write!(f, "{phase}");
        };
        let auction = Auction {
            reference: current,
            orders: &self.book.found(self.venue, pegs),
        };
        let figures = Figures(Notice::of(&auction));
        let orders = self.book.table.as_slice();
        let rows = Rows {
            grid: &self.venue.grid,
            pegs,
            orders,
        };
        write!(f, "{phase}{figures}{rows}")
    }
}
