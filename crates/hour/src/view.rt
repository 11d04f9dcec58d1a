// A well-formed hour, seen in its bytes.
ghost use Rattle.std.specs.Prelude.{◌≡◌, ◌+◌, ◌<◌, ◌≤◌, false, length, is_some, IfOk};
ghost use Rattle.std.specs.Result.{result_err};
ghost use Rattle.hour.specs.Bytes.{byte, two, market_of, refusal_of};
ghost use Rattle.hour.specs.Market.{Among, at, bid, line, count_of, terms};
ghost use Rattle.hour.specs.Rules.{line_place, BidKept, LineKept};

use crate::bytes::two_bytes;
use crate::entries::Entry;
use crate::items::{Bid, Item, Line, Terms};
use crate::reading::check_bytes;
use crate::refusals::{Refusal, Sort};

/// The number at place k of a list, or 0 behind its end.
pub fn number_at(xs: &[u64], k: usize) -> u64
    ensures { result ≡ at xs.now k }
{
    xs.get(k).copied().unwrap_or(0)
}

/// The bytes of an hour that keeps every rule, with its counts; bids and lines are read where they stand. The counts are those
/// that the bytes say, and those of the market's lists.
#[derive(Clone, Copy)]
pub struct Hour<'a> {
    bytes: &'a [u8],
    zones: u64,
    buys: usize,
    sells: usize,
    lines: usize,
    ghost kept: { is_some (refusal_of bytes.now) ≡ false },
    ghost zones_said: { zones ≡ byte bytes.now 0 },
    ghost buys_said: { buys ≡ two bytes.now 1 },
    ghost sells_said: { sells ≡ two bytes.now 3 },
    ghost lines_said: { lines ≡ two bytes.now 5 },
    ghost buys_count: { buys ≡ length (market_of bytes.now).buys },
    ghost sells_count: { sells ≡ length (market_of bytes.now).sells },
    ghost lines_count: { lines ≡ length (market_of bytes.now).lines },
    ghost size: { length bytes.now ≡ line_place (buys + sells) lines },
}

impl<'a> Hour<'a> {
    ghost use Rattle.hour.specs.Seen.{market_seen};

    /// The hour that the bytes say, of bytes that are not refused.
    #[tactic(auto, using(crate::proofs::Kept::buys_count, crate::proofs::Kept::sells_count, crate::proofs::Kept::lines_count))]
    pub fn of(bytes: &'a [u8]) -> Hour<'a>
        requires { is_some (refusal_of bytes.now) ≡ false }
        ensures { result.bytes.now ≡ bytes.now }
    {
        let zones = u64::from(bytes[0]);
        let buys = two_bytes(bytes, 1) as usize;
        let sells = two_bytes(bytes, 3) as usize;
        let lines = two_bytes(bytes, 5) as usize;
        Hour {
            bytes,
            zones,
            buys,
            sells,
            lines,
        }
    }

    pub fn zones(self) -> u64
        ensures { result ≡ (market_seen self.entry).zones }
    {
        self.zones
    }

    pub fn buys(self) -> usize
        ensures value { result ≡ self.entry.buys }
        ensures count { result ≡ length (market_seen self.entry).buys }
    {
        self.buys
    }

    pub fn sells(self) -> usize
        ensures value { result ≡ self.entry.sells }
        ensures count { result ≡ length (market_seen self.entry).sells }
    {
        self.sells
    }

    pub fn lines(self) -> usize
        ensures value { result ≡ self.entry.lines }
        ensures count { result ≡ length (market_seen self.entry).lines }
    {
        self.lines
    }

    /// How many of a sort it has.
    pub fn count(self, sort: Sort) -> usize
        ensures { result ≡ count_of (market_seen self.entry) sort }
    {
        match sort {
            Sort::Buy => self.buys,
            Sort::Sell => self.sells,
            Sort::Line => self.lines,
        }
    }

    // The k-th of those that stand behind so many bids.
    fn nth<E: Entry>(self, bids: usize, k: usize) -> E
        requires fits { E.place bids k + E.size ≤ length self.bytes.now }
        ensures { result ≡ E.said self.entry.bytes.now (E.place bids k) }
    {
        E::read(self.bytes, E::place(bids, k))
    }

    #[tactic(auto, using(crate::proofs::Kept::buy_stands, crate::proofs::Kept::buy_kept))]
    pub fn buy(self, k: usize) -> Bid
        requires { k < self.buys }
        ensures value { result ≡ bid (market_seen self.entry).buys k }
        ensures kept { BidKept self.entry.zones result }
    {
        self.nth(0, k)
    }

    #[tactic(auto, using(crate::proofs::Kept::sell_stands, crate::proofs::Kept::sell_kept))]
    pub fn sell(self, k: usize) -> Bid
        requires { k < self.sells }
        ensures value { result ≡ bid (market_seen self.entry).sells k }
        ensures kept { BidKept self.entry.zones result }
    {
        self.nth(self.buys, k)
    }

    #[tactic(auto, using(crate::proofs::Kept::line_stands, crate::proofs::Kept::line_kept))]
    pub fn line(self, k: usize) -> Line
        requires { k < self.lines }
        ensures value { result ≡ line (market_seen self.entry).lines k }
        ensures kept { LineKept self.entry.zones result }
        ensures costless { result.cost ≡ 0 }
    {
        self.nth(self.buys + self.sells, k)
    }

    /// The terms of an item at the zones' prices.
    pub fn terms(self, prices: &[u64], item: Item) -> Terms
        requires { Among (market_seen self) item }
        ensures { result ≡ terms (market_seen self.entry) prices.now item }
    {
        match item {
            Item::Buy(k) => {
                let buy = self.buy(k);
                Terms {
                    limit: buy.amount,
                    cost: number_at(prices, buy.zone as usize),
                    value: buy.price,
                }
            }
            Item::Sell(k) => {
                let sell = self.sell(k);
                Terms {
                    limit: sell.amount,
                    cost: sell.price,
                    value: number_at(prices, sell.zone as usize),
                }
            }
            Item::Line(k) => {
                let line = self.line(k);
                Terms {
                    limit: line.capacity,
                    cost: number_at(prices, line.from as usize) + line.cost,
                    value: number_at(prices, line.to as usize),
                }
            }
        }
    }
}

// The hour that any bytes say, or why they say none.
impl<'a> TryFrom<&'a [u8]> for Hour<'a> {
    type Error = Refusal;

    ghost try_from_gives = { λ bytes result.
        (result_err result ≡ refusal_of bytes.now)
        × IfOk result (λ hour. hour.bytes.now ≡ bytes.now) };

    fn try_from(bytes: &'a [u8]) -> Result<Self, Refusal> {
        check_bytes(bytes)?;
        Ok(Hour::of(bytes))
    }
}
