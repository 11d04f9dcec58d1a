// What an hour has lists of, bids and lines: where each stands in the written hour, its bytes, and the rules that it keeps.
ghost use Rattle.std.specs.Prelude.{◌≡◌, ℕ, ◌+◌, ◌*◌, ◌^◌, ◌<◌, ◌≤◌, List, length, Option, refl};
ghost use Rattle.std.specs.Result.{result_err};
ghost use Rattle.std.proofs.Common.{arith};
ghost use Rattle.std.proofs.Math.Seq.{paste};
ghost use Rattle.hour.specs.Bytes.{bid_at, line_at, bid_bytes, line_bytes};
ghost use Rattle.hour.specs.Market.{no_bid, no_line};
ghost use Rattle.hour.specs.Rules.{bid_place, line_place, bid_fault, line_fault};
ghost use Rattle.hour.specs.declared.refusals.Refusal.{Refusal};

use crate::bytes::{put_low, three_bytes};
use crate::items::{Bid, Line};
use crate::refusals::Refusal;
use crate::rules::{check_bid, check_line};

pub trait Entry: Copy {
    // How many bytes each has.
    ghost size: { ℕ };

    // Where the k-th stands, of those behind so many bids.
    ghost place: { ℕ → ℕ → ℕ };

    // The one that bytes say from a place on.
    ghost said: { List ℕ → ℕ → Self };

    // Its bytes.
    ghost written: { Self → List ℕ };

    // The first rule that it breaks, in an hour of so many zones, where its first byte has that place.
    ghost fault: { ℕ → ℕ → Self → Option Refusal };

    // What stands for one that a list lacks.
    ghost absent: { Self };

    fn place(bids: usize, k: usize) -> usize
        requires { place bids k < 2 ^ 64 }
        ensures { result ≡ place bids k };

    fn read(bytes: &[u8], at: usize) -> Self
        requires { at + size ≤ length bytes.now }
        ensures { result ≡ said bytes.now at };

    fn put(self, out: &mut [u8], at: usize)
        requires { at + size ≤ length out.old }
        ensures { out.new ≡ paste out.old at (written self) size };

    fn check(self, zones: u64, at: usize) -> Result<(), Refusal>
        requires { at + size < 2 ^ 64 }
        ensures { result_err result ≡ fault zones at self };

    // Each has as many bytes, and one stands behind another.
    ghost long: { (x : Self) → size ≡ length (written x) };

    ghost in_order: { (bids k : ℕ) → place bids k ≡ place bids 0 + size * k };
}

impl Entry for Bid {
    ghost size = { 7 };

    ghost place = { λ bids k. bid_place (bids + k) };

    ghost said = { bid_at };

    ghost written = { bid_bytes };

    ghost fault = { bid_fault };

    ghost absent = { no_bid };

    ghost long = { λ x. refl };

    ghost in_order = { λ bids k. Prim.search arith };

    fn place(bids: usize, k: usize) -> usize {
        7 + 7 * (bids + k)
    }

    fn read(bytes: &[u8], at: usize) -> Self {
        Bid {
            zone: u64::from(bytes[at]),
            price: three_bytes(bytes, at + 1),
            amount: three_bytes(bytes, at + 4),
        }
    }

    #[tactic(auto, using(crate::proofs::Pasted::paste_bid))]
    fn put(self, out: &mut [u8], at: usize) {
        put_low(out, at, 1, self.zone);
        put_low(out, at + 1, 3, self.price);
        put_low(out, at + 4, 3, self.amount);
    }

    fn check(self, zones: u64, at: usize) -> Result<(), Refusal> {
        check_bid(zones, at, self)
    }
}

impl Entry for Line {
    ghost size = { 5 };

    ghost place = { line_place };

    ghost said = { line_at };

    ghost written = { line_bytes };

    ghost fault = { line_fault };

    ghost absent = { no_line };

    ghost long = { λ x. refl };

    ghost in_order = { λ bids k. Prim.search arith };

    fn place(bids: usize, k: usize) -> usize {
        7 + 7 * bids + 5 * k
    }

    fn read(bytes: &[u8], at: usize) -> Self {
        Line {
            from: u64::from(bytes[at]),
            to: u64::from(bytes[at + 1]),
            capacity: three_bytes(bytes, at + 2),
            cost: 0,
        }
    }

    #[tactic(auto, using(crate::proofs::Pasted::paste_line))]
    fn put(self, out: &mut [u8], at: usize) {
        put_low(out, at, 1, self.from);
        put_low(out, at + 1, 1, self.to);
        put_low(out, at + 2, 3, self.capacity);
    }

    fn check(self, zones: u64, at: usize) -> Result<(), Refusal> {
        check_line(zones, at, self)
    }
}
