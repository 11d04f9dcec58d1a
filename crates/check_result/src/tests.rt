// Results of small hours: what stands, the first rule broken, whether prices could be lower, and what is said of texts.
use checker::{Broken, Objection, check, lowest, report_on};
use hour::Sort;
use std::process::Abort;
use std::test::Fail;

// One zone: a buy of 10 at 30 and a sell of 10 at 12.
const ONE_EACH: [u8; 21] = [
    1, 1, 0, 1, 0, 0, 0, 0, 30, 0, 0, 10, 0, 0, 0, 12, 0, 0, 10, 0, 0,
];

// The same with a second zone and a line of 5 to it.
const WITH_LINE: [u8; 26] = [
    2, 1, 0, 1, 0, 1, 0, 0, 30, 0, 0, 10, 0, 0, 0, 12, 0, 0, 10, 0, 0, 0, 1, 5, 0, 0,
];

// Two zones: a sell of 10 at 12, and over a line of 5 a buy of 5 at 30.
const FULL_LINE: [u8; 26] = [
    2, 1, 0, 1, 0, 1, 0, 1, 30, 0, 0, 5, 0, 0, 0, 12, 0, 0, 10, 0, 0, 0, 1, 5, 0, 0,
];

fn broken(rt: &impl Abort, answer: Result<(), Objection>, rule: Broken) {
    assert_eq!(rt; answer, Err(Objection::Broken(rule)));
}

fn refused(rt: &impl Abort, answer: Result<(), Objection>, number: u64, place: usize) {
    match answer {
        Err(Objection::Refused(refusal)) => {
            assert_eq!(rt; refusal.number(), number);
            assert_eq!(rt; refusal.place(), place);
        }
        Ok(()) | Err(Objection::Broken(_)) => panic!(rt; "nothing is refused"),
    }
}

#[test]
fn the_lowest_price_is_that_of_the_sell(rt: HostRuntime) {
    let mut marks: [u64; 2] = [7, 7];
    assert_eq!(rt; check(&ONE_EACH, &[10], &[10], &[], &[12]), Ok(()));
    assert_eq!(rt;
        lowest(&ONE_EACH, &[10], &[10], &[], &[12], &mut marks),
        Ok(None)
    );
    assert_eq!(rt; marks[0], 1);
    assert_eq!(rt; marks[1], 7);
}

#[test]
fn the_highest_is_accepted_and_could_be_lower(rt: HostRuntime) {
    let mut marks: [u64; 1] = [7];
    assert_eq!(rt; check(&ONE_EACH, &[10], &[10], &[], &[30]), Ok(()));
    assert_eq!(rt;
        lowest(&ONE_EACH, &[10], &[10], &[], &[30], &mut marks),
        Ok(Some(0))
    );
    assert_eq!(rt; marks[0], 0);
}

#[test]
fn a_zone_of_another_price_holds_nothing_up(rt: HostRuntime) {
    let mut marks: [u64; 2] = [7, 7];
    assert_eq!(rt; check(&WITH_LINE, &[10], &[10], &[0], &[30, 0]), Ok(()));
    assert_eq!(rt;
        lowest(&WITH_LINE, &[10], &[10], &[0], &[30, 0], &mut marks),
        Ok(Some(0))
    );
    assert_eq!(rt; marks[0], 0);
    assert_eq!(rt; marks[1], 1);
}

#[test]
fn a_line_that_carries_something_hands_on_a_price(rt: HostRuntime) {
    let mut marks: [u64; 2] = [7, 7];
    assert_eq!(rt;
        lowest(&FULL_LINE, &[5], &[5], &[5], &[12, 30], &mut marks),
        Ok(Some(1))
    );
    assert_eq!(rt; marks[0], 1);
    assert_eq!(rt; marks[1], 0);
    assert_eq!(rt;
        lowest(&FULL_LINE, &[5], &[5], &[5], &[12, 12], &mut marks),
        Ok(None)
    );
    assert_eq!(rt; marks[0], 1);
    assert_eq!(rt; marks[1], 1);
}

#[test]
fn the_first_rule_broken_is_named(rt: HostRuntime) {
    let huge = 18446744073709551615;
    let sort = Sort::Buy;
    broken(
        &rt,
        check(&WITH_LINE, &[huge], &[11], &[0], &[12, 0]),
        Broken::TooLarge { sort, number: 0 },
    );
    broken(
        &rt,
        check(&WITH_LINE, &[9], &[11], &[0], &[12, 0]),
        Broken::NotAllowed { sort, number: 0 },
    );
    broken(
        &rt,
        check(&WITH_LINE, &[10], &[9], &[0], &[huge, huge]),
        Broken::NotAllowed { sort, number: 0 },
    );
    broken(
        &rt,
        check(&WITH_LINE, &[10], &[9], &[0], &[12, 0]),
        Broken::Unbalanced { zone: 0 },
    );
    broken(
        &rt,
        check(&WITH_LINE, &[9], &[10], &[1], &[30, 30]),
        Broken::Unbalanced { zone: 1 },
    );
}

#[test]
fn each_rule_has_its_number(rt: HostRuntime) {
    let sort = Sort::Line;
    let large = Broken::TooLarge { sort, number: 5 };
    assert_eq!(rt; large.rule(), 20);
    assert_eq!(rt; large.number(), 5);
    let barred = Broken::NotAllowed { sort, number: 6 };
    assert_eq!(rt; barred.rule(), 21);
    assert_eq!(rt; barred.number(), 6);
    let uneven = Broken::Unbalanced { zone: 7 };
    assert_eq!(rt; uneven.rule(), 22);
    assert_eq!(rt; uneven.number(), 7);
}

#[test]
fn short_slices_are_refused_after_the_head(rt: HostRuntime) {
    refused(&rt, check(&[0], &[], &[], &[], &[]), 2, 0);
    refused(&rt, check(&WITH_LINE, &[10], &[], &[0], &[12]), 9, 1);
    refused(&rt, check(&WITH_LINE, &[10], &[10], &[0], &[12]), 9, 3);
}

#[test]
fn short_slices_are_refused_before_the_items(rt: HostRuntime) {
    // A buy of nothing, which the sixth rule forbids, at the fifth byte of the bid.
    let nothing: [u8; 14] = [1, 1, 0, 0, 0, 0, 0, 0, 30, 0, 0, 0, 0, 0];
    let mut marks: [u64; 1] = [7];
    refused(&rt, check(&nothing, &[], &[], &[], &[30]), 9, 0);
    refused(&rt, check(&nothing, &[0], &[], &[], &[]), 9, 3);
    refused(&rt, check(&nothing, &[0], &[], &[], &[30]), 6, 11);
    let answer = lowest(&nothing, &[0], &[], &[], &[30], &mut []);
    refused(&rt, answer.map(|_| ()), 9, 4);
    let answer = lowest(&nothing, &[0], &[], &[], &[30], &mut marks);
    refused(&rt, answer.map(|_| ()), 6, 11);
    assert_eq!(rt; marks[0], 7);
}

#[test]
fn short_marks_are_refused(rt: HostRuntime) {
    let mut marks: [u64; 1] = [7];
    let answer = lowest(&WITH_LINE, &[10], &[10], &[0], &[12, 0], &mut marks);
    refused(&rt, answer.map(|_| ()), 9, 4);
    assert_eq!(rt; marks[0], 7);
}

// Two zones, a buy, two sells and two lines.
const FIVE_ITEMS: [u8; 38] = [
    2, 1, 0, 2, 0, 2, 0, 1, 50, 0, 0, 100, 0, 0, 0, 20, 0, 0, 80, 0, 0, 1, 40, 0, 0, 60, 0, 0, 0,
    1, 50, 0, 0, 1, 0, 50, 0, 0,
];

// Prices 20 and 40, 100 bought, 50 and 50 sold and 50 carried are what is published of these; each rule is broken at the first and at
// the last item of each sort.
fn five(
    bought: [u64; 1],
    sold: [u64; 2],
    flow: [u64; 2],
    prices: [u64; 2],
) -> Result<(), Objection> {
    check(&FIVE_ITEMS, &bought, &sold, &flow, &prices)
}

#[test]
fn an_amount_too_large_is_named_by_its_sort_and_number(rt: HostRuntime) {
    let large = |sort, number| Err(Objection::Broken(Broken::TooLarge { sort, number }));
    assert_eq!(rt;
        five([101], [50, 50], [50, 0], [20, 40]),
        large(Sort::Buy, 0)
    );
    assert_eq!(rt;
        five([100], [81, 50], [50, 0], [20, 40]),
        large(Sort::Sell, 0)
    );
    assert_eq!(rt;
        five([100], [50, 61], [50, 0], [20, 40]),
        large(Sort::Sell, 1)
    );
    assert_eq!(rt;
        five([100], [50, 50], [51, 0], [20, 40]),
        large(Sort::Line, 0)
    );
    assert_eq!(rt;
        five([100], [50, 50], [50, 51], [20, 40]),
        large(Sort::Line, 1)
    );
}

#[test]
fn an_amount_that_the_prices_do_not_allow_is_named(rt: HostRuntime) {
    let barred = |sort, number| Err(Objection::Broken(Broken::NotAllowed { sort, number }));
    assert_eq!(rt;
        five([99], [50, 50], [50, 0], [20, 40]),
        barred(Sort::Buy, 0)
    );
    assert_eq!(rt;
        five([100], [50, 50], [50, 0], [30, 40]),
        barred(Sort::Sell, 0)
    );
    assert_eq!(rt;
        five([100], [50, 50], [50, 0], [20, 50]),
        barred(Sort::Sell, 1)
    );
    assert_eq!(rt;
        five([100], [50, 50], [49, 0], [20, 40]),
        barred(Sort::Line, 0)
    );
    assert_eq!(rt;
        five([100], [50, 50], [50, 1], [20, 40]),
        barred(Sort::Line, 1)
    );
}

#[test]
fn a_zone_out_of_balance_is_named(rt: HostRuntime) {
    let uneven = |zone| Err(Objection::Broken(Broken::Unbalanced { zone }));
    assert_eq!(rt; five([100], [51, 50], [50, 0], [20, 40]), uneven(0));
    assert_eq!(rt; five([100], [50, 51], [50, 0], [20, 40]), uneven(1));
    assert_eq!(rt; five([100], [50, 50], [50, 0], [20, 40]), Ok(()));
}

#[test]
fn an_empty_hour_has_the_price_0(rt: HostRuntime) {
    let empty: [u8; 7] = [2, 0, 0, 0, 0, 0, 0];
    let mut marks: [u64; 2] = [7, 7];
    assert_eq!(rt;
        lowest(&empty, &[], &[], &[], &[0, 0], &mut marks),
        Ok(None)
    );
    assert_eq!(rt;
        lowest(&empty, &[], &[], &[], &[0, 1], &mut marks),
        Ok(Some(1))
    );
    assert_eq!(rt; marks[0], 1);
    assert_eq!(rt; marks[1], 0);
}

fn says(
    rt: &(impl Abort + AllocGlobal),
    hour: &[u8],
    text: &str,
    answer: &str,
) -> Result<(), Fail> {
    let report = report_on(rt.alloc(), hour, text.as_bytes())?;
    let shown = report.to_string(rt.alloc())?;
    assert!(rt; shown.as_str() == answer);
    Ok(())
}

#[test]
fn a_published_text_stands(rt: HostRuntime) -> Result<(), Fail> {
    let text = "worth 2000 pushes 2
zone 0 price -499.80
zone 1 price -499.60
buy 0 has 100 pays -4996000
sell 0 has 50 gets -2499000
sell 1 has 50 gets -2498000
line 0 carries 50 earns 1000
line 1 carries 0 earns 0
";
    says(&rt, &FIVE_ITEMS, text, "accepted\nlowest")?;
    says(&rt, &[0], text, "refused 2 at 0")
}

#[test]
fn a_row_that_does_not_follow_is_named(rt: HostRuntime) -> Result<(), Fail> {
    let text = "worth 2000 pushes 2
zone 0 price -499.80
zone 1 price -499.60
buy 0 has 100 pays -4996001
sell 0 has 50 gets -2499000
sell 1 has 50 gets -2498000
line 0 carries 50 earns 1000
line 1 carries 0 earns 0
";
    says(
        &rt,
        &FIVE_ITEMS,
        text,
        "wrong at line 4: pays -4996000, not -4996001",
    )
}

#[test]
fn the_highest_price_is_accepted_and_not_lowest(rt: HostRuntime) -> Result<(), Fail> {
    let text = "worth 180 pushes 1
zone 0 price -499.70
buy 0 has 10 pays -499700
sell 0 has 10 gets -499700
";
    says(&rt, &ONE_EACH, text, "accepted\nzone 0 could be lower")?;
    let text = "worth 181 pushes 1
zone 0 price -499.70
buy 0 has 10 pays -499700
sell 0 has 10 gets -499700
";
    says(&rt, &ONE_EACH, text, "wrong at line 1: worth 180, not 181")?;
    let text = "worth 0 pushes 1
zone 0 price 184467440737095017.15
buy 0 has 0 pays 0
sell 0 has 10 gets 0
";
    says(&rt, &ONE_EACH, text, "unreadable at line 2")?;
    let text = "worth 0 pushes 1
zone 0 price 184467440737095016.15
buy 0 has 0 pays 0
sell 0 has 10 gets 0
";
    says(&rt, &ONE_EACH, text, "broken 22 zone 0")
}

#[test]
fn a_line_that_is_not_in_the_form_is_named(rt: HostRuntime) -> Result<(), Fail> {
    says(&rt, &ONE_EACH, "", "unreadable at line 1")?;
    says(
        &rt,
        &ONE_EACH,
        "worth 180 pushes 1\nzone 0 price -499.70",
        "unreadable at line 2",
    )?;
    says(
        &rt,
        &ONE_EACH,
        "worth 180 pushes 1\nworth 180 pushes 1\n",
        "unreadable at line 2",
    )?;
    says(
        &rt,
        &ONE_EACH,
        "worth 0180 pushes 1\n",
        "unreadable at line 1",
    )?;
    says(
        &rt,
        &ONE_EACH,
        "worth -0 pushes 1\n",
        "unreadable at line 1",
    )?;
    says(
        &rt,
        &ONE_EACH,
        "worth 180 pushes 18446744073709551616\n",
        "unreadable at line 1",
    )?;
    let text = "worth 180 pushes 1
zone 0 price -499.70
buy 0 has 10 pays -499700
sell 0 has 10 gets -499700

";
    says(&rt, &ONE_EACH, text, "unreadable at line 5")
}
