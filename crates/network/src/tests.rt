// The worked hours on tables: what they are worth, that each zone is in balance, and which prices settle them.
use crate::settled::settles;
use crate::tables::{Amounts, Tables, balance_at, worth_of};
use std::process::Abort;
use std::test::Fail;

fn balanced(t: Tables, o: Amounts) -> bool {
    (0..t.zones).all(|zone| {
        let sides = balance_at(t, o, zone);
        sides.comes == sides.goes
    })
}

fn comes_out(
    rt: &impl Abort,
    t: Tables,
    o: Amounts,
    prices: &[u64],
    worth: u128,
) -> Result<(), Fail> {
    assert!(rt; balanced(t, o));
    assert!(rt; settles(t, o, prices));
    let found = worth_of(t, o).ok_or("too large")?;
    assert!(rt; found.gained >= found.spent);
    assert_eq!(rt; found.gained - found.spent, worth);
    Ok(())
}

#[test]
fn narrow_lines_part_the_prices(rt: HostRuntime) -> Result<(), Fail> {
    let t = Tables {
        zones: 2,
        buys: &[1, 50, 100],
        sells: &[0, 20, 80, 1, 40, 60],
        lines: &[0, 1, 50, 1, 0, 50],
    };
    let o = Amounts {
        bought: &[100],
        sold: &[50, 50],
        flow: &[50, 0],
    };
    assert!(rt; !settles(t, o, &[20, 39]));
    assert!(rt; !settles(t, o, &[19, 40]));
    comes_out(&rt, t, o, &[20, 40], 2000)
}

#[test]
fn wide_lines_join_them(rt: HostRuntime) -> Result<(), Fail> {
    let t = Tables {
        zones: 2,
        buys: &[1, 50, 100],
        sells: &[0, 20, 80, 1, 40, 60],
        lines: &[0, 1, 90, 1, 0, 90],
    };
    let o = Amounts {
        bought: &[100],
        sold: &[80, 20],
        flow: &[80, 0],
    };
    assert!(rt; !settles(t, o, &[20, 40]));
    comes_out(&rt, t, o, &[40, 40], 2600)
}

#[test]
fn buy_in_part_sets_the_price(rt: HostRuntime) -> Result<(), Fail> {
    let t = Tables {
        zones: 1,
        buys: &[0, 30, 10, 0, 25, 10],
        sells: &[0, 10, 15, 0, 28, 10],
        lines: &[],
    };
    let o = Amounts {
        bought: &[10, 5],
        sold: &[15, 0],
        flow: &[],
    };
    assert!(rt; !settles(t, o, &[24]));
    comes_out(&rt, t, o, &[25], 275)
}

#[test]
fn tied_bids_take_any_amount(rt: HostRuntime) -> Result<(), Fail> {
    let t = Tables {
        zones: 1,
        buys: &[0, 30, 10],
        sells: &[0, 30, 10],
        lines: &[],
    };
    for n in 0..11 {
        comes_out(
            &rt,
            t,
            Amounts {
                bought: &[n],
                sold: &[n],
                flow: &[],
            },
            &[30],
            0,
        )?;
    }
    Ok(())
}

#[test]
fn unsold_costs_nothing(rt: HostRuntime) -> Result<(), Fail> {
    let t = Tables {
        zones: 2,
        buys: &[],
        sells: &[0, 5, 10],
        lines: &[0, 1, 5],
    };
    comes_out(
        &rt,
        t,
        Amounts {
            bought: &[],
            sold: &[0],
            flow: &[0],
        },
        &[0, 0],
        0,
    )
}

#[test]
fn all_prices_between_settle(rt: HostRuntime) -> Result<(), Fail> {
    let t = Tables {
        zones: 1,
        buys: &[0, 30, 10],
        sells: &[0, 12, 10],
        lines: &[],
    };
    let o = Amounts {
        bought: &[10],
        sold: &[10],
        flow: &[],
    };
    assert!(rt; !settles(t, o, &[11]));
    assert!(rt; !settles(t, o, &[31]));
    for price in 12..31 {
        comes_out(&rt, t, o, &[price], 180)?;
    }
    Ok(())
}
