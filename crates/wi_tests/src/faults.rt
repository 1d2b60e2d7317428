//! The texts of refusals and faults.

use std::alloc::Global;
use std::fmt::Display;
use std::process::Abort;
use wi_csv::CsvFault;
use wi_store::StoreFault;

fn expect_shown(rt: &impl Abort, alloc: Global, fault: &impl Display, wanted: &str) {
    let text = format!(in alloc; "{fault}").expect(rt, wanted);
    assert!(rt; text.as_str() == wanted);
}

#[test]
fn refusals_of_stores(rt: HostRuntime) {
    expect_shown(
        &rt,
        rt.alloc(),
        &StoreFault::Full,
        "the sheet would have too many occupied cells",
    );
    expect_shown(
        &rt,
        rt.alloc(),
        &StoreFault::EditLimit,
        "no more edits are accepted",
    );
    expect_shown(&rt, rt.alloc(), &StoreFault::Memory, "out of memory");
}

#[test]
fn faults_of_csv(rt: HostRuntime) {
    expect_shown(
        &rt,
        rt.alloc(),
        &CsvFault::Read,
        "the records can't be read",
    );
    expect_shown(
        &rt,
        rt.alloc(),
        &CsvFault::Memory,
        "there is no memory left",
    );
}
