use std::alloc::Global;
use std::process::Abort;
use std::test::Fail;

mod rows;
mod shape;

use rows::{AUTH_ROWS, BOTH, CIPHER_ROWS};
use shape::{Row, judged};

/// Judges each job.
fn judge(rt: &impl Abort, alloc: Global, table: &[Row]) -> Result<(), Fail> {
    for row in table {
        assert!(rt; judged(alloc, row)? == row.6, "{:?}", row.6);
    }
    Ok(())
}

#[test]
fn a_cipher_is_refused_from_its_boundaries_on(rt: HostRuntime) -> Result<(), Fail> {
    judge(&rt, rt.alloc(), &CIPHER_ROWS)
}

#[test]
fn an_authentication_is_refused_from_its_boundaries_on(rt: HostRuntime) -> Result<(), Fail> {
    judge(&rt, rt.alloc(), &AUTH_ROWS)
}

#[test]
fn the_first_of_two_rows_decides(rt: HostRuntime) -> Result<(), Fail> {
    judge(&rt, rt.alloc(), &BOTH)
}
