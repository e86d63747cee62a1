use audit_report::RunFault;
use pageaudit::{Status, status_of};
use std::test::Fail;
use test_support::same_in;

#[test]
fn statuses_are_told_apart() -> Result<(), Fail> {
    for (answer, status) in [
        (Ok(Status::Clear), 0),
        (Ok(Status::Faulty), 1),
        (Err(RunFault::Groups), 2),
        (Err(RunFault::Keys(0)), 2),
        (Err(RunFault::ReadBase), 3),
        (Err(RunFault::ReadNewBase), 3),
        (Err(RunFault::ReadNewCert), 3),
        (Err(RunFault::Write(0)), 3),
        (Err(RunFault::Memory), 4),
    ] {
        same_in(answer, status_of(&answer), status)?;
    }
    Ok(())
}
