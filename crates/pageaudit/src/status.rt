ghost use Rattle.std.specs.Prelude.{◌≡◌};
ghost use Rattle.pageaudit.specs.Status.{status_number};

use audit_report::{RunFault, Status};

/// The program's exit status: 0 clear, 1 faulty, 2 bad groups or keys, 3 a file, read, write or text fault, 4 out of memory.
pub fn status_of(run: &Result<Status, RunFault>) -> u8
    ensures { result ≡ status_number run.now }
{
    match run {
        Ok(Status::Clear) => 0,
        Ok(Status::Faulty) => 1,
        Err(RunFault::Groups | RunFault::Keys(_)) => 2,
        Err(RunFault::Memory) => 4,
        Err(_) => 3,
    }
}
