ghost use Rattle.std.specs.Prelude.{◌≡◌};
ghost use Rattle.std.specs.Option.{option_copied};
ghost use Rattle.cert_table.specs.Table.{row_among};

use cert_table::{Certificate, Cover, Row};
use page_ids::FrameId;

// The row of an id, and how many rows were compared with it.
pub fn seek_row<C: Cover + Drop>(cert: &Certificate<C>, id: FrameId) -> (Option<&Row>, u32)
    ensures value { option_copied result.0 ≡ row_among cert.now.rows id }
    ensures exact { result.1 ≡ C.compared cert.now.rows id }
{
    cert.cover().row_counted(id)
}
