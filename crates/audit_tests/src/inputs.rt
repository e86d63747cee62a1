//! Texts that are read one by one.

use base_text::{BaseCause, BaseFault, Field};
use cert_table::Cover;
use cert_text::{LineCause, ReadFault};
use checker::{InputFault, base_of, cert_of};
use std::test::Fail;
use test_support::{CERT, DEMO, same};

// The second frame's id is a number, and the certificate's first line is another's.
#[test]
fn a_text_is_a_base_or_a_certificate(rt: HostRuntime) -> Result<(), Fail> {
    let wrong = "entry = 1\n[[frame]]\nid = \"1a\"\nrows = []\n[[frame]]\nid = 2\nrows = []\n";
    let sizes = (
        base_of(rt.alloc(), DEMO.as_bytes()).map(|base| base.frames().len()),
        cert_of(rt.alloc(), CERT.as_bytes()).map(|cert| cert.cover().len()),
    );
    let refused = (
        base_of(rt.alloc(), wrong.as_bytes()).err(),
        cert_of(rt.alloc(), b"PBC3\n").err(),
    );
    let kind = BaseFault {
        frame: Some(1),
        cause: BaseCause::WrongKind(Field::Id),
    };
    let line = ReadFault::Line(1, LineCause::Magic);
    let wanted = (Some(InputFault::Base(kind)), Some(InputFault::Cert(line)));
    same((sizes, refused), ((Ok(3), Ok(3)), wanted))
}
