//! The base of three frames that tests begin from, and its certificate.
//!
//! Page 123 is the entry page. It leads by `1` to frame 1231a, which is followed by 1231b; both lead back by `0`. `0` on the
//! entry page leaves for page 0.
//!
//! ```
//! check_bytes(alloc, DEMO.as_bytes(), CERT.as_bytes(), &policy) // Cleared, by a policy of 5 pence, 1 keying and no groups
//! let dearer = DEMO.replacen(alloc, "price = 5", "price = 6", 1)?; // the same base but for a price: now K7 at 1231a
//! ```

/// The base's text.
pub const DEMO: &str =
    "entry = 123\noutside = [0]\n[[frame]]\nid = \"123a\"\nrows = [\"WELCOME\"]\nroutes = { 0 = 0, 1 = 1231 }\n[[frame]]\nid = \"1231a\"\nprice = 5\nnext = true\nrows = [\"PART ONE\"]\nroutes = { 0 = 123 }\n[[frame]]\nid = \"1231b\"\nlead = \"keep\"\nbody = \"\\u001E\\u000APART TWO\"\nroutes = { 0 = 123 }\n";

/// The text of its certificate: no frame costs more than 5 pence, and one key leads back from everywhere.
pub const CERT: &str =
    "PBC1\nentry 123\nceiling 5\nkeyings 1\nrows 3\n123a 0 s80\n1231a 1 s80\n1231b 1 s48\nend\n";
