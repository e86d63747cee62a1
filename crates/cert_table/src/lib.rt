//! Tables of covered frames, and certificates over them.
//!
//! A [`Certificate`] names a base's entry page, a price ceiling and a number of keyings, and covers frames: each has a
//! [`Row`] with its return rank and the cursor after its painting. Contracts see a certificate as those numbers and the
//! list of its rows, in the order of their ids, whatever [`Cover`] holds them.
//!
//! ```
//! let cert: Certificate = Certificate::build(entry, ceiling, keyings, groups, rows)?; // rows in the order of their ids
//! cert.cover().row_of(id) // the frame's row, or None
//! cert.cover().rank_of(id) // its rank alone
//! ```
//!
//! - [`Row`]: a covered frame.
//! - [`Cover`], [`RowTable`], [`RowList`]: a finite map from ids to rows; one in which an id is sought by binary search, and one
//!   from the front.
//! - [`Certificate`], [`TableFault`]: made by `build` alone, or refused by name.
#![tactic(auto)]

mod certificate;
mod cover;
mod limits;
mod row;
mod row_list;
mod row_table;

pub use certificate::{Certificate, TableFault, faults_are_exact};
pub use cover::Cover;
pub use limits::{MOST_RANK, MOST_ROWS};
pub use row::Row;
pub use row_list::RowList;
pub use row_table::RowTable;
