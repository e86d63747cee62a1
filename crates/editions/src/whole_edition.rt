ghost use Rattle.std.specs.Prelude.{◌≡◌, IfOk};
ghost use Rattle.editions.specs.Folders.{edition_bytes};

use crate::number_lines::follows_text;
use crate::sums::sums_text;
use std::alloc::{AllocError, Global};
use std::marker::Model;

/// The bytes of an edition's files. Contracts see five lists.
#[derive(Debug, Drop)]
pub struct WholeEdition {
    pub base: Vec<u8>,
    pub cert: Vec<u8>,
    pub policy: Vec<u8>,
    pub follows: Vec<u8>,
    pub sums: Vec<u8>,
}

impl Model for WholeEdition {
    ghost use Rattle.editions.specs.Folders.{EditionBytes};

    ghost Value = { EditionBytes };

    ghost view = { λ e. record { base = e.base.items; cert = e.cert.items; policy = e.policy.items; follows = e.follows.items; sums = e.sums.items } };
}

impl WholeEdition {
    /// The edition of a base, its certificate and its policy, with what it follows and the sums.
    pub fn of(
        alloc: Global,
        base: Vec<u8>,
        cert: Vec<u8>,
        policy: Vec<u8>,
        follows: Option<u32>,
    ) -> Result<WholeEdition, AllocError>
        ensures { IfOk result (λ e. e ≡ edition_bytes base.items cert.items policy.items follows) }
    {
        let follows = follows_text(alloc, follows)?;
        let sums = sums_text(
            alloc,
            base.as_slice(),
            cert.as_slice(),
            policy.as_slice(),
            follows.as_slice(),
        )?;
        Ok(WholeEdition {
            base,
            cert,
            policy,
            follows,
            sums,
        })
    }
}
