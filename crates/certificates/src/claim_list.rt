ghost use Rattle.std.specs.Prelude.{◌≡◌};

use crate::Claim;
use std::marker::Model;

/// Claims in order, seen as their list.
#[derive(Debug, Drop)]
pub struct ClaimList {
    items: Vec<Claim>,
}

impl Model for ClaimList {
    ghost use Rattle.std.specs.Prelude.{List};
    ghost use Rattle.certificates.specs.declared.claim.Claim.{Claim};

    ghost Value = { List Claim };

    ghost view = { λ a. a.items.items };
}

impl ClaimList {
    /// Makes the list of these claims. Takes no memory.
    pub fn of(items: Vec<Claim>) -> ClaimList
        ensures { result ≡ items.items }
    {
        ClaimList { items }
    }

    /// Lends the claims, in order.
    pub fn items(&self) -> &[Claim]
        ensures { result.now ≡ self.now }
    {
        &self.items
    }

    /// Gives the claims, in order. Takes no memory.
    pub fn into_items(self) -> Vec<Claim>
        ensures { result.items ≡ self }
    {
        self.items
    }
}
