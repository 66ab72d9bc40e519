//! The least of addresses.
ghost use Rattle.std.specs.Prelude.{◌≡◌, IfOk};
ghost use Rattle.wf_shaped.specs.Least.{is_below, is_under, lesser};

use std::alloc::{AllocError, Global};
use wf_val::{Address, Name};

/// The least of some addresses, if there is one.
#[derive(Drop)]
pub(crate) struct Least {
    pub(crate) address: Option<Address>,
}

impl Least {
    fn is_above(&self, other: &Address) -> bool
        ensures { result ≡ is_below other.now self.now.address }
    {
        match &self.address {
            Some(least) => other.order(least).is_lt(),
            None => true,
        }
    }

    /// Whether all addresses of a name are above it.
    pub(crate) fn is_under(&self, name: &Name) -> bool
        ensures { result ≡ is_under self.now.address name.now }
    {
        match &self.address {
            Some(least) => least.name.order(name).is_lt(),
            None => false,
        }
    }

    /// And of this one.
    pub(crate) fn with(self, other: Address) -> Least
        ensures { result.address ≡ lesser self.address other }
    {
        if self.is_above(&other) {
            Least {
                address: Some(other),
            }
        } else {
            self
        }
    }

    pub(crate) fn with_copy(self, alloc: Global, other: &Address) -> Result<Least, AllocError>
        ensures { IfOk result (λ l. l.address ≡ lesser self.address other.now) }
    {
        if self.is_above(other) {
            Ok(Least {
                address: Some(other.copy(alloc)?),
            })
        } else {
            Ok(self)
        }
    }
}
