//! One expression.
ghost use Rattle.std.specs.Prelude.{◌≡◌, ◌<◌, ◌^◌, [], ◌∷◌, ◌++◌, length, map, IfOk, OnOk, OnErr, option_map, slice_get};
ghost use Rattle.wf_template.specs.ExprSeen.{expr_tree, exprs_seen};

use crate::chain::chain_of;
use std::alloc::{AllocError, Global};
use wf_val::{Text, Val};

/// An expression (Workflow Definition Language, "Expressions"): a literal, a call of a function, or an access to a
/// member or an item of what another expression gives. `soft` says that the access was written with `?`.
#[cycle(expr)]
pub enum Expr {
    Lit(Val),
    Call {
        name: Text,
        args: Exprs,
    },
    Member {
        base: Box<Expr>,
        name: Text,
        soft: bool,
    },
    Index {
        base: Box<Expr>,
        key: Box<Expr>,
        soft: bool,
    },
}

// A loop along the bases, however many they are.
impl Drop for Expr {
    fn drop(mut self) {
        loop {
            match self {
                Expr::Lit(_) => return,
                Expr::Call { name: _, args: _ } => return,
                Expr::Member {
                    base,
                    name: _,
                    soft: _,
                } => self = Box::into_inner(base),
                Expr::Index {
                    base,
                    key: _,
                    soft: _,
                } => self = Box::into_inner(base),
            }
        }
    }
}

/// The arguments of a call, seen as the list of their trees.
#[cycle(expr)]
#[derive(Drop)]
pub struct Exprs {
    items: Vec<Expr>,
}

impl Exprs {
    /// No expressions.
    pub fn new(alloc: Global) -> Self
        ensures { exprs_seen result ≡ [] }
    {
        Exprs {
            items: Vec::new(alloc),
        }
    }

    /// How many expressions there are.
    pub fn len(&self) -> u64
        ensures count { result ≡ length (exprs_seen self.now) }
        ensures in_range { result < 2 ^ 63 }
    {
        self.items.len() as u64
    }

    /// The expression at a place, counted from 0.
    pub fn at(&self, place: u64) -> Option<&Expr>
        ensures { option_map (λ e. expr_tree e.now) result ≡ slice_get (exprs_seen self.now) place }
    {
        self.items.get(place as usize)
    }

    /// The expressions, for a loop.
    pub fn as_slice(&self) -> &[Expr]
        ensures { map expr_tree result.now ≡ exprs_seen self.now }
    {
        &self.items
    }

    /// Adds an expression behind the others.
    pub fn push(&mut self, item: Expr) -> Result<(), AllocError>
        ensures ok { OnOk result (exprs_seen self.new ≡ exprs_seen self.old ++ expr_tree item ∷ []) }
        ensures err { OnErr result (exprs_seen self.new ≡ exprs_seen self.old) }
    {
        self.items.push(item)?;
        Ok(())
    }

    #[cycle(copy)]
    pub fn copy(&self, alloc: Global) -> Result<Exprs, AllocError>
        ensures { IfOk result (λ es. exprs_seen es ≡ exprs_seen self.now) }
    {
        let mut copies = Vec::with_capacity(alloc, self.items.len())?;
        for item in &self.items {
            copies.push(item.copy(alloc)?)?;
        }
        Ok(Exprs { items: copies })
    }
}

impl Expr {
    #[cycle(copy)]
    pub fn copy(&self, alloc: Global) -> Result<Expr, AllocError>
        ensures { IfOk result (λ e. expr_tree e ≡ expr_tree self.now) }
    {
        chain_of(alloc, self)?.copy(alloc)
    }
}
