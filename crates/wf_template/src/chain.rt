//! The accesses of an expression in a row.
ghost use Rattle.std.specs.Prelude.{◌≡◌, IfOk};
ghost use Rattle.wf_template.specs.ExprSeen.{expr_tree};
ghost use Rattle.wf_template.specs.ChainSeen.{start_tree, accessed, top_tree, chain_tree};

use crate::expr::{Expr, Exprs};
use std::alloc::{AllocError, Global};
use wf_val::{Text, Val};

/// An expression whose accesses stand in a row, the outermost first, and what they stand on. A loop that takes them
/// from the back goes from what they stand on outwards, however many they are.
#[derive(Drop)]
pub struct Chain<'a> {
    pub start: Start<'a>,
    pub accesses: Vec<Access<'a>>,
}

/// What accesses stand on: an expression that is no access itself.
#[derive(Drop)]
pub enum Start<'a> {
    Lit(&'a Val),
    Call { name: &'a Text, args: &'a Exprs },
}

/// One access, to a member by its name or to an item by what its key gives. `soft` says that it was written with `?`.
#[derive(Drop)]
pub enum Access<'a> {
    Member { name: &'a Text, soft: bool },
    Index { key: &'a Expr, soft: bool },
}

// What stands at the top of an expression.
#[derive(Drop)]
enum Top<'a> {
    Start(Start<'a>),
    Access { base: &'a Expr, access: Access<'a> },
}

/// The accesses of an expression, and what they stand on.
#[tactic(auto, using(crate::proofs::ChainLemmas::built_snoc, crate::proofs::ChainLemmas::base_lt_accessed))]
pub fn chain_of<'a>(alloc: Global, expression: &'a Expr) -> Result<Chain<'a>, AllocError>
    ensures { IfOk result (λ c. chain_tree c ≡ expr_tree expression.now) }
{
    let mut accesses = Vec::new(alloc);
    let mut rest = expression;
    loop {
        match top_of(rest) {
            Top::Start(start) => return Ok(Chain { start, accesses }),
            Top::Access { base, access } => {
                accesses.push(access)?;
                rest = base;
            }
        }
    }
}

fn top_of<'a>(expression: &'a Expr) -> Top<'a>
    ensures { top_tree result ≡ expr_tree expression.now }
{
    match expression {
        Expr::Lit(value) => Top::Start(Start::Lit(value)),
        Expr::Call { name, args } => Top::Start(Start::Call { name, args }),
        Expr::Member { base, name, soft } => Top::Access {
            base,
            access: Access::Member { name, soft: *soft },
        },
        Expr::Index { base, key, soft } => Top::Access {
            base,
            access: Access::Index { key, soft: *soft },
        },
    }
}

impl<'a> Chain<'a> {
    /// The expression with parts of its own.
    #[cycle(copy)]
    #[tactic(auto, using(crate::proofs::ChainLemmas::built_snoc))]
    pub fn copy(self, alloc: Global) -> Result<Expr, AllocError>
        ensures { IfOk result (λ e. expr_tree e ≡ chain_tree self.entry) }
    {
        let mut copy = self.start.copy(alloc)?;
        let mut accesses = self.accesses;
        while let Some(access) = accesses.pop() {
            copy = access.copy_onto(alloc, copy)?;
        }
        Ok(copy)
    }
}

impl<'a> Start<'a> {
    #[cycle(copy)]
    fn copy(self, alloc: Global) -> Result<Expr, AllocError>
        ensures { IfOk result (λ e. expr_tree e ≡ start_tree self.entry) }
    {
        match self {
            Start::Lit(value) => Ok(Expr::Lit(value.copy(alloc)?)),
            Start::Call { name, args } => {
                let name = name.copy(alloc)?;
                Ok(Expr::Call {
                    name,
                    args: args.copy(alloc)?,
                })
            }
        }
    }
}

impl<'a> Access<'a> {
    /// The access, on what it stands on.
    #[cycle(copy)]
    fn copy_onto(self, alloc: Global, base: Expr) -> Result<Expr, AllocError>
        ensures { IfOk result (λ e. expr_tree e ≡ accessed (expr_tree base) self.entry) }
    {
        let base = Box::new(alloc, base)?;
        match self {
            Access::Member { name, soft } => {
                let name = name.copy(alloc)?;
                Ok(Expr::Member { base, name, soft })
            }
            Access::Index { key, soft } => {
                let key = Box::new(alloc, key.copy(alloc)?)?;
                Ok(Expr::Index { base, key, soft })
            }
        }
    }
}
