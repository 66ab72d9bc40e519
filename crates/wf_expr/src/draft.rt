//! An expression as it is read.
ghost use Rattle.std.specs.Prelude.{◌≡◌, [], ◌∷◌, ◌++◌, IfOk};
ghost use Rattle.wf_val.specs.Seen.{tree};
ghost use Rattle.wf_template.specs.ExprSeen.{expr_tree, exprs_seen};
ghost use Rattle.wf_template.specs.ExprTree.{literal, call, member, index, expr_trees};

use std::alloc::{AllocError, Global};
use std::marker::Model;
use wf_template::{Expr, Exprs};
use wf_val::{Text, Val};

/// An expression as it grows, seen as its tree.
#[derive(Drop)]
pub(crate) struct Draft {
    expression: Expr,
}

impl Model for Draft {
    ghost use Rattle.wf_template.specs.ExprTree.{ExprTree};
    ghost use Rattle.wf_template.specs.DataCode.{coded_expr};

    ghost Value = { ExprTree };

    ghost coded = { coded_expr };

    ghost use Rattle.wf_template.specs.ExprSeen.{expr_tree};

    ghost view = { λ a. expr_tree a.expression };
}

/// Expressions in a row.
#[derive(Drop)]
pub(crate) struct Drafts {
    expressions: Exprs,
}

impl Model for Drafts {
    ghost use Rattle.std.specs.Prelude.{List};
    ghost use Rattle.std.specs.Coded.{coded_list};
    ghost use Rattle.wf_template.specs.ExprTree.{ExprTree};
    ghost use Rattle.wf_template.specs.DataCode.{coded_expr};

    ghost Value = { List ExprTree };

    ghost coded = { coded_list coded_expr };

    ghost use Rattle.wf_template.specs.ExprSeen.{exprs_seen};

    ghost view = { λ a. exprs_seen a.expressions };
}

impl Draft {
    pub(crate) fn literal(value: Val) -> Draft
        ensures { result ≡ literal (tree value) }
    {
        Draft {
            expression: Expr::Lit(value),
        }
    }

    pub(crate) fn call(name: Text, args: Drafts) -> Draft
        ensures { result ≡ call name (expr_trees args) }
    {
        Draft {
            expression: Expr::Call {
                name,
                args: args.expressions,
            },
        }
    }

    pub(crate) fn member(self, alloc: Global, name: Text, soft: bool) -> Result<Draft, AllocError>
        ensures { IfOk result (λ d. d ≡ member self name soft) }
    {
        let base = Box::new(alloc, self.expression)?;
        Ok(Draft {
            expression: Expr::Member { base, name, soft },
        })
    }

    pub(crate) fn index(self, alloc: Global, key: Draft, soft: bool) -> Result<Draft, AllocError>
        ensures { IfOk result (λ d. d ≡ index self key soft) }
    {
        let base = Box::new(alloc, self.expression)?;
        let key = Box::new(alloc, key.expression)?;
        Ok(Draft {
            expression: Expr::Index { base, key, soft },
        })
    }

    pub(crate) fn into_expr(self) -> Expr
        ensures { expr_tree result ≡ self }
    {
        self.expression
    }
}

impl Drafts {
    pub(crate) fn new(alloc: Global) -> Drafts
        ensures { result ≡ [] }
    {
        Drafts {
            expressions: Exprs::new(alloc),
        }
    }

    /// The expressions with another behind them.
    pub(crate) fn with(self, item: Draft) -> Result<Drafts, AllocError>
        ensures { IfOk result (λ ds. ds ≡ self ++ item ∷ []) }
    {
        let mut drafts = self;
        drafts.expressions.push(item.expression)?;
        Ok(drafts)
    }
}
