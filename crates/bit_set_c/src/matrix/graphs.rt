// Calls on a matrix as a graph: from each row an edge leads to each column that is in it.
ghost use Rattle.std.specs.Prelude.{◌≡◌, ◌*◌, ◌<◌, IfSome, None, is_some, length};
ghost use Rattle.bit_blocks.specs.Bits.{blocks_for};
ghost use Rattle.graph_walks.specs.{Closed.{IsClosed, IsClosureOf, IsReflexiveClosureOf}, Dominators.AreDominators};
ghost use Rattle.c_handles.specs.Handed.{IsAt};
ghost use Rattle.bit_set_c.specs.Block.{width};

use crate::handed::{ExclusiveMatrix, OwnedMatrix, SharedMatrix};
use crate::matrix::making::boxed_matrix;
use graph_walks::{dominators, reflexive_transitive_closure, transitive_closure};
use std::alloc::Global;

/// Sets each row to the nodes to which a path of at least one edge leads from it.
#[unsafe(no_mangle)]
pub extern "C" fn bit_matrix_transitive_closure(matrix: &mut ExclusiveMatrix)
    requires here { IsAt matrix.ref_ptr matrix.old.at }
    ensures closure { IsClosureOf matrix.old.cells.rows matrix.new.cells.rows }
    ensures closed { IsClosed matrix.new.cells.rows }
    ensures rows { length matrix.new.cells.rows ≡ length matrix.old.cells.rows }
    ensures columns { matrix.new.cells.columns ≡ matrix.old.cells.columns }
    ensures place { matrix.new.at ≡ matrix.old.at }
{
    transitive_closure(matrix.get());
}

/// Sets each row to the nodes to which a path of any number of edges, including none, leads from it.
#[unsafe(no_mangle)]
pub extern "C" fn bit_matrix_reflexive_transitive_closure(matrix: &mut ExclusiveMatrix)
    requires here { IsAt matrix.ref_ptr matrix.old.at }
    ensures closure { IsReflexiveClosureOf matrix.old.cells matrix.new.cells }
    ensures closed { IsClosed matrix.new.cells.rows }
    ensures rows { length matrix.new.cells.rows ≡ length matrix.old.cells.rows }
    ensures columns { matrix.new.cells.columns ≡ matrix.old.cells.columns }
    ensures place { matrix.new.at ≡ matrix.old.at }
{
    reflexive_transitive_closure(matrix.get());
}

/// The dominators of each node: row `v` has the node `d` exactly where every path from `entry` to `v` goes through
/// `d`; or none where `bit_matrix_new` makes none for as many columns as rows.
#[unsafe(no_mangle)]
pub extern "C" fn bit_matrix_dominators(
    alloc: Global,
    out: &mut OwnedMatrix,
    graph: &mut SharedMatrix,
    entry: usize,
) -> bool
    requires empty { out.old.held ≡ None }
    requires here { IsAt graph.ref_ptr graph.old.at }
    ensures made { result ≡ is_some out.new.held }
    ensures dominators { IfSome out.new.held (AreDominators graph.old.cells.rows entry) }
    ensures rows { IfSome out.new.held (λ matrix. length matrix.rows ≡ length graph.old.cells.rows) }
    ensures columns { IfSome out.new.held (λ matrix. matrix.columns ≡ length graph.old.cells.rows) }
    ensures too_large { usize.MAX < length graph.old.cells.rows
        * (blocks_for width (length graph.old.cells.rows) * width) → out.new.held ≡ None }
    ensures kept { graph.new ≡ graph.old }
{
    match dominators(alloc, graph.get(), entry) {
        Ok(matrix) => boxed_matrix(alloc, out, matrix),
        Err(_) => false,
    }
}
