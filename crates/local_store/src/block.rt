ghost use Rattle.std.specs.Prelude.{◌≡◌, ◌<◌};
ghost use Rattle.local_store.specs.inner.Blocks.{block_of, first_block};
ghost use Rattle.local_store.specs.inner.Grids.{HasCells, cell_at};

use super::cells::Cells;
use bspl_types::{Adornment, Carried, Value};
use role_knowledge::Block;

/// The first parameter whose cell of the row is not as its adornment demands (Singh 2011).
pub fn first_block(cells: &Cells, row: usize, carried: &[Carried]) -> Option<Block>
    requires { HasCells cells.now.width cells.now.rows row carried.now }
    ensures { result ≡
        first_block (cell_at cells.now.width cells.now.items row) carried.now }
{
    for c in carried {
        let found = block_of(c.adornment, c.param, cells.at(row, c.param as usize));
        if found.is_some() {
            return found;
        }
    }
    None
}

/// What the parameter blocks, if its cell is not as the adornment demands.
fn block_of(adornment: Adornment, param: u32, cell: Option<Value>) -> Option<Block>
    ensures { result ≡ block_of adornment param cell }
{
    match (adornment, cell) {
        (Adornment::In, None) => Some(Block::Missing { param }),
        (Adornment::Out | Adornment::Nil, Some(kept)) => Some(Block::Bound { param, kept }),
        (_, _) => None,
    }
}
