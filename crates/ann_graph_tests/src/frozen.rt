ghost use Rattle.std.specs.Prelude.{◌≡◌, ◌≤◌, ◌<◌, [], length, IfOk};

use ann_frozen::Frozen;
use ann_greedy::Graph;
use ann_table::Table;
use ann_types::Params;
use std::alloc::{AllocError, Global};
use std::test::Fail;

// An empty table of vectors of two components, with room for two rows.
fn empty(alloc: Global) -> Result<Table, AllocError>
    ensures empty { IfOk result (λ table. table.nodes ≡ []) }
    ensures room { IfOk result (λ table. 2 ≤ table.spare) }
    ensures width { IfOk result (λ table. table.params.d ≡ 2) }
    ensures degree { IfOk result (λ table. table.params.r ≡ 2) }
{
    let Some(params) = Params::new(2, 2, 10, 12, 10, 1, 1, 100) else {
        return Err(AllocError);
    };
    let mut table = Table::new(alloc, &params);
    table.reserve(2)?;
    Ok(table)
}

// Two points at (0, 1) and (4, 4), of which the first has the second as its neighbour.
fn fill(table: &mut Table)
    requires empty { table.old.nodes ≡ [] }
    requires room { 2 ≤ table.old.spare }
    requires width { table.old.params.d ≡ 2 }
    requires degree { table.old.params.r ≡ 2 }
    ensures { length table.new.nodes ≡ 2 }
{
    table.add(3, 30, &[0, 1], &[]);
    table.add(7, 70, &[4, 4], &[0]);
    table.link(0, 1);
}

// Whether a row is of this Pid, tag, vector and neighbour.
fn is_row(frozen: &Frozen, row: u32, pid: u32, tag: u64, vector: [u8; 2], neighbour: u32) -> bool
    requires { row < length frozen.now.nodes }
{
    frozen.pid(row) == pid
        && frozen.tag(row) == tag
        && frozen.vector(row) == vector.as_slice()
        && frozen.neighbours(row) == [neighbour].as_slice()
}

// Whether these are those two points.
fn is_filled(frozen: &Frozen) -> bool
    requires { length frozen.now.nodes ≡ 2 }
{
    frozen.known();
    frozen.count() == 2
        && frozen.entry() == Some(0)
        && frozen.params().r == 2
        && is_row(frozen, 0, 3, 30, [0, 1], 1)
        && is_row(frozen, 1, 7, 70, [4, 4], 0)
}

// Whether the table, frozen, has these rows.
fn keeps_rows(alloc: Global) -> Result<bool, AllocError> {
    let mut table = empty(alloc)?;
    fill(&mut table);
    let frozen = Frozen::from_table(alloc, &table)?;
    Ok(is_filled(&frozen))
}

#[test]
fn a_frozen_table_keeps_its_rows(rt: HostRuntime) -> Result<(), Fail> {
    assert!(rt; keeps_rows(rt.alloc())?);
    Ok(())
}

// How many rows there are without a point, and the entry.
fn nothing_frozen(alloc: Global) -> Result<(u32, Option<u32>), AllocError> {
    let table = empty(alloc)?;
    let frozen = Frozen::from_table(alloc, &table)?;
    Ok((frozen.count(), frozen.entry()))
}

#[test]
fn nothing_frozen_has_no_entry(rt: HostRuntime) -> Result<(), Fail> {
    assert_eq!(rt; nothing_frozen(rt.alloc())?, (0, None));
    Ok(())
}
